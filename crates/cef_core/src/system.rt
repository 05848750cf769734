use crate::phase::PhaseAt;
use cal_list::Items;
use cal_scan::Name;

/// The elements asked and the phases selected for them, at a temperature and on a lattice.
#[derive(Drop)]
pub struct System {
    /// In hundredths of a kelvin.
    pub t: u32,
    /// The number N of parts of each sublattice.
    pub lattice: u32,
    pub elements: Items<Name>,
    pub phases: Items<PhaseAt>,
    /// How many lists of counts the phases have together.
    pub lists: u64,
    /// N times the greatest sum of ratios of a phase.
    pub widest: u64,
}
