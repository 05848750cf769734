use cal_list::Items;
use cal_scan::Name;

/// What a system is asked for.
#[derive(Drop)]
pub struct Job {
    /// In hundredths of a kelvin.
    pub t: u32,
    /// The number N of parts of each sublattice.
    pub lattice: u32,
    /// In the order in which they are asked.
    pub elements: Items<Name>,
    /// The phases that can be selected, or none where all can.
    pub phases: Option<Items<Name>>,
}
