use crate::entry::Entry;
use cal_list::Items;
use cef_core::Name;
use cef_tree::Tree;

/// An equilibrium with its certificate.
#[derive(Drop)]
pub struct Report {
    /// In hundredths of a kelvin.
    pub t: u32,
    /// The number N of parts of each sublattice.
    pub lattice: u32,
    pub elements: Items<Name>,
    pub phases: Items<Name>,
    /// For each element, in units of 1/N nmol.
    pub asked: Items<i128>,
    pub entries: Items<Entry>,
    /// For each element, in units of 1/N nmol.
    pub totals: Items<i128>,
    /// In fJ.
    pub energy: i128,
    /// The greatest difference of a total from the asked one, in units of 1/N nmol.
    pub tolerance: i128,
    /// How far below the energy an assemblage of the same totals may lie, in fJ.
    pub gap: i128,
    /// For each element, in 2^-16 µJ/mol per 1/N.
    pub potentials: Items<i128>,
    /// One for each phase.
    pub trees: Items<Tree>,
}
