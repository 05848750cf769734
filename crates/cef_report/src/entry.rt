use cef_core::Site;

/// An amount of one constitution of a phase.
#[derive(Drop)]
pub struct Entry {
    /// The place of the phase among the selected ones.
    pub phase: usize,
    /// In nmol of formula units.
    pub amount: i128,
    pub site: Site,
}
