use cal_list::Items;
use cef_core::Name;

/// What a path is started with.
#[derive(Drop)]
pub struct PathStart {
    /// The phase that takes part in each equilibrium with all that the step before left of it.
    pub liquid: Name,
    /// The first temperature, in hundredths of a kelvin.
    pub t: u32,
    /// By how much each step lowers the temperature, in hundredths of a kelvin.
    pub descent: u32,
    /// The lowest temperature, in hundredths of a kelvin.
    pub floor: u32,
    /// The fraction of liquid at which the path ends, in millionths.
    pub stop: u32,
    /// What is asked of each element at first, in units of 1/N nmol.
    pub asked: Items<i128>,
}
