use cal_list::Items;
use cal_scan::Name;
use cef_core::Job;

/// What is asked of a path.
#[derive(Drop)]
pub struct PathJob {
    /// What its systems are asked for, at first at the temperature given here.
    pub job: Job,
    /// What is asked of each element of the job at first, in units of 1/N nmol.
    pub asked: Items<i128>,
    /// By how much each step lowers the temperature, in hundredths of a kelvin.
    pub descent: u32,
    /// The lowest temperature, in hundredths of a kelvin.
    pub floor: u32,
    /// The fraction of liquid at which the path ends, in millionths.
    pub stop: u32,
    /// The phase that takes part in each equilibrium with all that the step before left of it.
    pub liquid: Name,
    /// The greatest gap of an equilibrium, in µJ per mol of components.
    pub gap: u64,
    /// The most splits of boxes that each sweep may make.
    pub budget: u64,
}
