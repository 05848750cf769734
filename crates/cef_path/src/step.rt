use cal_list::Items;
use cef_report::Report;

/// A step of a path: an equilibrium, and what it leaves of the liquid.
#[derive(Drop)]
pub struct StepText {
    /// Counted from 1.
    pub number: u32,
    pub report: Report,
    /// Of each element, in units of 1/N nmol: what the next step asks.
    pub left: Items<i128>,
    /// The number of the step's first line in the text of the path, counted from 1.
    pub line: u32,
}
