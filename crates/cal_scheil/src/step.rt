use cal_list::Items;
use cef_path::Finish;
use cef_report::Report;

/// A step that was made.
#[derive(Drop)]
pub struct Stepped {
    pub report: Report,
    /// Of each element of the report, in units of 1/N nmol: what it leaves in the liquid, which the next step asks.
    pub left: Items<i128>,
    /// Why the path ends with the step, if it does.
    pub finish: Option<Finish>,
}
