use cef_report::{Entry, Report};

/// An equilibrium, and what a further one may start from.
#[derive(Drop)]
pub struct Solved {
    pub report: Report,
    /// Of the constitutions that became known those that lie nearest to the plane, with the amount 0.
    pub near: Vec<Entry>,
}
