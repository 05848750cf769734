//! The judge of a document over a database: one report, or the report of each step of a path with the path's own rules. Nobody has to
//! believe the solver.
#![tactic(auto)]

mod ending;
mod fault;
mod finishing;
mod heading;
mod judging;
mod leaving;
mod reporting;
mod same;
mod stepping;
mod summing;

pub use fault::DocumentFault;
pub use judging::check_document;
