//! The run of a solidification path: it is printed step by step while it is made.
#![tactic(auto)]

mod path_fault;
mod refusing;
mod running;
mod stepping;

pub use running::run_path;
