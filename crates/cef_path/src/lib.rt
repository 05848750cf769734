//! Solidification paths after Scheil, and what it means that a path holds.
#![tactic(auto)]

mod finish;
mod law;
mod limit;
mod path;
mod start;
mod step;

pub use finish::Finish;
pub use law::ledger_balances;
pub use limit::{MOST_STEPS, MOST_STOP};
pub use path::PathText;
pub use start::PathStart;
pub use step::StepText;
