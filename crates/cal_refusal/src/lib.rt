//! The line of each refusal, and what is printed of a judged report.
#![tactic(auto)]

mod judged;
mod lines;
mod numbers;
mod open;
mod system;

pub use judged::{accepted, report};
pub use lines::{LONG, READ, USAGE, database};
pub use numbers::{gap, infeasible};
pub use open::open_text;
pub use system::system_refusal;
