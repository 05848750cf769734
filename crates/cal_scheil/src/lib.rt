//! A walk down a solidification path after Scheil: each step asks what the step before left of the liquid.
#![tactic(auto)]

mod account;
mod fault;
mod finishing;
mod job;
mod law;
mod ledger;
mod left;
mod making;
mod step;
mod walk;

pub use fault::StepFault;
pub use job::PathJob;
pub use law::{a_walk_is_a_path, each_loss_is_small};
pub use ledger::Ledger;
pub use step::Stepped;
pub use walk::Walk;
