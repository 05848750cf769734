//! Exact linear plans: the weights of whole columns that give a target at the least cost, with the potentials that prove it.
#![tactic(auto)]

mod fault;
mod first;
mod fit;
mod plan;
mod second;
mod solving;
mod start;
mod weight;

pub use fault::LpFault;
pub use fit::fits;
pub use lp_basis::Column;
pub use plan::Plan;
pub use solving::solve;
