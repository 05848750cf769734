//! The equilibrium of a system, with its certificate: exact plans over the known constitutions, and sweeps that find what they lack.
#![tactic(auto)]

mod alone;
mod amount;
mod coarse;
mod descent;
mod fault;
mod figure;
mod found;
mod known;
mod modelled;
mod near;
mod phases;
mod point;
mod potential;
mod proposal;
mod report;
mod round;
mod rounds;
mod search;
mod solved;
mod solving;
mod weight;

pub use fault::{Open, SolveFault};
pub use report::phase_names;
pub use solved::Solved;
pub use solving::{equilibrium, equilibrium_from};
