//! A phase of the method: the column that enters, the place that leaves, and the stage at which no column costs less than its price.
#![tactic(auto)]

mod entering;
mod improving;
mod leaving;
mod phase;
mod stage;

pub use improving::settled;
pub use phase::Phase;
pub use stage::{Stage, exchanged, priced};
