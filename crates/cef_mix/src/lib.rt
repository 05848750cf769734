//! Ideal mixing on the sites of a phase: tables of its energies, and the least of them less a slope.
#![tactic(auto)]

mod least;
mod mix;
mod table;

pub use least::Least;
pub use mix::Mix;
