//! Phases that tests of several crates are made of: solutions of one to three elements, one with magnetism, and cementite.
#![tactic(auto)]

mod cementites;
mod lists;
mod magnetics;
mod ranges;
mod solutions;

pub use cementites::cementite;
pub use lists::{three, two};
pub use magnetics::magnetic_pair;
pub use ranges::are_ranges;
pub use solutions::{pair, single, solution_of_10, solution_of_100, vacant};
