//! The integer logarithm of the whole numbers up to a greatest one, kept in a table, in units of 10^-15.
#![tactic(auto)]

mod laws;
mod logs;
mod series;

pub use laws::{logarithm_is_bounded, logarithm_rises, series_ends};
pub use logs::Logs;
