//! A basis of whole columns: its rows, the exchange of a column, and its potentials.
#![tactic(auto)]

mod basis;
mod column;
mod potential;
mod row;
mod unit;

pub use basis::exchange;
pub use column::{Column, sum_of};
pub use potential::{Potentials, potentials_of};
pub use row::{Row, product};
pub use unit::{unit_row, units};
