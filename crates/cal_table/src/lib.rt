//! The table of a document: a record of comma-separated fields for each entry of each of its equilibria.
#![tactic(auto)]

mod field;
mod row;
mod tabling;

pub use tabling::table;
