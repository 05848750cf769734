//! Lists of any type, for records whose contracts name lists.
#![tactic(auto)]

mod items;

pub use items::{Items, one};
