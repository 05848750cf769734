//! Trees of boxes, as sweeps find them and reports print them.
#![tactic(auto)]

mod tree;

pub use tree::{Node, Tree};
