//! The parts of which the commands of a database are made: numbers, heads, lists of constituents, kinds and ranged texts.
#![tactic(auto)]

mod arrays;
mod distinct;
mod head;
mod kinds;
mod number;
mod pieces;
mod sites;

pub use arrays::{Array, read_array};
pub use head::split_head;
pub use kinds::read_kind;
pub use number::readable;
pub use pieces::read_ranged;
pub use sites::read_sites;
