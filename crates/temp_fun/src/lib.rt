//! The value of an expression at a temperature, or where its reading stops.
#![tactic(auto)]

mod factor;
mod fault;
mod found;
mod kept;
mod laws;
mod mark;
mod partial;
mod piece;
mod product;
mod reader;
mod state;
mod stepping;
mod sum;
mod valuing;
mod waiting;

pub use fault::EvalFault;
pub use kept::{Kept, Valued};
pub use laws::{one_outcome, some_outcome};
pub use valuing::{value, value_with};
