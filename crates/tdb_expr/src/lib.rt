//! Expressions of the temperature as databases write them: their parts, what every database keeps of them, and their texts.
#![tactic(auto)]

mod expression;
mod factor;
mod laws;
mod mark;
mod power;
mod product;
mod ranged;
mod reading;
mod sum;

pub use expression::Expr;
pub use factor::Factor;
pub use laws::one_reading;
pub use product::Product;
pub use ranged::{Piece, Ranged};
pub use sum::read_expr;
