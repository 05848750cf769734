//! Parameters as terms of an energy: their values, and their lows and highs over boxes.
#![tactic(auto)]

mod box_ends;
mod divisor;
mod factor;
mod form;
mod narrow;
mod param_term;
mod placing;
mod power;
mod share;
mod wide;

pub use param_term::ParamTerm;
