//! The kinds of parameters, as databases write them and phases have them.
#![tactic(auto)]

mod kind;

pub use kind::Kind;
