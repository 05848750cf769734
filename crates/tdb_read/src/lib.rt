//! The database that a thermodynamic database text gives, or its first fault.
#![tactic(auto)]

mod constituent;
mod db;
mod element;
mod fault;
mod function;
mod key;
mod laws;
mod parameter;
mod phase;
mod reading;
mod type_definition;

pub use db::Db;
pub use fault::DbFault;
pub use key::Key;
pub use laws::one_outcome;
pub use parameter::ParamText;
pub use phase::PhaseText;
pub use reading::read;
pub use type_definition::{TypeKind, TypeText};
