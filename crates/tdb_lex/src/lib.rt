//! A thermodynamic database text, cut into its commands.
#![tactic(auto)]

mod command;
mod cutter;
mod line;

pub use command::{Command, CommandList};
pub use cutter::commands;
