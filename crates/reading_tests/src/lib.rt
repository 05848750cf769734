//! Tests of how a text is cut into commands.
#![tactic(auto)]

#[cfg(test)]
mod commands;
