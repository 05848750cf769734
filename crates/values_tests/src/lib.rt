//! Tests of expressions and of their values, through the public functions of their crates.
#![tactic(auto)]

#[cfg(test)]
mod chains;
#[cfg(test)]
mod fixture;
#[cfg(test)]
mod grammar;
#[cfg(test)]
mod values;
