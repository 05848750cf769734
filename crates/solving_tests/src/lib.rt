//! Tests of equilibria, over systems that are made by hand.
#![tactic(auto)]

#[cfg(test)]
mod equilibria;
#[cfg(test)]
mod systems;
