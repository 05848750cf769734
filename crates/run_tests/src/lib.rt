//! Tests of a run and of what it has of the outside.
#![tactic(auto)]

#[cfg(test)]
mod disk;
#[cfg(test)]
mod outside;
#[cfg(test)]
mod paths;
#[cfg(test)]
mod runs;
