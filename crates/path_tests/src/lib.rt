//! The tests of the texts of paths and documents, and of their tables.
#![tactic(auto)]

#[cfg(test)]
mod example;
#[cfg(test)]
mod faults;
#[cfg(test)]
mod paths;
#[cfg(test)]
mod tables;
#[cfg(test)]
mod writers;
