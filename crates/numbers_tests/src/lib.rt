//! Tests of the layers of numbers and of tables of words, through their public functions.
#![tactic(auto)]

#[cfg(test)]
mod decimals;
#[cfg(test)]
mod fronts;
#[cfg(test)]
mod logarithms;
#[cfg(test)]
mod readings;
#[cfg(test)]
mod words;
