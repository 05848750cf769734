//! Tests of values, lows and highs of parameters, through public functions alone.
#![tactic(auto)]

#[cfg(test)]
mod boxes;
#[cfg(test)]
mod parameters;
