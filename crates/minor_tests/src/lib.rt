//! Tests of affine minorants, through public functions alone.
#![tactic(auto)]

#[cfg(test)]
mod minorants;
#[cfg(test)]
mod solutions;
