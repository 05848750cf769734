//! Tests of sweeps, through public functions alone.
#![tactic(auto)]

#[cfg(test)]
mod sweeps;
