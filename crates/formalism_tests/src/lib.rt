//! Tests of mixing, of the energies of a phase, of boxes and of their bounds, through public functions alone.
#![tactic(auto)]

#[cfg(test)]
mod bounds;
#[cfg(test)]
mod cuts;
#[cfg(test)]
mod energies;
#[cfg(test)]
mod points;
