//! Tests of the magnetic energy: of g, of sums of Curie temperatures and of moments, through public functions alone.
#![tactic(auto)]

#[cfg(test)]
mod branches;
#[cfg(test)]
mod energies;
#[cfg(test)]
mod fixture;
#[cfg(test)]
mod ranges;
#[cfg(test)]
mod terms;
