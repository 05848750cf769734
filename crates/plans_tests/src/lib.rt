//! Tests of whole numbers, of bases and of plans, through public functions alone.
#![tactic(auto)]

#[cfg(test)]
mod basis;
#[cfg(test)]
mod fitting;
#[cfg(test)]
mod plans;
#[cfg(test)]
mod whole;
