//! Whole numbers of 128 bits: exact steps with signs, quotients rounded down, common divisors and multiples, the order of ratios.
//! Nothing here takes memory.
#![tactic(auto)]

mod arithmetic;
mod divisor;
mod floor;
mod ratio;

pub use arithmetic::{exact_quotient, minus, plus, times};
pub use divisor::{gcd, least_common_multiple};
pub use floor::{floor_quotient, floor_rest};
pub use ratio::{compare_ratios, compare_signed_ratios};
