//! Numbers of up to 18 decimal digits with an exponent of ten: read, multiplied, scaled to whole numbers and printed.
#![tactic(auto)]

mod dec;
mod fronts;
mod laws;
mod numeral;
mod printing;
mod products;
mod reading;
mod scaling;
mod trimming;

pub use dec::Dec;
pub use fronts::longest_number;
pub use laws::{printed_is_read, trimming_is_least};
pub use numeral::{capped_value, split_digits};
pub use printing::{print_fixed, print_whole};
pub use products::{mul, power};
pub use reading::{DecFault, read_dec};
pub use scaling::{TooLarge, below, to_nano};
pub use trimming::trimmed;
