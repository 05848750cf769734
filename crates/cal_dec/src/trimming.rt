ghost use Rattle.std.specs.Prelude.{◌≡◌, ◌≤◌, ◌<◌, ◌+◌, ◌/◌, ◌^◌, pos, ◌≤ℤ◌, unsigned_abs};
ghost use Rattle.cal_dec.specs.Decimals.{decimal_of, trimmed as trimmed_of, digits_over};
ghost use Rattle.cal_dec.specs.Signs.{signed as number_signed};

use crate::dec::Dec;

/// The first number of 19 digits.
pub const LIMIT: u128 = 1_000_000_000_000_000_000;

/// The first digits of a number, at most 18, and how many further ones were dropped.
#[derive(Clone, Copy)]
pub struct FirstDigits {
    pub magnitude: u64,
    pub dropped: u16,
}

/// The number of this sign and magnitude.
pub fn signed(negative: bool, magnitude: u64) -> i64
    requires { magnitude < 10 ^ 18 }
    ensures { result ≡ number_signed negative magnitude }
{
    if negative {
        -(magnitude as i64)
    } else {
        magnitude as i64
    }
}

/// The first digits of a number, and how many are dropped.
pub fn leading(number: u128) -> FirstDigits
    ensures dropped { result.dropped ≡ digits_over number }
    ensures magnitude { result.magnitude ≡ number / 10 ^ digits_over number }
    ensures small { result.magnitude < 10 ^ 18 }
    ensures few { result.dropped ≤ 21 }
{
    let mut magnitude = number;
    let mut dropped = 0;
    'digits: while magnitude >= LIMIT {
        magnitude /= 10;
        dropped += 1;
    }
    FirstDigits {
        magnitude: magnitude as u64,
        dropped,
    }
}

/// The number `mantissa * 10^exponent` without the lowest digits above 18.
#[tactic(auto, unfolding(crate::specs::Decimals::trimmed))]
pub fn trimmed(mantissa: i128, exponent: i16) -> Dec
    requires { unsigned_abs exponent ≤ 32000 }
    ensures { decimal_of result ≡ trimmed_of mantissa exponent }
{
    let FirstDigits { magnitude, dropped } = leading(mantissa.unsigned_abs());
    Dec {
        mantissa: signed(mantissa < 0, magnitude),
        exponent: exponent + dropped as i16,
    }
}
