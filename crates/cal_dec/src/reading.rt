ghost use Rattle.std.specs.Prelude.{◌≡◌, ◌<◌, ◌≤◌, ◌+◌, ◌^◌, ◌++◌, ◌↔◌, List, ℕ, length, unsigned_abs, IfOk, IfSome, IsNone, ◌⊎◌};
ghost use Rattle.std.specs.Str.Parse.{AllDigits, digits_value};
ghost use Rattle.cal_dec.specs.Decimals.{decimal_of};
ghost use Rattle.cal_dec.specs.Numerals.{Numeral as Parts, Spells, IsNumber, decimal_from, value_of};
ghost use Rattle.cal_dec.specs.Scanning.{decimal_kept};
ghost use Rattle.cal_dec.specs.Trimming.{IsFirst};

use crate::dec::Dec;
use crate::numeral::{Numeral, scan};
use crate::trimming::{FirstDigits, signed};
use thiserror::Error;

/// Why a text is not read as a number.
#[derive(Debug, Drop, PartialEq, Eq, Error)]
pub enum DecFault {
    #[error("not a number")]
    NotANumber,
    #[error("more than 64 bytes, or an exponent outside -200 to 200")]
    TooLong,
}

/// The longest text that is read, in bytes.
const LONGEST: usize = 64;

/// The greatest magnitude of an exponent.
const WIDEST: u32 = 200;

/// Before the first digit.
const NO_DIGITS: FirstDigits = FirstDigits {
    magnitude: 0,
    dropped: 0,
};

/// The least number of 18 digits.
const FULL: u64 = 100_000_000_000_000_000;

/// Reads a number: an optional sign, digits with at most one point before, among or behind them, and optionally a capital `E`
/// with an optional sign and digits. Of more than 18 digits the lowest are dropped (this project's rounding).
pub fn read_dec(text: &[u8]) -> Result<Dec, DecFault>
    ensures not_a_number { (result ≡ Err DecFault.NotANumber) ↔ ¬ (IsNumber text.now) }
    ensures too_long { (n : Parts) → Spells n text.now → ((result ≡ Err DecFault.TooLong) ↔ ((64 < length text.now) ⊎ (200 < unsigned_abs (value_of n).exponent))) }
    ensures value { (n : Parts) → Spells n text.now → IfOk result (λ d. decimal_of d ≡ value_of n) }
{
    match scan(text) {
        None => Err(DecFault::NotANumber),
        Some(_) if text.len() > LONGEST => Err(DecFault::TooLong),
        Some(numeral) => value(&numeral).ok_or(DecFault::TooLong),
    }
}

/// The number of these parts, unless its exponent is outside -200 to 200.
fn value(numeral: &Numeral<'_>) -> Option<Dec>
    requires whole { AllDigits 10 numeral.now.whole.now }
    requires fraction { AllDigits 10 numeral.now.fraction.now }
    requires few { length numeral.now.whole.now + length numeral.now.fraction.now ≤ 64 }
    requires exponent { unsigned_abs numeral.now.exponent ≤ 10000 }
    ensures value { IfSome result (λ d. decimal_of d ≡ decimal_kept numeral.now.negative numeral.now.whole.now numeral.now.fraction.now numeral.now.exponent) }
    ensures too_long { IsNone result ↔ (200 < unsigned_abs (decimal_kept numeral.now.negative numeral.now.whole.now numeral.now.fraction.now numeral.now.exponent).exponent) }
{
    let digits = first_digits(first_digits(NO_DIGITS, numeral.whole), numeral.fraction);
    let exponent = numeral.exponent - numeral.fraction.len() as i32;
    within_limits(numeral.negative, digits, exponent)
}

/// The number of these first digits, unless its exponent is outside -200 to 200. The exponent that is given is that of the last
/// digit, dropped or not.
fn within_limits(negative: bool, digits: FirstDigits, exponent: i32) -> Option<Dec>
    requires magnitude { digits.magnitude < 10 ^ 18 }
    requires dropped { digits.dropped ≤ 64 }
    requires exponent { unsigned_abs exponent ≤ 10064 }
    ensures value { (number : ℕ) → number < 10 ^ 64 → IsFirst number digits.magnitude digits.dropped → IfSome result (λ d. decimal_of d ≡ decimal_from negative number exponent) }
    ensures too_long { (number : ℕ) → number < 10 ^ 64 → IsFirst number digits.magnitude digits.dropped → (IsNone result ↔ (200 < unsigned_abs (decimal_from negative number exponent).exponent)) }
{
    if digits.magnitude == 0 {
        return Some(Dec {
            mantissa: 0,
            exponent: 0,
        });
    }
    let exponent = exponent + digits.dropped as i32;
    if exponent.unsigned_abs() > WIDEST {
        return None;
    }
    Some(Dec {
        mantissa: signed(negative, digits.magnitude),
        exponent: exponent as i16,
    })
}

/// The first digits of a number that goes on with these digits, given those of the number before.
fn first_digits(before: FirstDigits, digits: &[u8]) -> FirstDigits
    requires digits { AllDigits 10 digits.now }
    requires few { length digits.now ≤ 64 }
    requires magnitude { before.magnitude < 10 ^ 18 }
    requires dropped { before.dropped ≤ 64 }
    ensures first { (front : List ℕ) → AllDigits 10 front → length front + length digits.now ≤ 64 → IsFirst (digits_value 10 front) before.magnitude before.dropped → IsFirst (digits_value 10 (front ++ digits.now)) result.magnitude result.dropped }
    ensures magnitude { result.magnitude < 10 ^ 18 }
    ensures dropped { result.dropped ≤ before.dropped + length digits.now }
{
    let FirstDigits {
        mut magnitude,
        mut dropped,
    } = before;
    'digits: for &b in digits {
        if magnitude < FULL {
            magnitude = magnitude * 10 + (b - b'0') as u64;
        } else {
            dropped += 1;
        }
    }
    FirstDigits { magnitude, dropped }
}
