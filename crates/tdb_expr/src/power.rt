//! What stands behind `T` and `LN`.

ghost use Rattle.std.specs.Prelude.{◌≡◌, ◌≤◌, IfSome};
ghost use Rattle.std.specs.Option.{option_map};
ghost use Rattle.cal_dec.specs.Signs.{signed as number_signed};
ghost use Rattle.tdb_expr.specs.Parts.{part_of};
ghost use Rattle.tdb_expr.specs.Reading.{magnitude_at, plain_at, closed_at, bracketed_at, exponent_at, temperature_at, logarithm_at};

use crate::factor::Factor;
use crate::mark::{behind_mark, behind_stars};
use cal_dec::{capped_value, split_digits};
use cal_scan::behind_spaces;

/// The greatest magnitude of a power.
const HIGHEST: u32 = 20;

/// Digits of a number that is a power's magnitude.
#[tactic(auto, unfolding(crate::specs::Reading::magnitude_at))]
fn magnitude(text: &[u8]) -> Option<(u8, &[u8])>
    ensures value { option_map (λ r. (r.0, r.1.now)) result ≡ magnitude_at text.now }
    ensures bound { IfSome result (λ r. r.0 ≤ 20) }
{
    let (digits, rest) = split_digits(behind_spaces(text));
    if digits.is_empty() {
        return None;
    }
    let value = capped_value(digits);
    if value > HIGHEST {
        return None;
    }
    Some((value as u8, rest))
}

fn signed(negative: bool, magnitude: u8) -> i8
    requires { magnitude ≤ 20 }
    ensures { result ≡ number_signed negative magnitude }
{
    if negative {
        -(magnitude as i8)
    } else {
        magnitude as i8
    }
}

/// Digits.
fn plain(text: &[u8]) -> Option<(Factor, &[u8])>
    ensures { option_map (λ r. (part_of r.0, r.1.now)) result ≡ plain_at text.now }
{
    let (magnitude, rest) = magnitude(text)?;
    Some((Factor::Power(signed(false, magnitude)), rest))
}

/// Digits and `)`.
fn closed(negative: bool, text: &[u8]) -> Option<(Factor, &[u8])>
    ensures { option_map (λ r. (part_of r.0, r.1.now)) result ≡ closed_at negative text.now }
{
    let (magnitude, rest) = magnitude(text)?;
    let rest = behind_mark(rest, b')')?;
    Some((Factor::Power(signed(negative, magnitude)), rest))
}

/// An optional sign, digits and `)`.
fn bracketed(text: &[u8]) -> Option<(Factor, &[u8])>
    ensures { option_map (λ r. (part_of r.0, r.1.now)) result ≡ bracketed_at text.now }
{
    match behind_mark(text, b'+') {
        Some(rest) => closed(false, rest),
        None => match behind_mark(text, b'-') {
            Some(rest) => closed(true, rest),
            None => closed(false, text),
        },
    }
}

/// An exponent, which stands behind `T**`.
#[tactic(auto, unfolding(crate::specs::Reading::exponent_at))]
fn exponent(text: &[u8]) -> Option<(Factor, &[u8])>
    ensures { option_map (λ r. (part_of r.0, r.1.now)) result ≡ exponent_at text.now }
{
    match behind_mark(text, b'(') {
        Some(rest) => bracketed(rest),
        None => plain(text),
    }
}

/// The temperature, or a power of it, of which what stands behind `T` is given.
#[tactic(auto, unfolding(crate::specs::Reading::temperature_at))]
pub fn temperature(text: &[u8]) -> Option<(Factor, &[u8])>
    ensures { option_map (λ r. (part_of r.0, r.1.now)) result ≡ temperature_at text.now }
{
    match behind_stars(text) {
        Some(rest) => exponent(rest),
        None => Some((Factor::T, text)),
    }
}

/// The logarithm of the temperature, of which what stands behind `LN` is given.
#[tactic(auto, unfolding(crate::specs::Reading::logarithm_at))]
pub fn logarithm(text: &[u8]) -> Option<(Factor, &[u8])>
    ensures { option_map (λ r. (part_of r.0, r.1.now)) result ≡ logarithm_at text.now }
{
    let rest = behind_mark(text, b'(')?;
    let rest = behind_mark(rest, b'T')?;
    let rest = behind_mark(rest, b')')?;
    Some((Factor::LnT, rest))
}
