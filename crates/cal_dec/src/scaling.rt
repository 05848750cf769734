ghost use Rattle.std.specs.Prelude.{◌≡◌, ◌≢◌, ◌≤◌, ◌<◌, ◌-◌, ◌*◌, ◌^◌, ◌↔◌, pos, ◌*ℤ◌, unsigned_abs, IfOk, IfSome, IsErr, IsNone, IsTrue};
ghost use Rattle.std.specs.Int.{int_div_euclid};
ghost use Rattle.cal_dec.specs.Decimals.{decimal_of};
ghost use Rattle.cal_dec.specs.Signs.{signed};
ghost use Rattle.cal_dec.specs.Scales.{nano_of, IsBelow};

use crate::dec::Dec;
use thiserror::Error;

/// The magnitude is above `10^27` units of `10^-9`.
#[derive(Debug, Drop, PartialEq, Eq, Error)]
#[error("the number is above 10^18")]
pub struct TooLarge;

/// The greatest magnitude that `to_nano` gives.
const LARGEST: u128 = 1_000_000_000_000_000_000_000_000_000;

/// The floor of the number in units of `10^-9`.
pub fn to_nano(a: Dec) -> Result<i128, TooLarge>
    ensures floor { IfOk result (λ n. n ≡ nano_of (decimal_of a)) }
    ensures too_large { IsErr result ↔ (10 ^ 27 < unsigned_abs (nano_of (decimal_of a))) }
{
    let exponent = a.exponent as i32 + 9;
    if exponent < 0 {
        Ok(floor_of(a, exponent.unsigned_abs()))
    } else {
        multiple_of(a, exponent.unsigned_abs())
    }
}

/// The floor of the mantissa divided by `10^places`.
fn floor_of(a: Dec, places: u32) -> i128
    requires { 0 < places }
    ensures floor { result ≡ int_div_euclid a.mantissa (pos (10 ^ places)) }
    ensures small { unsigned_abs result ≤ 10 ^ 18 }
{
    if places < 18 {
        a.mantissa.div_euclid(small_power_of_ten(places) as i64) as i128
    } else if a.mantissa < 0 {
        -1
    } else {
        0
    }
}

/// The mantissa times `10^places`.
fn multiple_of(a: Dec, places: u32) -> Result<i128, TooLarge>
    ensures multiple { IfOk result (λ n. n ≡ a.mantissa *ℤ pos (10 ^ places)) }
    ensures too_large { IsErr result ↔ (10 ^ 27 < unsigned_abs (a.mantissa *ℤ pos (10 ^ places))) }
{
    match bounded_multiple(a.mantissa.unsigned_abs(), places) {
        Some(magnitude) => Ok(signed_wide(a.mantissa < 0, magnitude)),
        None => Err(TooLarge),
    }
}

/// `number * 10^places`, unless it is too large.
fn bounded_multiple(number: u64, places: u32) -> Option<u128>
    ensures multiple { IfSome result (λ n. n ≡ number * 10 ^ places) }
    ensures small { IfSome result (λ n. n ≤ 10 ^ 27) }
    ensures too_large { IsNone result ↔ (10 ^ 27 < number * 10 ^ places) }
{
    if number == 0 {
        return Some(0);
    }
    if places > 27 {
        return None;
    }
    match (number as u128).checked_mul(power_of_ten(places)) {
        Some(multiple) if multiple <= LARGEST => Some(multiple),
        _ => None,
    }
}

fn signed_wide(negative: bool, magnitude: u128) -> i128
    requires { magnitude ≤ 10 ^ 27 }
    ensures { result ≡ signed negative magnitude }
{
    if negative {
        -(magnitude as i128)
    } else {
        magnitude as i128
    }
}

fn small_power_of_ten(places: u32) -> u64
    requires { places ≤ 17 }
    ensures power { result ≡ 10 ^ places }
    ensures least { 0 < result }
    ensures greatest { result ≤ 10 ^ 17 }
{
    10u64.pow(places)
}

fn power_of_ten(places: u32) -> u128
    requires { places ≤ 27 }
    ensures power { result ≡ 10 ^ places }
    ensures least { 0 < result }
    ensures greatest { result ≤ 10 ^ 27 }
{
    10u128.pow(places)
}

/// Whether `t` hundredths are below the number.
pub fn below(t: u32, high: Dec) -> bool
    ensures { IsTrue result ↔ IsBelow t (decimal_of high) }
{
    if high.mantissa <= 0 {
        return false;
    }
    let mantissa = high.mantissa.unsigned_abs();
    let exponent = high.exponent as i32 + 2;
    if exponent < 0 {
        below_fraction(t, mantissa, exponent.unsigned_abs())
    } else {
        below_multiple(t, mantissa, exponent.unsigned_abs())
    }
}

fn below_fraction(t: u32, mantissa: u64, places: u32) -> bool
    requires above { 0 < mantissa }
    requires small { mantissa < 10 ^ 18 }
    requires places { 0 < places }
    ensures { IsTrue result ↔ (t * 10 ^ places < mantissa) }
{
    if places < 18 {
        t as u128 * power_of_ten(places) < mantissa as u128
    } else {
        t == 0
    }
}

fn below_multiple(t: u32, mantissa: u64, places: u32) -> bool
    requires above { 0 < mantissa }
    requires small { mantissa < 10 ^ 18 }
    ensures { IsTrue result ↔ (t < mantissa * 10 ^ places) }
{
    places >= 10 || (t as u128) < mantissa as u128 * power_of_ten(places)
}
