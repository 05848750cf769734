//! Numbers of a database as whole numbers.

ghost use Rattle.std.specs.Prelude.{◌≡◌, ◌≤◌, ◌<◌, ◌^◌, ◌*◌, ◌+◌, ◌/◌, ◌%◌, ◌==◌, Some, None, IfSome, min, unsigned_abs, if◌then◌else◌, map, sum, pos, int_lt};
ghost use Rattle.std.specs.Option.{option_map};
ghost use Rattle.cal_select.specs.Wholes as spec;

use cal_dec::Dec;

/// `m * 10^times`, or the cap where that is more.
#[tactic(auto, using(crate::proofs::Powers_of_ten::tens))]
fn raised(m: u64, times: u32, cap: u32) -> u32
    requires { 1 ≤ cap }
    ensures { result ≡ min cap (m * 10 ^ times) }
{
    let mut value = u64::from(cap).min(m);
    'times: for _ in 0..times {
        value = u64::from(cap).min(value * 10);
    }
    value as u32
}

/// `m / 10^times`, where that is whole.
#[tactic(auto, using(crate::proofs::Powers_of_ten::tens))]
fn lowered(m: u128, times: u32) -> Option<u128>
    ensures { result ≡ (if m % 10 ^ times == 0 then Some (m / 10 ^ times) else None) }
{
    let mut value = m;
    'times: for _ in 0..times {
        if value % 10 != 0 {
            return None;
        }
        value = value / 10;
    }
    Some(value)
}

fn capped(value: u128, cap: u32) -> u32
    ensures { result ≡ min cap value }
{
    u128::from(cap).min(value) as u32
}

/// `m * 10^decimals`.
fn shifted(m: u64, decimals: u32) -> u128
    requires { decimals ≤ 5 }
    ensures { result ≡ m * 10 ^ decimals }
{
    let power: u32 = match decimals {
        0 => 1,
        1 => 10,
        2 => 100,
        3 => 1000,
        4 => 10_000,
        _ => 100_000,
    };
    u128::from(m) * u128::from(power)
}

/// The magnitude of a number times `10^decimals`, where that is whole, or the cap where it is more.
#[tactic(auto, unfolding(crate::specs::Wholes::scaled))]
pub(crate) fn whole(decimals: u32, number: Dec, cap: u32) -> Option<u32>
    requires decimals { decimals ≤ 5 }
    requires cap { 1 ≤ cap }
    ensures { result ≡ option_map (min cap) (spec.scaled decimals number) }
{
    let mantissa = number.mantissa.unsigned_abs();
    let places = u32::from(number.exponent.unsigned_abs());
    if number.exponent >= 0 {
        return Some(raised(mantissa, decimals + places, cap));
    }
    match lowered(shifted(mantissa, decimals), places) {
        None => None,
        Some(value) => Some(capped(value, cap)),
    }
}

fn is_negative(number: Dec) -> bool
    ensures { result ≡ spec.is_negative number }
{
    number.mantissa < 0
}

/// The magnitude of an antiferromagnetic factor, where that is a whole number from -9 to -1.
#[tactic(auto, unfolding(crate::specs::Wholes::factor_of))]
pub(crate) fn factor(number: Dec) -> Option<u8>
    ensures value { result ≡ spec.factor_of number }
    ensures sound { IfSome result (λ factor. (1 ≤ factor) × (factor ≤ 9)) }
{
    if !is_negative(number) {
        return None;
    }
    match whole(0, number, 10) {
        None => None,
        Some(factor) => {
            if factor >= 1 && factor <= 9 {
                Some(factor as u8)
            } else {
                None
            }
        }
    }
}

/// A fraction from 0.1 to 1 of at most 4 decimals, in ten-thousandths.
#[tactic(auto, unfolding(crate::specs::Wholes::ten_thousandths_of))]
pub(crate) fn ten_thousandths(number: Dec) -> Option<u32>
    ensures value { result ≡ spec.ten_thousandths_of number }
    ensures sound { IfSome result (λ p4. (1000 ≤ p4) × (p4 ≤ 10000)) }
{
    if is_negative(number) {
        return None;
    }
    match whole(4, number, 10_001) {
        None => None,
        Some(fraction) => {
            if fraction >= 1000 && fraction <= 10_000 {
                Some(fraction)
            } else {
                None
            }
        }
    }
}
