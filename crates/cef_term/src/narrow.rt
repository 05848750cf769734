//! Shares of divisors up to 2^31, in 64 bits.

ghost use Rattle.std.specs.Prelude.{◌≡◌, ◌≤◌, ◌<◌, ◌^◌, ◌+◌, ◌*◌, ◌/◌};
ghost use Rattle.std.specs.Prelude.{pos, ◌*ℤ◌, ◌+ℤ◌, ◌-ℤ◌, unsigned_abs};
ghost use Rattle.cef_term.specs.Kept.{HasProduct, IsNarrow, product_at, quotient_of};

use cal_whole::{floor_quotient, floor_rest};

/// The numbers micro and den, with their quotient: a whole number and a part in 2^-64, rounded up.
#[derive(Clone, Copy, Debug, PartialEq, Eq)]
pub struct NarrowShare {
    pub micro: i64,
    pub den: u32,
    pub whole: i64,
    pub part: u64,
}

/// rest / den in 2^-64, rounded up.
#[tactic(auto, using(crate::proofs::Parts::part_rules))]
fn part_of(rest: u128, den: u128) -> u64
    requires rest { rest < den }
    requires den { den ≤ 2 ^ 31 }
    ensures low { rest * 2 ^ 64 ≤ result * den }
    ensures high { result * den < rest * 2 ^ 64 + den }
{
    ((rest * (1 << 64) + (den - 1)) / den) as u64
}

/// What is kept of a number and a divisor.
#[tactic(auto, using(crate::proofs::Shares::signed_rules))]
pub fn narrow_share(micro: i128, divisor: u128) -> NarrowShare
    requires micro { unsigned_abs micro ≤ 2 ^ 55 }
    requires low { 1 ≤ divisor }
    requires high { divisor ≤ 2 ^ 31 }
    ensures keeps { IsNarrow result }
    ensures micro { result.micro ≡ micro }
    ensures divisor { result.den ≡ divisor }
{
    let whole = floor_quotient(micro, divisor as i128) as i64;
    let rest = floor_rest(micro, divisor as i128);
    let part = part_of(rest, divisor);
    NarrowShare {
        micro: micro as i64,
        den: divisor as u32,
        whole,
        part,
    }
}

/// The product of the counts at the places.
#[inline(always)]
#[tactic(auto, using(crate::proofs::Rooms::products))]
pub fn product_of(counts: &[u16], places: &[u16]) -> u64
    requires { HasProduct (2 ^ 31) counts.now places.now }
    ensures exact { result ≡ product_at counts.now places.now }
    ensures small { result ≤ 2 ^ 31 }
{
    let mut total = 1;
    'each: for i in 0..places.len() {
        total *= u64::from(counts[usize::from(places[i])]);
    }
    total
}

/// The product of a product of counts and a factor, and den more: at least 0.
#[inline(always)]
#[tactic(auto, using(crate::proofs::Parts::raised_rules))]
fn raised(product: u64, factor: i64, den: u32) -> u64
    requires small { product ≤ 2 ^ 31 }
    requires den { den ≤ 2 ^ 31 }
    requires room { product * unsigned_abs factor ≤ den }
    ensures exact { pos result ≡ pos product *ℤ factor +ℤ pos den }
    ensures size { result ≤ den + den }
{
    (product as i64 * factor + i64::from(den)) as u64
}

/// The whole of part * up, part in 2^-64.
#[inline(always)]
fn whole_of(part: u64, up: u64) -> u64
    ensures { result ≡ part * up / 2 ^ 64 }
{
    ((u128::from(part) * u128::from(up)) >> 64) as u64
}

/// whole * up.
#[inline(always)]
fn times(whole: i64, up: u64) -> i64
    requires up { up ≤ 2 ^ 32 }
    requires room { unsigned_abs (whole *ℤ pos up) ≤ 2 ^ 60 }
    ensures { result ≡ whole *ℤ pos up }
{
    whole * up as i64
}

/// first + over - micro.
#[inline(always)]
fn joined(first: i64, over: u64, micro: i64) -> i64
    requires first { unsigned_abs first ≤ 2 ^ 60 }
    requires over { over ≤ 2 ^ 60 }
    requires micro { unsigned_abs micro ≤ 2 ^ 55 }
    ensures { result ≡ first +ℤ pos over -ℤ micro }
{
    first + over as i64 - micro
}

/// floor (micro * q / den) for the product q of a product of counts and a factor, of a magnitude
/// of at most den. With up = q + den, which is at least 0, it is
/// whole*up + floor (part*up / 2^64) - micro.
#[inline(always)]
#[tactic(auto, using(crate::proofs::Parts::value_rules))]
pub fn narrow_value(share: NarrowShare, product: u64, factor: i64) -> i64
    requires keeps { IsNarrow share }
    requires small { product ≤ 2 ^ 31 }
    requires room { product * unsigned_abs factor ≤ share.den }
    ensures { result ≡ quotient_of share.micro (pos product *ℤ factor) share.den }
{
    let up = raised(product, factor, share.den);
    let first = times(share.whole, up);
    joined(first, whole_of(share.part, up), share.micro)
}
