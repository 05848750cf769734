//! Shares of divisors above 2^31, in 128 bits: products of counts and of their factors may need
//! more than 64.

ghost use Rattle.std.specs.Prelude.{◌≡◌, ◌≤◌, ◌^◌, ◌*◌, ◌-◌, pos, ◌*ℤ◌, unsigned_abs};
ghost use Rattle.cef_term.specs.Kept.{HasProduct, IsWide, product_at, q_at, quotient_of};

use cal_whole::floor_quotient;

/// The numbers micro and den.
#[derive(Clone, Copy, Debug, PartialEq, Eq)]
pub struct WideShare {
    pub micro: i128,
    pub den: u128,
}

/// The product of the counts at the places.
#[tactic(auto, using(crate::proofs::Rooms::products))]
fn product_of(counts: &[u16], places: &[u16]) -> u128
    requires { HasProduct (3 * 2 ^ 70) counts.now places.now }
    ensures exact { result ≡ product_at counts.now places.now }
    ensures small { result ≤ 3 * 2 ^ 70 }
{
    let mut total = 1;
    'each: for i in 0..places.len() {
        total *= u128::from(counts[usize::from(places[i])]);
    }
    total
}

/// The product of two numbers.
fn product(a: i128, b: i128) -> i128
    requires { unsigned_abs (a *ℤ b) ≤ 2 ^ 127 - 1 }
    ensures { result ≡ a *ℤ b }
{
    a * b
}

/// The product of a product of counts and a factor.
#[tactic(auto, using(crate::proofs::Roomy::times_rules))]
fn times(count: u128, factor: i64) -> i128
    requires room { count * unsigned_abs factor ≤ 2 ^ 126 }
    requires small { count ≤ 2 ^ 126 }
    ensures { result ≡ pos count *ℤ factor }
{
    product(count as i128, i128::from(factor))
}

/// floor (micro * q / den) for the product q of the counts at the places and a factor, of a
/// magnitude of at most den.
#[cold]
#[inline(never)]
#[tactic(auto, using(crate::proofs::Shares::wide_value_rules))]
pub fn wide_value(share: WideShare, counts: &[u16], places: &[u16], factor: i64) -> i128
    requires keeps { IsWide share }
    requires product { HasProduct share.den counts.now places.now }
    requires room { product_at counts.now places.now * unsigned_abs factor ≤ share.den }
    ensures { result ≡ quotient_of share.micro (q_at counts.now places.now factor) share.den }
{
    let q = times(product_of(counts, places), factor);
    floor_quotient(product(share.micro, q), share.den as i128)
}
