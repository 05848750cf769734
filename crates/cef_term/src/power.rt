//! Powers of differences of counts.

ghost use Rattle.std.specs.Prelude.{◌≡◌, ◌≤◌, ◌^◌, pos, ◌-ℤ◌, ◌*ℤ◌, unsigned_abs};
ghost use Rattle.cef_core.specs.Parameters.{power};
ghost use Rattle.cef_term.specs.Bounds.{least_power, greatest_power};
ghost use Rattle.cef_term.specs.Kept.{IsRoomy};

/// The product of two numbers.
#[inline(always)]
fn product(a: i64, b: i64) -> i64
    requires { unsigned_abs (a *ℤ b) ≤ 2 ^ 62 }
    ensures { result ≡ a *ℤ b }
{
    a * b
}

/// The difference of two counts.
#[inline(always)]
pub fn difference(a: u16, b: u16) -> i64
    ensures { result ≡ pos a -ℤ pos b }
{
    i64::from(a) - i64::from(b)
}

/// A power of a base whose magnitude has room.
#[inline(always)]
pub fn power_of(base: i64, order: u8) -> i64
    requires { IsRoomy base order }
    ensures { result ≡ power base order }
{
    let mut total = 1;
    'steps: for step in 0..order {
        total = product(base, total);
    }
    total
}

/// The least power of a base from low to high.
#[inline(always)]
#[tactic(auto, using(crate::proofs::Ends::least_power_rules))]
pub fn least_power_of(low: i64, high: i64, order: u8) -> i64
    requires low_room { IsRoomy low order }
    requires high_room { IsRoomy high order }
    ensures { result ≡ least_power low high order }
{
    if order == 0 {
        1
    } else if order % 2 == 1 {
        power_of(low, order)
    } else if low >= 0 {
        power_of(low, order).min(power_of(high, order))
    } else if high < 0 {
        power_of(low, order).min(power_of(high, order))
    } else {
        0
    }
}

/// The greatest power of a base from low to high.
#[inline(always)]
#[tactic(auto, using(crate::proofs::Ends::greatest_power_rules))]
pub fn greatest_power_of(low: i64, high: i64, order: u8) -> i64
    requires low_room { IsRoomy low order }
    requires high_room { IsRoomy high order }
    ensures { result ≡ greatest_power low high order }
{
    if order == 0 {
        1
    } else if order % 2 == 1 {
        power_of(high, order)
    } else {
        power_of(low, order).max(power_of(high, order))
    }
}
