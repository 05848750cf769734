//! Floors of products whose quotients fit, though the products times 2^16 may pass 128 bits.

ghost use Rattle.std.specs.Prelude.{◌≡◌, ◌+◌, ◌*◌, ◌/◌, ◌^◌, ◌<◌, ◌≤◌, pos, ◌+ℤ◌, ◌-ℤ◌, ◌*ℤ◌, unsigned_abs};
ghost use Rattle.std.specs.Int.{int_div_euclid};
ghost use Rattle.cef_minor.specs.Slopes.{slope_of};

/// A weight times a product of counts.
#[tactic(auto, using(crate::proofs::Steps::weighted_rules))]
pub fn weighted(weight: i128, z: u128) -> i128
    requires small { z ≤ 2 ^ 70 }
    requires room { unsigned_abs weight * z ≤ 3 * 2 ^ 125 }
    ensures { result ≡ weight *ℤ pos z }
{
    weight * (z as i128)
}

/// The quotient rounded down.
#[tactic(auto, using(crate::proofs::Steps::part_rules))]
pub fn whole_part(a: i128, den: u128) -> i128
    requires some { 1 ≤ den }
    requires high { den ≤ 2 ^ 72 }
    ensures { result ≡ int_div_euclid a (pos den) }
{
    a.div_euclid(den as i128)
}

/// What the quotient rounded down leaves.
#[tactic(auto, using(crate::proofs::Steps::part_rules))]
fn rest_part(a: i128, den: u128) -> u128
    requires some { 1 ≤ den }
    requires high { den ≤ 2 ^ 72 }
    ensures exact { pos result ≡ a -ℤ pos den *ℤ int_div_euclid a (pos den) }
    ensures below { result < den }
{
    a.rem_euclid(den as i128) as u128
}

/// 2^16 times a quotient and a rest, rounded down.
#[tactic(auto, using(crate::proofs::Steps::joined_rules))]
fn joined(whole: i128, rest: u128, den: u128) -> i128
    requires whole { unsigned_abs whole ≤ 2 ^ 55 }
    requires some { 1 ≤ den }
    requires rest { rest < den }
    requires high { den ≤ 2 ^ 72 }
    ensures { result ≡ pos 65536 *ℤ whole +ℤ pos (65536 * rest / den) }
{
    65536 * whole + (65536 * rest / den) as i128
}

/// The slope of a place: floor (2^16 * weight * z / den).
#[tactic(auto, using(crate::proofs::Steps::slope_rules))]
pub fn slope_from(weight: i128, z: u128, den: u128) -> i128
    requires some { 1 ≤ den }
    requires high { den ≤ 3 * 2 ^ 70 }
    requires small { z ≤ 2 ^ 70 }
    requires room { unsigned_abs weight * z ≤ 2 ^ 55 * den }
    ensures exact { result ≡ slope_of weight den z }
    ensures size { unsigned_abs result ≤ 2 ^ 72 }
{
    let product = weighted(weight, z);
    joined(whole_part(product, den), rest_part(product, den), den)
}

/// floor (weight * z / den).
#[tactic(auto, using(crate::proofs::Steps::corner_rules))]
pub fn corner_from(weight: i128, z: u128, den: u128) -> i128
    requires some { 1 ≤ den }
    requires high { den ≤ 3 * 2 ^ 70 }
    requires small { z ≤ 2 ^ 70 }
    requires room { unsigned_abs weight * z ≤ 2 ^ 55 * den }
    ensures exact { result ≡ int_div_euclid (weight *ℤ pos z) (pos den) }
    ensures size { unsigned_abs result ≤ 2 ^ 55 }
{
    let product = weighted(weight, z);
    whole_part(product, den)
}

/// 2^16 times a corner, less what the slopes give at the lows.
#[tactic(auto, using(crate::proofs::Steps::weighted_rules))]
pub fn part_from(corner: i128, falls: i128) -> i128
    requires corner { unsigned_abs corner ≤ 2 ^ 55 }
    requires falls { unsigned_abs falls ≤ 2 ^ 100 }
    ensures exact { result ≡ pos 65536 *ℤ corner -ℤ falls }
    ensures size { unsigned_abs result ≤ 2 ^ 101 }
{
    65536 * corner - falls
}
