//! The slopes of a signed product, and its part of the constant.

ghost use Rattle.std.specs.Prelude.{◌≡◌, ℕ, ◌+◌, ◌*◌, ◌^◌, ◌<◌, ◌≤◌, ◌++◌, ◌∷◌, [], ◌+ℤ◌, ◌-ℤ◌, ◌*ℤ◌, length, pos, slice_index_or, take, unsigned_abs};
ghost use Rattle.std.specs.Int.{int_div_euclid};
ghost use Rattle.std.specs.List.{AllByRecursion};
ghost use Rattle.cef_minor.specs.Kept.{IsFrame, IsProduct, low_of, high_of, part_of};
ghost use Rattle.cef_minor.specs.Products.{product_at, times};
ghost use Rattle.cef_minor.specs.Raised.{AreRaised, AreWithin};
ghost use Rattle.cef_minor.specs.Slopes.{earlier_of, rise_of, site_slope, slope_of, slopes_behind, slopes_of_product};

use crate::frame::Frame;
use crate::places::raise_behind;
use crate::product::product_in;
use crate::slope::{corner_from, part_from};

/// Adds the slopes of a product of this weight to those of its sites, and answers 2^16 times the floor of its value at
/// the lows, less the sum over its places of slope times low.
#[tactic(auto, using(crate::proofs::Rooms::product_rules))]
fn raise_weighted(frame: Frame<'_>, weight: i128, sites: &[u16], slopes: &mut [i128]) -> i128
    requires frame { IsFrame frame (length slopes.old) }
    requires within { AllByRecursion (λ site. site < length slopes.old) sites.now }
    requires few { length sites.now ≤ 22 }
    requires power { frame.parts ^ length sites.now ≤ 2 ^ 70 }
    requires weight { unsigned_abs weight * frame.parts ^ length sites.now ≤ 2 ^ 55 * frame.den }
    requires room { (i : ℕ) → unsigned_abs (slice_index_or slopes.old i (pos 0)) + length sites.now * 2 ^ 72 ≤ 2 ^ 125 }
    ensures exact { (i : ℕ) → slice_index_or slopes.new i (pos 0) ≡ slice_index_or slopes.old i (pos 0) +ℤ site_slope (slopes_behind (slope_of weight frame.entry.den) (earlier_of weight (low_of frame.entry) (high_of frame.entry)) (low_of frame.entry) 1 sites.now) i }
    ensures part { result ≡ pos 65536 *ℤ int_div_euclid (weight *ℤ pos (product_at (low_of frame.entry) sites.now)) (pos frame.entry.den) -ℤ rise_of (λ s. pos (low_of frame.entry s)) (slopes_behind (slope_of weight frame.entry.den) (earlier_of weight (low_of frame.entry) (high_of frame.entry)) (low_of frame.entry) 1 sites.now) }
    ensures size { unsigned_abs result ≤ 2 ^ 101 }
    ensures growth { (i : ℕ) → unsigned_abs (slice_index_or slopes.new i (pos 0)) ≤ unsigned_abs (slice_index_or slopes.old i (pos 0)) + length sites.now * 2 ^ 72 }
{
    let corner = corner_from(weight, product_in(frame.parts, frame.low, sites), frame.den);
    if weight < 0 {
        let falls = raise_behind(frame, weight, frame.high, 1, sites, slopes);
        return part_from(corner, falls);
    }
    let falls = raise_behind(frame, weight, frame.low, 1, sites, slopes);
    part_from(corner, falls)
}

/// A coefficient times the parameter's number.
fn weight_of(micro: i128, coefficient: i128) -> i128
    requires { unsigned_abs (micro *ℤ coefficient) ≤ 3 * 2 ^ 125 }
    ensures { result ≡ micro *ℤ coefficient }
{
    micro * coefficient
}

/// Adds the slopes of a product to those of its sites, and answers its part of the constant.
#[tactic(auto, using(crate::proofs::Rooms::signed_rules))]
pub fn raise_product(
    frame: Frame<'_>,
    coefficient: i128,
    sites: &[u16],
    slopes: &mut [i128],
) -> i128
    requires frame { IsFrame frame (length slopes.old) }
    requires product { IsProduct frame (length slopes.old) coefficient sites.now }
    requires room { AreWithin (2 ^ 110) slopes.old }
    ensures slopes { AreRaised (site_slope (slopes_of_product frame.entry.micro frame.entry.den (low_of frame.entry) (high_of frame.entry) (times coefficient sites.now))) slopes.old slopes.new }
    ensures part { result ≡ part_of frame.entry.micro frame.entry.den (low_of frame.entry) (high_of frame.entry) (times coefficient sites.now) }
    ensures size { unsigned_abs result ≤ 2 ^ 101 }
    ensures growth { (most : ℕ) → AreWithin most slopes.old → AreWithin (most + 2 ^ 80) slopes.new }
{
    raise_weighted(frame, weight_of(frame.micro, coefficient), sites, slopes)
}

/// The same for the first sites of a list and an added one. The list keeps its first sites.
#[tactic(auto, using(crate::proofs::Rooms::added_rules))]
pub fn raise_with(
    frame: Frame<'_>,
    coefficient: i128,
    added: u16,
    sites: &mut [u16],
    count: usize,
    slopes: &mut [i128],
) -> i128
    requires frame { IsFrame frame (length slopes.old) }
    requires count { count < length sites.old }
    requires product { IsProduct frame (length slopes.old) coefficient (take count sites.old ++ added ∷ []) }
    requires room { AreWithin (2 ^ 110) slopes.old }
    ensures slopes { AreRaised (site_slope (slopes_of_product frame.entry.micro frame.entry.den (low_of frame.entry) (high_of frame.entry) (times coefficient (take count sites.old ++ added ∷ [])))) slopes.old slopes.new }
    ensures part { result ≡ part_of frame.entry.micro frame.entry.den (low_of frame.entry) (high_of frame.entry) (times coefficient (take count sites.old ++ added ∷ [])) }
    ensures size { unsigned_abs result ≤ 2 ^ 101 }
    ensures growth { (most : ℕ) → AreWithin most slopes.old → AreWithin (most + 2 ^ 80) slopes.new }
    ensures sites { take count sites.new ≡ take count sites.old }
{
    sites[count] = added;
    let (used, _) = sites.split_at(count + 1);
    raise_product(frame, coefficient, used, slopes)
}
