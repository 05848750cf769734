//! The slopes of the places of a product.

ghost use Rattle.std.specs.Prelude.{◌≡◌, ℕ, ◌+◌, ◌*◌, ◌^◌, ◌<◌, ◌≤◌, ◌+ℤ◌, ◌*ℤ◌, length, pos, slice_index, slice_index_or, unsigned_abs};
ghost use Rattle.std.specs.List.{AllByRecursion};
ghost use Rattle.cef_minor.specs.Kept.{IsFrame, low_of};
ghost use Rattle.cef_minor.specs.Slopes.{rise_of, site_slope, slope_of, slopes_behind};

use crate::frame::Frame;
use crate::product::product_in;
use crate::raise::raise;
use crate::slope::slope_from;

/// Slope times low, and what the later places give.
#[tactic(auto, using(crate::proofs::Rooms::part_rules))]
fn with_part(slope: i128, low: u16, rest: i128) -> i128
    requires slope { unsigned_abs slope ≤ 2 ^ 72 }
    requires rest { unsigned_abs rest ≤ 2 ^ 100 }
    ensures exact { result ≡ slope *ℤ pos low +ℤ rest }
    ensures size { unsigned_abs result ≤ unsigned_abs rest + 2 ^ 88 }
{
    slope * i128::from(low) + rest
}

/// Adds the slopes of the places of a product, behind earlier places whose counts have the product `before`,
/// and answers the sum over the places of slope times low.
#[tactic(auto, using(crate::proofs::Rooms::places_rules))]
pub fn raise_behind(
    frame: Frame<'_>,
    weight: i128,
    earlier: &[u16],
    before: u128,
    sites: &[u16],
    slopes: &mut [i128],
) -> i128
    requires frame { IsFrame frame (length slopes.old) }
    requires earlier_length { length earlier.now ≡ length slopes.old }
    requires earlier_small { (i : ℕ) → slice_index earlier.now i ≤ frame.parts }
    requires within { AllByRecursion (λ site. site < length slopes.old) sites.now }
    requires few { length sites.now ≤ 22 }
    requires power { frame.parts ^ length sites.now ≤ 2 ^ 100 }
    requires small { before * frame.parts ^ length sites.now ≤ 2 ^ 70 }
    requires weight { unsigned_abs weight * (before * frame.parts ^ length sites.now) ≤ 2 ^ 55 * frame.den }
    requires room { (i : ℕ) → unsigned_abs (slice_index_or slopes.old i (pos 0)) + length sites.now * 2 ^ 72 ≤ 2 ^ 125 }
    ensures exact { (i : ℕ) → slice_index_or slopes.new i (pos 0) ≡ slice_index_or slopes.old i (pos 0) +ℤ site_slope (slopes_behind (slope_of weight frame.entry.den) (λ s. slice_index earlier.now s) (low_of frame.entry) before sites.now) i }
    ensures lows { result ≡ rise_of (λ s. pos (low_of frame.entry s)) (slopes_behind (slope_of weight frame.entry.den) (λ s. slice_index earlier.now s) (low_of frame.entry) before sites.now) }
    ensures size { unsigned_abs result ≤ length sites.now * 2 ^ 88 }
    ensures growth { (i : ℕ) → unsigned_abs (slice_index_or slopes.new i (pos 0)) ≤ unsigned_abs (slice_index_or slopes.old i (pos 0)) + length sites.now * 2 ^ 72 }
{
    match sites.split_first() {
        None => 0,
        Some((site, later)) => {
            let z = before * product_in(frame.parts, frame.low, later);
            let slope = slope_from(weight, z, frame.den);
            raise(*site, slope, slopes);
            let next = before * u128::from(earlier[usize::from(*site)]);
            let rest = raise_behind(frame, weight, earlier, next, later, slopes);
            with_part(slope, frame.low[usize::from(*site)], rest)
        }
    }
}
