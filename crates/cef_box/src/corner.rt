//! The corner point of a box.

ghost use Rattle.std.specs.Prelude.{◌≡◌, ◌≤◌, ◌<◌, ◌+◌, ◌^◌, ◌++◌, length, take, drop};
ghost use Rattle.std.specs.List.{concat};
ghost use Rattle.cef_core.specs.Constitutions.{HasShape};
ghost use Rattle.cef_core.specs.Shapes.{shape};
ghost use Rattle.cef_box.specs.Boxes.{IsMember};
ghost use Rattle.cef_box.specs.Corners.{raised, corner, corner_site};
ghost use Rattle.cef_box.specs.Flat.{ranges, rows_of, AreFlat};
ghost use Rattle.cef_box.specs.Tight.{HasList, HasSite, IsOrdered};

use crate::box_range::BoxRange;
use cef_core::{PhaseAt, Site, sum_of};

/// From a place on, counts become the lows of a row, raised in order until the spare counts are spent.
#[tactic(auto, using(crate::proofs::Raised::raising))]
fn raise(spare: u32, at: usize, low: &[u16], high: &[u16], out: &mut Site)
    requires ordered { IsOrdered (ranges low.now high.now) }
    requires each { length low.now ≡ length high.now }
    requires within { at + length low.now ≤ length (concat out.old) }
    requires small { at + length low.now < 2 ^ 16 }
    ensures counts { concat out.new ≡ take at (concat out.old) ++ (raised spare (ranges low.now high.now) ++ drop (at + length low.now) (concat out.old)) }
    ensures size { length (concat out.new) ≡ length (concat out.old) }
    ensures shaped { shape out.new ≡ shape out.old }
{
    match low.split_first() {
        None => (),
        Some((first_low, rest_low)) => match high.split_first() {
            None => (),
            Some((first_high, rest_high)) => {
                let more = u32::from(*first_high - *first_low).min(spare);
                out.set_count(at, *first_low + more as u16);
                raise(spare - more, at + 1, rest_low, rest_high, out);
            }
        },
    }
}

/// From a place on, counts become the lows of a row, raised in order until they add to n.
#[tactic(auto, using(crate::proofs::Placing::sums))]
fn corner_from(n: u32, at: usize, low: &[u16], high: &[u16], out: &mut Site)
    requires has_list { HasList n (ranges low.now high.now) }
    requires each { length low.now ≡ length high.now }
    requires within { at + length low.now ≤ length (concat out.old) }
    requires small { at + length low.now < 2 ^ 16 }
    ensures counts { concat out.new ≡ take at (concat out.old) ++ (corner n (ranges low.now high.now) ++ drop (at + length low.now) (concat out.old)) }
    ensures size { length (concat out.new) ≡ length (concat out.old) }
    ensures shaped { shape out.new ≡ shape out.old }
{
    let low_sum = sum_of(low);
    raise(n - low_sum, at, low, high, out);
}

/// From a place on, all counts become the lows, raised in order in each row until the row's counts add to n.
#[tactic(auto, using(crate::proofs::Flats::splitting, crate::proofs::Flats::joining, crate::proofs::Raised::cornering))]
fn corner_in(n: u32, from: u16, ends: &[u16], low: &[u16], high: &[u16], out: &mut Site)
    requires flat { AreFlat from ends.now low.now high.now }
    requires has_site { HasSite n (rows_of from ends.now low.now high.now) }
    requires within { from + length low.now ≡ length (concat out.old) }
    ensures counts { concat out.new ≡ take from (concat out.old) ++ concat (corner_site n (rows_of from ends.now low.now high.now)) }
    ensures shaped { shape out.new ≡ shape out.old }
{
    match ends.split_first() {
        None => (),
        Some((end, rest)) => {
            let count = usize::from(*end - from);
            let (low_row, low_rest) = low.split_at(count);
            let (high_row, high_rest) = high.split_at(count);
            corner_from(n, usize::from(from), low_row, high_row, out);
            corner_in(n, *end, rest, low_rest, high_rest, out);
        }
    }
}

/// All lows, raised in each sublattice from the first site on until the counts add to N. It is a member of the box.
#[tactic(auto, using(crate::proofs::Raised::cornered, crate::proofs::Tightened::members))]
pub fn corner_point(phase: &PhaseAt, range: &BoxRange, out: &mut Site)
    requires has_site { HasSite phase.now.lattice range.now }
    requires shape { shape out.old ≡ shape range.now }
    ensures exact { out.new ≡ corner_site phase.now.lattice range.now }
    ensures in_box { IsMember phase.now.lattice range.now out.new }
    ensures shaped { shape out.new ≡ shape out.old }
    ensures of_phase { shape range.now ≡ shape phase.now.sites → HasShape phase.now.lattice phase.now.sites out.new }
{
    let flat = range.flat();
    corner_in(phase.lattice, 0, flat.ends, flat.low, flat.high, out);
}
