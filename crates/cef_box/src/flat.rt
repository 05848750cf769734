//! The rows of ranges of a box, one behind the other, with the place behind each.

ghost use Rattle.std.specs.Prelude.{◌≡◌, ◌<◌, length};
ghost use Rattle.std.specs.Bool.{OnTrue, OnFalse};
ghost use Rattle.cef_box.specs.Boxes.{IsMember};
ghost use Rattle.cef_box.specs.Cuts.{placed_in};
ghost use Rattle.cef_box.specs.Flat.{rows_of, AreFlat};
ghost use Rattle.cef_box.specs.Tight.{HasSite, IsTightBox, tightened_box};
ghost use Rattle.cef_core.specs.Sublattices.{parts_of};

use crate::range::Range;
use crate::row::{is_in_row, place};
use crate::tight_row::{has_list, tighten_row};

/// Whether the counts are a member of the box.
#[tactic(auto, using(crate::proofs::Flats::splitting, crate::proofs::Flats::joining))]
pub fn is_member(n: u32, from: u16, ends: &[u16], low: &[u16], high: &[u16], counts: &[u16]) -> bool
    requires flat { AreFlat from ends.now low.now high.now }
    requires same { length counts.now ≡ length low.now }
    ensures yes { OnTrue result (IsMember n (rows_of from ends.now low.now high.now) (parts_of from ends.now counts.now)) }
    ensures no { OnFalse result (IsMember n (rows_of from ends.now low.now high.now) (parts_of from ends.now counts.now) → ⊥) }
{
    match ends.split_first() {
        None => true,
        Some((end, rest)) => {
            let count = usize::from(*end - from);
            let (low_row, low_rest) = low.split_at(count);
            let (high_row, high_rest) = high.split_at(count);
            let (row, counts_rest) = counts.split_at(count);
            if is_in_row(n, low_row, high_row, row) {
                is_member(n, *end, rest, low_rest, high_rest, counts_rest)
            } else {
                false
            }
        }
    }
}

/// Whether each sublattice has a list.
#[tactic(auto, using(crate::proofs::Flats::splitting))]
pub fn have_lists(n: u32, from: u16, ends: &[u16], low: &[u16], high: &[u16]) -> bool
    requires flat { AreFlat from ends.now low.now high.now }
    ensures yes { OnTrue result (HasSite n (rows_of from ends.now low.now high.now)) }
    ensures no { OnFalse result (HasSite n (rows_of from ends.now low.now high.now) → ⊥) }
{
    match ends.split_first() {
        None => true,
        Some((end, rest)) => {
            let count = usize::from(*end - from);
            let (low_row, low_rest) = low.split_at(count);
            let (high_row, high_rest) = high.split_at(count);
            if has_list(n, low_row, high_row) {
                have_lists(n, *end, rest, low_rest, high_rest)
            } else {
                false
            }
        }
    }
}

/// Each range becomes the values that the box's members take there.
#[tactic(auto, using(crate::proofs::Flats::splitting))]
pub fn tighten_rows(n: u32, from: u16, ends: &[u16], low: &mut [u16], high: &mut [u16])
    requires flat { AreFlat from ends.now low.old high.old }
    requires has_site { HasSite n (rows_of from ends.now low.old high.old) }
    ensures exact { rows_of from ends.now low.new high.new ≡ tightened_box n (rows_of from ends.now low.old high.old) }
    ensures low_length { length low.new ≡ length low.old }
    ensures high_length { length high.new ≡ length high.old }
{
    match ends.split_first() {
        None => (),
        Some((end, rest)) => {
            let count = usize::from(*end - from);
            let (low_row, low_rest) = low.split_at_mut(count);
            let (high_row, high_rest) = high.split_at_mut(count);
            tighten_row(n, low_row, high_row);
            tighten_rows(n, *end, rest, low_rest, high_rest);
        }
    }
}

/// The box with another range at a place, tightened. The other rows are tight already.
#[tactic(auto, using(crate::proofs::Flats::splitting, crate::proofs::Flats::joining, crate::proofs::Placing::placing_in))]
pub fn place_in(
    n: u32,
    at: usize,
    other: Range,
    from: u16,
    ends: &[u16],
    low: &mut [u16],
    high: &mut [u16],
)
    requires flat { AreFlat from ends.now low.old high.old }
    requires within { at < length low.old }
    requires tight { IsTightBox n (rows_of from ends.now low.old high.old) }
    requires has_site { HasSite n (rows_of from ends.now low.old high.old) }
    requires placed_has { HasSite n (placed_in at other (rows_of from ends.now low.old high.old)) }
    ensures exact { rows_of from ends.now low.new high.new ≡ tightened_box n (placed_in at other (rows_of from ends.now low.old high.old)) }
    ensures low_length { length low.new ≡ length low.old }
    ensures high_length { length high.new ≡ length high.old }
{
    match ends.split_first() {
        None => (),
        Some((end, rest)) => {
            let count = usize::from(*end - from);
            let (low_row, low_rest) = low.split_at_mut(count);
            let (high_row, high_rest) = high.split_at_mut(count);
            if at < count {
                place(at, other, low_row, high_row);
                tighten_row(n, low_row, high_row);
            } else {
                place_in(n, at - count, other, *end, rest, low_rest, high_rest);
            }
        }
    }
}
