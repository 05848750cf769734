//! The counts of one sublattice and their ranges, as slices.

ghost use Rattle.std.specs.Prelude.{◌≡◌, ◌<◌, ◌^◌, length};
ghost use Rattle.std.specs.Bool.{OnTrue, OnFalse};
ghost use Rattle.cef_box.specs.Boxes.{IsInRow, AllWithin};
ghost use Rattle.cef_box.specs.Cuts.{placed};
ghost use Rattle.cef_box.specs.Flat.{ranges};

use crate::range::Range;
use cef_core::sum_of;

/// Whether each count lies from its low to its high.
fn are_within(low: &[u16], high: &[u16], counts: &[u16]) -> bool
    requires same { length low.now ≡ length high.now }
    ensures yes { OnTrue result (AllWithin (ranges low.now high.now) counts.now) }
    ensures no { OnFalse result (AllWithin (ranges low.now high.now) counts.now → ⊥) }
{
    match low.split_first() {
        None => counts.len() == 0,
        Some((first_low, rest_low)) => match high.split_first() {
            None => false,
            Some((first_high, rest_high)) => match counts.split_first() {
                None => false,
                Some((count, rest)) => {
                    if first_low <= count {
                        if count <= first_high {
                            are_within(rest_low, rest_high, rest)
                        } else {
                            false
                        }
                    } else {
                        false
                    }
                }
            },
        },
    }
}

/// Whether the counts are a list of the row.
pub fn is_in_row(n: u32, low: &[u16], high: &[u16], counts: &[u16]) -> bool
    requires short { length counts.now < 2 ^ 16 }
    requires same { length low.now ≡ length high.now }
    ensures yes { OnTrue result (IsInRow n (ranges low.now high.now) counts.now) }
    ensures no { OnFalse result (IsInRow n (ranges low.now high.now) counts.now → ⊥) }
{
    if are_within(low, high, counts) {
        sum_of(counts) == n
    } else {
        false
    }
}

/// The row has another range at a place.
#[tactic(auto, using(crate::proofs::Placing::placing))]
pub fn place(at: usize, other: Range, low: &mut [u16], high: &mut [u16])
    requires low_within { at < length low.old }
    requires high_within { at < length high.old }
    ensures exact { ranges low.new high.new ≡ placed at other (ranges low.old high.old) }
    ensures low_length { length low.new ≡ length low.old }
    ensures high_length { length high.new ≡ length high.old }
{
    low[at] = other.low;
    high[at] = other.high;
}
