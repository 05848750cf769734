//! The ranges of one sublattice, tightened, as a slice of lows and a slice of highs.

ghost use Rattle.std.specs.Prelude.{◌≡◌, ◌≤◌, ◌<◌, ◌^◌, length};
ghost use Rattle.std.specs.Bool.{OnTrue, OnFalse};
ghost use Rattle.cef_box.specs.Flat.{ranges};
ghost use Rattle.cef_box.specs.Tight.{lows, highs, tight_range, tightened_by, tightened, IsOrdered, HasList};

use crate::range::Range;
use cef_core::sum_of;

/// Whether no low is above its high.
fn is_ordered(low: &[u16], high: &[u16]) -> bool
    ensures yes { OnTrue result (IsOrdered (ranges low.now high.now)) }
    ensures no { OnFalse result (IsOrdered (ranges low.now high.now) → ⊥) }
{
    match low.split_first() {
        None => true,
        Some((first_low, rest_low)) => match high.split_first() {
            None => true,
            Some((first_high, rest_high)) => {
                if first_low <= first_high {
                    is_ordered(rest_low, rest_high)
                } else {
                    false
                }
            }
        },
    }
}

/// Whether the row has a list.
#[tactic(auto, using(crate::proofs::Placing::sums))]
pub fn has_list(n: u32, low: &[u16], high: &[u16]) -> bool
    requires short { length low.now < 2 ^ 16 }
    requires each { length low.now ≡ length high.now }
    ensures yes { OnTrue result (HasList n (ranges low.now high.now)) }
    ensures no { OnFalse result (HasList n (ranges low.now high.now) → ⊥) }
{
    let ordered = is_ordered(low, high);
    let low_sum = sum_of(low);
    let high_sum = sum_of(high);
    if ordered {
        if low_sum <= n { n <= high_sum } else { false }
    } else {
        false
    }
}

/// The values of a range that lists of its row take, where the lows and the highs of the row have these sums.
fn tight(n: u32, low_sum: u32, high_sum: u32, range: Range) -> Range
    requires low { range.low ≤ low_sum }
    requires high { range.high ≤ high_sum }
    requires not_below { n ≤ high_sum }
    ensures { result ≡ tight_range n low_sum high_sum range }
{
    let others_high = high_sum - u32::from(range.high);
    let others_low = low_sum - u32::from(range.low);
    let least = n.saturating_sub(others_high) as u16;
    let most = n.saturating_sub(others_low).min(u32::from(range.high)) as u16;
    Range {
        low: range.low.max(least),
        high: most,
    }
}

fn tighten_by(n: u32, low_sum: u32, high_sum: u32, low: &mut [u16], high: &mut [u16])
    requires lows { lows (ranges low.old high.old) ≤ low_sum }
    requires highs { highs (ranges low.old high.old) ≤ high_sum }
    requires not_below { n ≤ high_sum }
    ensures exact { ranges low.new high.new ≡ tightened_by n low_sum high_sum (ranges low.old high.old) }
    ensures low_length { length low.new ≡ length low.old }
    ensures high_length { length high.new ≡ length high.old }
{
    match low.split_first_mut() {
        None => (),
        Some((first_low, rest_low)) => match high.split_first_mut() {
            None => (),
            Some((first_high, rest_high)) => {
                let next = tight(
                    n,
                    low_sum,
                    high_sum,
                    Range {
                        low: *first_low,
                        high: *first_high,
                    },
                );
                *first_low = next.low;
                *first_high = next.high;
                tighten_by(n, low_sum, high_sum, rest_low, rest_high);
            }
        },
    }
}

/// Each range becomes the values that the row's lists take there.
#[tactic(auto, using(crate::proofs::Placing::sums))]
pub fn tighten_row(n: u32, low: &mut [u16], high: &mut [u16])
    requires short { length low.old < 2 ^ 16 }
    requires each { length low.old ≡ length high.old }
    requires has_list { HasList n (ranges low.old high.old) }
    ensures exact { ranges low.new high.new ≡ tightened n (ranges low.old high.old) }
    ensures low_length { length low.new ≡ length low.old }
    ensures high_length { length high.new ≡ length high.old }
{
    let low_sum = sum_of(low);
    let high_sum = sum_of(high);
    tighten_by(n, low_sum, high_sum, low, high);
}
