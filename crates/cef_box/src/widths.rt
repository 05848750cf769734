//! The widest range of a box.

ghost use Rattle.std.specs.Prelude.{◌≡◌, ◌<◌, ◌-◌, IfSome, IfNone, [], length};
ghost use Rattle.std.specs.Bool.{OnTrue, OnFalse};
ghost use Rattle.cef_core.specs.Shapes.{places};
ghost use Rattle.cef_box.specs.Boxes.{IsSingle};
ghost use Rattle.cef_box.specs.Cuts.{IsWidest, IsWidestInRow};
ghost use Rattle.cef_box.specs.Flat.{ranges};

use crate::box_range::BoxRange;
use crate::range::Range;

/// The first of the widest ranges of a box, with its place. Places count on over the sublattices.
#[derive(Clone, Copy, Debug, PartialEq, Eq)]
pub struct Widest {
    pub place: usize,
    pub range: Range,
}

fn width(range: Range) -> u16
    ensures { result ≡ range.high - range.low }
{
    range.high.saturating_sub(range.low)
}

/// The first of the widest ranges of a row.
#[tactic(auto, using(crate::proofs::Wide::wide_rows))]
fn widest_in(low: &[u16], high: &[u16]) -> Option<Widest>
    requires { length low.now ≡ length high.now }
    ensures found { IfSome result (λ w. IsWidestInRow (ranges low.now high.now) w.place w.range) }
    ensures within { IfSome result (λ w. w.place < length low.now) }
    ensures none { IfNone result (low.now ≡ []) }
{
    match low.split_first() {
        None => None,
        Some((first_low, rest_low)) => match high.split_first() {
            None => None,
            Some((first_high, rest_high)) => {
                let range = Range {
                    low: *first_low,
                    high: *first_high,
                };
                match widest_in(rest_low, rest_high) {
                    None => Some(Widest { place: 0, range }),
                    Some(other) => {
                        if width(other.range) <= width(range) {
                            Some(Widest { place: 0, range })
                        } else {
                            Some(Widest {
                                place: other.place + 1,
                                range: other.range,
                            })
                        }
                    }
                }
            }
        },
    }
}

impl BoxRange {
    /// The first of the widest ranges. There is none exactly where the box has no place.
    #[tactic(auto, using(crate::proofs::Wide::wide_boxes))]
    pub fn widest(&self) -> Option<Widest>
        ensures found { IfSome result (λ w. IsWidest self.now w.place w.range) }
        ensures none { IfNone result (places self.now ≡ 0) }
    {
        let flat = self.flat();
        widest_in(flat.low, flat.high)
    }

    /// Whether each low is its high, so that the box has one member at most.
    pub fn is_single(&self) -> bool
        ensures yes { OnTrue result (IsSingle self.now) }
        ensures no { OnFalse result (IsSingle self.now → ⊥) }
    {
        self.lows() == self.highs()
    }
}
