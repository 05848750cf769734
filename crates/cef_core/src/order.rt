ghost use Rattle.std.specs.Bool.{OnTrue, OnFalse};
ghost use Rattle.std.specs.List.{concat};
ghost use Rattle.cef_core.specs.Order.{AreLess};

use crate::site::Site;

/// Whether the first count that differs is less in the first site.
pub fn is_less(first: &Site, second: &Site) -> bool
    ensures yes { OnTrue result (AreLess (concat first.now) (concat second.now)) }
    ensures no { OnFalse result (AreLess (concat first.now) (concat second.now) → ⊥) }
{
    are_less(first.counts(), second.counts())
}

fn are_less(first: &[u16], second: &[u16]) -> bool
    ensures yes { OnTrue result (AreLess first.now second.now) }
    ensures no { OnFalse result (AreLess first.now second.now → ⊥) }
{
    match first.split_first() {
        None => false,
        Some((count, counts)) => match second.split_first() {
            None => false,
            Some((other, others)) => {
                if count < other {
                    true
                } else if count == other {
                    are_less(counts, others)
                } else {
                    false
                }
            }
        },
    }
}
