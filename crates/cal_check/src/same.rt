//! Whether two lists are the same.

ghost use Rattle.std.specs.Prelude.{◌≡◌};
ghost use Rattle.std.specs.Bool.{OnTrue, OnFalse};

use cal_scan::Name;

/// Whether the names are the same, in order.
pub(crate) fn are_same_names(names: &[Name], others: &[Name]) -> bool
    ensures yes { OnTrue result (names.now ≡ others.now) }
    ensures no { OnFalse result (names.now ≡ others.now → ⊥) }
{
    match names.split_first() {
        None => others.is_empty(),
        Some((name, names)) => match others.split_first() {
            None => false,
            Some((other, others)) => {
                if *name == *other {
                    are_same_names(names, others)
                } else {
                    false
                }
            }
        },
    }
}

/// Whether the numbers are the same, in order.
pub(crate) fn are_same_numbers(numbers: &[i128], others: &[i128]) -> bool
    ensures yes { OnTrue result (numbers.now ≡ others.now) }
    ensures no { OnFalse result (numbers.now ≡ others.now → ⊥) }
{
    match numbers.split_first() {
        None => others.is_empty(),
        Some((number, numbers)) => match others.split_first() {
            None => false,
            Some((other, others)) => {
                if *number == *other {
                    are_same_numbers(numbers, others)
                } else {
                    false
                }
            }
        },
    }
}
