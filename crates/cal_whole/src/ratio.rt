ghost use Rattle.std.specs.Prelude.{◌*◌, ◌<◌, pos, ◌*ℤ◌, ◌≤ℤ◌};
ghost use Rattle.cal_whole.specs.Ratios.{IsOrdered, IsOrderedSigned};

use crate::floor::{floor_quotient, floor_rest};
use std::cmp::Ordering;

/// How a / b stands to c / d, with no product formed.
pub fn compare_ratios(a: u128, b: u128, c: u128, d: u128) -> Ordering
    requires first { 0 < b }
    requires second { 0 < d }
    ensures { IsOrdered result (a * d) (c * b) }
{
    let left = a / b;
    let right = c / d;
    if left < right {
        Ordering::Less
    } else if right < left {
        Ordering::Greater
    } else {
        let below = a % b;
        let above = c % d;
        if above == 0 {
            if below == 0 {
                Ordering::Equal
            } else {
                Ordering::Greater
            }
        } else if below == 0 {
            Ordering::Less
        } else {
            compare_ratios(d, above, b, below)
        }
    }
}

/// How a / b stands to c / d, for b and d above 0, with no product formed.
pub fn compare_signed_ratios(a: i128, b: i128, c: i128, d: i128) -> Ordering
    requires first { pos 1 ≤ℤ b }
    requires second { pos 1 ≤ℤ d }
    ensures { IsOrderedSigned result (a *ℤ d) (c *ℤ b) }
{
    let left = floor_quotient(a, b);
    let right = floor_quotient(c, d);
    if left < right {
        Ordering::Less
    } else if right < left {
        Ordering::Greater
    } else {
        compare_ratios(floor_rest(a, b), b as u128, floor_rest(c, d), d as u128)
    }
}
