ghost use Rattle.std.specs.Prelude.{ℕ, length, MatchOption, All};
ghost use Rattle.std.specs.Bool.{OnTrue, OnFalse};
ghost use Rattle.cal_math.specs.Vectors.{at};
ghost use Rattle.lp_stage.specs.Pricing.{IsCheap, IsDear, FitsPrice, IsEntering};

use crate::phase::{Phase, cost_of};
use cal_whole::times;
use lp_basis::{Column, product};

/// Whether the column costs less than the potentials ask for it.
fn is_cheap(column: &Column, phase: Phase, numbers: &[i128], denominator: u128) -> bool
    requires { (m : ℕ) × (w : ℕ) × FitsPrice m w numbers.now denominator column.now }
    ensures yes { OnTrue result (IsCheap (length numbers.now) phase (at numbers.now) denominator column.now) }
    ensures no { OnFalse result (IsDear (length numbers.now) phase (at numbers.now) denominator column.now) }
{
    let price = product(numbers, &column.amounts);
    let cost = times(denominator as i128, cost_of(phase, column));
    cost < price
}

/// The first column that costs less than the potentials ask for it: `None` where there is none.
pub fn entering(
    columns: &[Column],
    phase: Phase,
    numbers: &[i128],
    denominator: u128,
) -> Option<usize>
    requires { (m : ℕ) × (w : ℕ) × All (FitsPrice m w numbers.now denominator) columns.now }
    ensures { MatchOption result
        (All (IsDear (length numbers.now) phase (at numbers.now) denominator) columns.now)
        (IsEntering (length numbers.now) phase (at numbers.now) denominator columns.now) }
{
    'columns: for k in 0..columns.len() {
        let column = &columns[k];
        if is_cheap(column, phase, numbers, denominator) {
            return Some(k);
        }
    }
    None
}
