ghost use Rattle.std.specs.Prelude.{◌≡◌, ℕ, ◌*◌, ◌<◌, ◌≤◌, ◌^◌, length, pos, ◌+ℤ◌, ◌-ℤ◌, ◌*ℤ◌, ◌≤ℤ◌, ◌<ℤ◌, FitsSigned, unsigned_abs};
ghost use Rattle.std.specs.Int.{w128};
ghost use Rattle.cal_math.specs.Vectors.{at, dot};
ghost use Rattle.lp_basis.specs.Rows.{FitsProduct};
ghost use Rattle.lp_stage.specs.Leaving.{amounts_at};
ghost use Rattle.lp_core.specs.Plans.{column_cost, cost_of};
ghost use Rattle.eq_solve.specs.Figures.{AreAmounts, AreClose, AreWithin, IsGreatest, left_at, left_of};

use cal_whole::{floor_quotient, minus, plus, times};
use lp_basis::product;
use lp_core::Column;

/// What a unit of the column costs.
fn cost_at(columns: &[Column], place: usize) -> i128
    requires { place < length columns.now }
    ensures { result ≡ column_cost columns.now place }
{
    let column = &columns[place];
    column.cost
}

/// The energy of amounts, in fJ.
pub(crate) fn energy_of(columns: &[Column], asked: &[i128], amounts: &[(usize, i128)]) -> i128
    requires amounts { AreAmounts columns.now asked.now amounts.now }
    requires few { length amounts.now ≤ 8 }
    ensures { result ≡ cost_of columns.now amounts.now }
{
    match amounts.split_first() {
        None => 0,
        Some((first, rest)) => {
            let behind = energy_of(columns, asked, rest);
            let cost = cost_at(columns, first.0);
            let one = times(first.1, cost);
            plus(one, behind)
        }
    }
}

/// The value of the column under the potentials.
fn value_at(columns: &[Column], potentials: &[i128], place: usize) -> i128
    requires place { place < length columns.now }
    requires fits { (m : ℕ) × (w : ℕ) × FitsProduct m w potentials.now (amounts_at columns.now place) }
    ensures { result ≡ dot (length potentials.now) (at potentials.now) (at (amounts_at columns.now place)) }
{
    let column = &columns[place];
    product(potentials, &column.amounts)
}

/// What the plane leaves of a column: 2^16 times its energy less its value.
fn left_by(columns: &[Column], potentials: &[i128], place: usize) -> i128
    requires place { place < length columns.now }
    requires fits { (m : ℕ) × (w : ℕ) × FitsProduct m w potentials.now (amounts_at columns.now place) }
    requires cost { unsigned_abs (column_cost columns.now place) ≤ 2 ^ 55 }
    requires small { FitsSigned w128 (left_at potentials.now columns.now place) }
    ensures { result ≡ left_at potentials.now columns.now place }
{
    let cost = cost_at(columns, place);
    let scaled = times(65536, cost);
    let value = value_at(columns, potentials, place);
    minus(scaled, value)
}

/// What the plane leaves of amounts: 2^16 times their energy less the value of their totals, added entry by entry.
pub(crate) fn left_in(
    columns: &[Column],
    asked: &[i128],
    potentials: &[i128],
    amounts: &[(usize, i128)],
) -> i128
    requires { (margin : ℕ) × AreClose margin columns.now asked.now potentials.now amounts.now }
    ensures { result ≡ left_of potentials.now columns.now amounts.now }
{
    match amounts.split_first() {
        None => 0,
        Some((first, rest)) => {
            let behind = left_in(columns, asked, potentials, rest);
            let left = left_by(columns, potentials, first.0);
            let one = times(first.1, left);
            plus(one, behind)
        }
    }
}

/// The least gap that the plane allows, in fJ.
pub(crate) fn gap_of(left: i128) -> i128
    requires low { pos 0 ≤ℤ left }
    requires high { left ≤ℤ pos (2 ^ 112) }
    ensures allowed { left ≤ℤ (pos 65536 *ℤ result) }
    ensures least { (pos 65536 *ℤ result) <ℤ (left +ℤ pos 65536) }
{
    floor_quotient(left + 65535, 65536)
}

/// The greatest difference of a total from what is asked.
pub(crate) fn tolerance_of(asked: &[i128], totals: &[i128]) -> i128
    requires some { 0 < length asked.now }
    requires within { AreWithin asked.now totals.now }
    ensures { IsGreatest (length asked.now) (λ c. at asked.now c -ℤ at totals.now c) result }
{
    let mut greatest = minus(asked[0], totals[0]);
    'components: for c in 1..asked.len() {
        let here = minus(asked[c], totals[c]);
        if here > greatest {
            greatest = here;
        }
    }
    greatest
}
