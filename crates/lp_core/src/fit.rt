ghost use Rattle.std.specs.Prelude.{ℕ, ◌≤◌, ◌^◌, length, MatchOption};
ghost use Rattle.std.specs.Bool.{OnTrue, OnFalse};
ghost use Rattle.lp_core.specs.Fitting.{IsTarget, IsMeasured, IsExtent, HasRoom, Fits};

use lp_basis::{Column, sum_of};

/// The greatest sum of a column, and the greatest magnitude of a cost.
#[derive(Clone, Copy)]
struct Extent {
    width: u128,
    cost: u128,
}

/// Whether these are 1 to 8 amounts from 0 to 2^50, not all 0.
fn is_target(target: &[i128]) -> bool
    ensures yes { OnTrue result (IsTarget target.now) }
    ensures no { OnFalse result (IsTarget target.now → ⊥) }
{
    if target.len() > 8 {
        return false;
    }
    let mut positive = false;
    'amounts: for c in 0..target.len() {
        if target[c] < 0 {
            return false;
        }
        if target[c] > 1 << 50 {
            return false;
        }
        if target[c] > 0 {
            positive = true;
        }
    }
    positive
}

/// What the amounts of a column add to: `None` where it is no column of `size` amounts or the sum is above 2^62.
fn measured(column: &Column, size: usize) -> Option<u128>
    ensures { MatchOption result ((sum : ℕ) → IsMeasured size column.now sum →
        ⊥) (IsMeasured size column.now) }
{
    if column.amounts.len() != size {
        return None;
    }
    if column.cost.unsigned_abs() > 1 << 55 {
        return None;
    }
    let found = sum_of(&column.amounts);
    match found {
        None => None,
        Some(sum) => { if sum == 0 { None } else { Some(sum) } }
    }
}

/// How wide and how dear the columns are: `None` where one is no column of `size` amounts or has a sum above 2^62.
fn extent_of(columns: &[Column], size: usize) -> Option<Extent>
    ensures { MatchOption result ((w s : ℕ) → IsExtent size columns.now w s →
        ⊥) (λ e. IsExtent size columns.now e.width e.cost) }
{
    let mut width = 1;
    let mut cost = 0;
    'columns: for i in 0..columns.len() {
        let column = &columns[i];
        let found = measured(column, size);
        match found {
            None => return None,
            Some(sum) => {
                width = sum.max(width);
                cost = column.cost.unsigned_abs().max(cost);
            }
        }
    }
    Some(Extent { width, cost })
}

/// Whether `width^size` is at most 2^62, and with `cost` at most 2^94.
fn has_room(width: u128, cost: u128, size: usize) -> bool
    requires width { 1 ≤ width }
    requires width_room { width ≤ 2 ^ 62 }
    requires cost_room { cost ≤ 2 ^ 55 }
    ensures yes { OnTrue result (HasRoom size width cost) }
    ensures no { OnFalse result (HasRoom size width cost → ⊥) }
{
    let mut power = 1;
    'power: for _k in 0..size {
        power *= width;
        if power > 1 << 62 {
            return false;
        }
    }
    power * cost <= 1 << 94
}

/// Whether `solve` takes the columns and the target: 1 to 8 components; every column has that length, amounts of at least 0, not all 0,
/// and a cost of at most 2^55 in magnitude; with w the greatest sum of a column and s the greatest magnitude of a cost, `w^C` is at most
/// 2^62 and `w^C * s` at most 2^94; amounts of the target from 0 to 2^50, one of them above 0.
pub fn fits(columns: &[Column], target: &[i128]) -> bool
    ensures yes { OnTrue result (Fits columns.now target.now) }
    ensures no { OnFalse result (Fits columns.now target.now → ⊥) }
{
    if !is_target(target) {
        return false;
    }
    let found = extent_of(columns, target.len());
    match found {
        None => false,
        Some(extent) => has_room(extent.width, extent.cost, target.len()),
    }
}
