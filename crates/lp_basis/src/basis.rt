ghost use Rattle.std.specs.Prelude.{◌≡◌, ℕ, suc, ◌+◌, ◌*◌, ◌<◌, ◌≤◌, ◌^◌};
ghost use Rattle.std.specs.Prelude.{length, ℤ, pos, ◌*ℤ◌, ◌+ℤ◌, ◌-ℤ◌, ◌≤ℤ◌, FitsSigned, IfOk, unsigned_abs};
ghost use Rattle.std.specs.Int.{w128};
ghost use Rattle.cal_math.specs.Vectors.{at, dot};
ghost use Rattle.lp_basis.specs.Rows.{FitsProduct, FitsMixed};
ghost use Rattle.lp_basis.specs.Held.{CanEnter, IsPut, IsHeld, CanExchange, IsExchanged};
ghost use Rattle.lp_basis.specs.Steps.{IsNext, Keeps, CanPlace, IsPlaced};

use crate::row::{Row, divided, mixed, product, shared};
use cal_whole::{exact_quotient, times};
use std::alloc::{AllocError, Global};

/// The greatest number that divides all numbers of a row, of which one is not 0.
fn divisor_of(row: &[i128]) -> i128
    requires { (c : ℕ) × (c < length row.now) × (1 ≤ unsigned_abs (at row.now c))
        × (unsigned_abs (at row.now c) < 2 ^ 127) }
    ensures positive { pos 1 ≤ℤ result }
    ensures divides { (c : ℕ) → c < length row.now → (t : ℤ) × (result *ℤ t ≡ at row.now c) }
    ensures greatest { (d : ℕ) →
        ((c : ℕ) → c < length row.now → (t : ℤ) × (pos d *ℤ t ≡ at row.now c)) → pos d ≤ℤ result }
{
    shared(row) as i128
}

/// The row after an exchange at another place, whose row is `mine`.
fn next_row(
    alloc: Global,
    p: i128,
    row: &[i128],
    own: i128,
    q: i128,
    mine: &[i128],
) -> Result<Row, AllocError>
    requires sized { length row.now ≡ length mine.now }
    requires fits { (m : ℕ) × (r : ℕ) × FitsMixed m r p row.now q mine.now }
    requires own_fits { FitsSigned w128 (p *ℤ own) }
    requires keeps { Keeps p row.now own mine.now }
    ensures sized { IfOk result (λ next. length next.numbers.items ≡ length row.now) }
    ensures exact { IfOk result (λ next. IsNext p row.now own q mine.now next.numbers.items next.own) }
{
    let all_of = times(p, own);
    let numbers = mixed(alloc, p, row, q, mine)?;
    let all = divisor_of(&numbers);
    let less = divided(alloc, &numbers, all)?;
    let own = exact_quotient(all_of, all);
    Ok(Row { numbers: less, own })
}

/// The row at place j after `mine`, which meets the column in p, has come in at place i.
fn placed(
    alloc: Global,
    rows: &[Row],
    i: usize,
    j: usize,
    p: i128,
    mine: &[i128],
    column: &[i128],
) -> Result<Row, AllocError>
    requires within { j < length rows.now }
    requires can { (b : ℕ) × (w : ℕ) × (columns : ℕ → ℕ → ℤ)
        × CanPlace b w columns rows.now i p mine.now column.now }
    ensures { IfOk result (λ next. IsPlaced i j (length column.now) p mine.now column.now rows.now next) }
{
    if j == i {
        let numbers = mixed(alloc, 1, mine, 0, mine)?;
        Ok(Row { numbers, own: p })
    } else {
        let row = &rows[j];
        let q = product(&row.numbers, column);
        let next = next_row(alloc, p, &row.numbers, row.own, q, mine)?;
        Ok(next)
    }
}

/// 1 or -1, as the number is above or below 0.
fn turn_of(a: i128) -> i128
    requires { unsigned_abs a < 2 ^ 127 }
    ensures one { result *ℤ result ≡ pos 1 }
    ensures size { result *ℤ a ≡ pos (unsigned_abs a) }
    ensures fits { FitsSigned w128 (result *ℤ a) }
{
    if a < 0 { -1 } else { 1 }
}

/// The rows of the basis with the column in at place `i`: the row of that place, turned so that its product p with the column is
/// above 0, and every other row times p less its own product with the column times that row, divided by what its numbers share.
pub fn exchange(
    alloc: Global,
    rows: &[Row],
    i: usize,
    column: &[i128],
) -> Result<Vec<Row>, AllocError>
    requires { CanExchange rows.now i column.now }
    ensures { IfOk result (λ next. IsExchanged rows.now i column.now next.items) }
{
    let row = &rows[i].numbers;
    let met = product(row, column);
    let turn = turn_of(met);
    let mine = mixed(alloc, turn, row, 0, row)?;
    let p = times(turn, met);
    let mut next = Vec::new(alloc);
    'exchange: for j in 0..rows.len() {
        let one = placed(alloc, rows, i, j, p, &mine, column)?;
        next.push(one)?;
    }
    Ok(next)
}
