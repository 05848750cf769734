ghost use Rattle.std.specs.Prelude.{◌≡◌, ◌+◌, ◌<◌, ℕ, ℤ, List, length, suc, IfOk};
ghost use Rattle.lp_basis.specs.Held.{numbers_at};
ghost use Rattle.lp_core.specs.Ends.{IsLast};
ghost use Rattle.lp_core.specs.SecondPhase.{column_product, MeetsAll, IsMeeting, IsEntrant, CanFollow, IsReady};

use crate::start::run;
use lp_basis::{Column, Row, product};
use lp_stage::{Phase, Stage, exchanged, priced};
use std::alloc::{AllocError, Global};

/// The product of the row with the known column `k`.
fn column_product(columns: &[Column], row: &[i128], k: usize) -> i128
    requires known { k < length columns.now }
    requires meets { MeetsAll columns.now row.now }
    ensures { result ≡ column_product columns.now row.now k }
{
    let column = &columns[k];
    product(row, &column.amounts)
}

/// The first known column that the row does not kill.
fn meeting(columns: &[Column], row: &[i128]) -> Option<usize>
    requires { MeetsAll columns.now row.now }
    ensures { IsMeeting columns.now row.now result }
{
    'columns: for k in 0..columns.len() {
        if column_product(columns, row, k) != 0 {
            return Some(k);
        }
    }
    None
}

/// The known column that can come in at place j, where a unit stands.
fn entrant(columns: &[Column], places: &[Option<usize>], rows: &[Row], j: usize) -> Option<usize>
    requires place { j < length places.now }
    requires row { j < length rows.now }
    requires meets { MeetsAll columns.now (numbers_at rows.now j) }
    ensures { IsEntrant columns.now places.now rows.now j result }
{
    match places[j] {
        Some(_) => None,
        None => {
            let row = &rows[j];
            meeting(columns, &row.numbers)
        }
    }
}

/// The stage with a known column in the place of a unit, where one can come in.
fn without_unit(
    alloc: Global,
    columns: &[Column],
    stage: Stage,
    j: usize,
) -> Result<Stage, AllocError>
    requires { (b : ℕ) × (target : List ℤ) × (j < suc b) × IsReady b columns.now target j stage }
    ensures { IfOk result (λ next. (b : ℕ) (target : List ℤ) → j < suc b →
        IsReady b columns.now target j stage →
        IsReady b columns.now target (j + 1) next) }
{
    let found = entrant(columns, &stage.places, &stage.rows, j);
    match found {
        None => Ok(stage),
        Some(k) => {
            let next = exchanged(
                alloc,
                columns,
                Phase::Second,
                &stage.places,
                &stage.rows,
                j,
                k,
            )?;
            Ok(next)
        }
    }
}

/// The stage with which the second phase begins, after a first in which no unit has kept a weight.
fn second_start(alloc: Global, columns: &[Column], end: Stage) -> Result<Stage, AllocError>
    requires { (b : ℕ) × (target : List ℤ) × CanFollow b columns.now target end }
    ensures { IfOk result (λ stage. (b : ℕ) (target : List ℤ) →
        CanFollow b columns.now target end →
        IsReady b columns.now target (suc b) stage) }
{
    let Stage { places, rows, .. } = end;
    let size = places.len();
    let mut stage = priced(alloc, columns, Phase::Second, places, rows)?;
    'places: for j in 0..size {
        stage = without_unit(alloc, columns, stage, j)?;
    }
    Ok(stage)
}

/// The last stage of the second phase, after a first in which no unit has kept a weight.
pub(crate) fn second_end(
    alloc: Global,
    columns: &[Column],
    target: &[i128],
    end: Stage,
) -> Result<Stage, AllocError>
    requires { (b : ℕ) × CanFollow b columns.now target.now end }
    ensures { IfOk result (λ last. (b : ℕ) → CanFollow b columns.now target.now end →
        IsLast b columns.now target.now last) }
{
    let stage = second_start(alloc, columns, end)?;
    let last = run(alloc, columns, target, Phase::Second, stage)?;
    Ok(last)
}
