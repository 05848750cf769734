ghost use Rattle.std.specs.Prelude.{◌≡◌, ◌<◌, ℕ, suc, length, None, IfOk, replicate};
ghost use Rattle.std.specs.Bool.{OnTrue, OnFalse};
ghost use Rattle.lp_core.specs.Fitting.{Fits};
ghost use Rattle.lp_core.specs.Ends.{target_product};
ghost use Rattle.lp_core.specs.FirstPhase.{CanBegin, IsBegun, IsFirstEnd, MeetsTarget, HasUnit, HasNoUnit};

use crate::start::run;
use lp_basis::{Column, Row, product, units};
use lp_stage::{Phase, Stage, priced};
use std::alloc::{AllocError, Global};

/// As many places, with the unit at each.
fn places_of_units(alloc: Global, size: usize) -> Result<Vec<Option<usize>>, AllocError>
    ensures { IfOk result (λ places. places.items ≡ replicate size None) }
{
    let mut places = Vec::new(alloc);
    'places: for _j in 0..size {
        places.push(None)?;
    }
    Ok(places)
}

/// The stage of the first phase at which the units stand at all places.
fn stage_of_units(alloc: Global, columns: &[Column], size: usize) -> Result<Stage, AllocError>
    requires { (b : ℕ) × (w : ℕ) × (size ≡ suc b) × CanBegin b w columns.now }
    ensures { IfOk result (λ stage. IsBegun size columns.now stage) }
{
    let places = places_of_units(alloc, size)?;
    let rows = units(alloc, size)?;
    let stage = priced(alloc, columns, Phase::First, places, rows)?;
    Ok(stage)
}

/// The last stage of the first phase.
pub(crate) fn first_end(
    alloc: Global,
    columns: &[Column],
    target: &[i128],
) -> Result<Stage, AllocError>
    requires { Fits columns.now target.now }
    ensures { IfOk result (λ end. (b : ℕ) → length target.now ≡ suc b →
        IsFirstEnd b columns.now target.now end) }
{
    let stage = stage_of_units(alloc, columns, target.len())?;
    let end = run(alloc, columns, target, Phase::First, stage)?;
    Ok(end)
}

/// The product of the row at place j with the target.
fn target_product(rows: &[Row], j: usize, target: &[i128]) -> i128
    requires within { j < length rows.now }
    requires meets { MeetsTarget rows.now target.now }
    ensures { result ≡ target_product rows.now target.now j }
{
    let row = &rows[j];
    product(&row.numbers, target)
}

/// Whether a unit column has a weight above 0.
pub(crate) fn has_unit(places: &[Option<usize>], rows: &[Row], target: &[i128]) -> bool
    requires sized { length rows.now ≡ length places.now }
    requires meets { MeetsTarget rows.now target.now }
    ensures yes { OnTrue result (HasUnit places.now rows.now target.now) }
    ensures no { OnFalse result (HasNoUnit places.now rows.now target.now) }
{
    'places: for j in 0..places.len() {
        if places[j].is_none() && target_product(rows, j, target) > 0 {
            return true;
        }
    }
    false
}
