ghost use Rattle.std.specs.Prelude.{◌≡◌, ℕ, ◌<◌, length, All, IfOk};
ghost use Rattle.cal_math.specs.Vectors.{at};
ghost use Rattle.lp_basis.specs.Columns.{IsColumn};
ghost use Rattle.lp_stage.specs.Stages.{IsKnown, AreKnown, column_at};
ghost use Rattle.lp_core.specs.Starts.{AreStarts, CanRun, HasRunFrom};

use lp_basis::{Column, unit_row};
use lp_stage::{Phase, Stage, settled};
use std::alloc::{AllocError, Global};

/// The amounts of the column at a place: of the known one that came in, or of the unit of the component.
fn amounts_of(
    alloc: Global,
    columns: &[Column],
    place: Option<usize>,
    component: usize,
    size: usize,
) -> Result<Vec<i128>, AllocError>
    requires component { component < size }
    requires known { IsKnown (length columns.now) place }
    requires fine { All (IsColumn size) columns.now }
    ensures sized { IfOk result (λ amounts. length amounts.items ≡ size) }
    ensures every { IfOk result (λ amounts. (c : ℕ) → c < size →
        at amounts.items c ≡ column_at columns.now place component c) }
{
    match place {
        None => unit_row(alloc, size, component),
        Some(k) => Vec::from_slice(alloc, &columns[k].amounts),
    }
}

/// The starts of a phase: the target, and the columns of the basis. They cost nothing.
fn starts_of(
    alloc: Global,
    columns: &[Column],
    target: &[i128],
    places: &[Option<usize>],
) -> Result<Vec<Column>, AllocError>
    requires count { length places.now ≡ length target.now }
    requires known { AreKnown (length columns.now) places.now }
    requires fine { All (IsColumn (length target.now)) columns.now }
    ensures { IfOk result (λ starts. AreStarts (length target.now) columns.now target.now places.now (length target.now) starts.items) }
{
    let mut starts = Vec::new(alloc);
    let amounts = Vec::from_slice(alloc, target)?;
    starts.push(Column { cost: 0, amounts })?;
    'places: for j in 0..places.len() {
        let amounts = amounts_of(alloc, columns, places[j], j, target.len())?;
        starts.push(Column { cost: 0, amounts })?;
    }
    Ok(starts)
}

/// The last stage of a phase that begins at this one.
pub(crate) fn run(
    alloc: Global,
    columns: &[Column],
    target: &[i128],
    phase: Phase,
    stage: Stage,
) -> Result<Stage, AllocError>
    requires { (b : ℕ) × (w : ℕ) × (s : ℕ) × CanRun b w s phase columns.now target.now stage }
    ensures { IfOk result (λ end. HasRunFrom phase columns.now target.now stage end) }
{
    let starts = starts_of(alloc, columns, target, &stage.places)?;
    let end = settled(alloc, columns, &starts, phase, stage)?;
    Ok(end)
}
