ghost use Rattle.std.specs.Prelude.{◌≡◌, ℕ, ◌<◌, length, get_or, set, Some, None, IfOk};
ghost use Rattle.cal_math.specs.Vectors.{at};
ghost use Rattle.lp_stage.specs.Stages.{unit_cost_in, cost_at, IsKnown, AreKnown, basis_costs};
ghost use Rattle.lp_stage.specs.Stages.{IsStage, CanStand, CanMove, CanStep, IsStepOf};

use crate::leaving::leaving;
use crate::phase::{Phase, cost_of};
use lp_basis::{Column, Potentials, Row, exchange, potentials_of};
use std::alloc::{AllocError, Global};

/// Where a phase stands: at each place the known column that came in, or `None` for the unit of the place; the rows; the potentials.
#[derive(Drop)]
pub struct Stage {
    pub places: Vec<Option<usize>>,
    pub rows: Vec<Row>,
    pub potentials: Potentials,
}

/// What a unit column costs in the phase.
fn unit_cost(phase: Phase) -> i128
    ensures { result ≡ unit_cost_in phase }
{
    match phase {
        Phase::First => 1,
        Phase::Second => 0,
    }
}

/// What the column at a place costs in the phase.
fn place_cost(columns: &[Column], phase: Phase, place: Option<usize>) -> i128
    requires { IsKnown (length columns.now) place }
    ensures { result ≡ cost_at phase columns.now place }
{
    match place {
        None => unit_cost(phase),
        Some(k) => cost_of(phase, &columns[k]),
    }
}

/// What the columns of the basis cost in the phase.
fn costs_of(
    alloc: Global,
    columns: &[Column],
    phase: Phase,
    places: &[Option<usize>],
) -> Result<Vec<i128>, AllocError>
    requires { AreKnown (length columns.now) places.now }
    ensures sized { IfOk result (λ costs. length costs.items ≡ length places.now) }
    ensures every { IfOk result (λ costs. (j : ℕ) → j < length places.now →
        at costs.items j ≡ basis_costs phase columns.now places.now j) }
{
    let mut costs = Vec::new(alloc);
    'places: for j in 0..places.len() {
        let cost = place_cost(columns, phase, places[j]);
        costs.push(cost)?;
    }
    Ok(costs)
}

/// The places with the known column `k` at place `i`.
fn with_place(
    alloc: Global,
    places: &[Option<usize>],
    i: usize,
    k: usize,
) -> Result<Vec<Option<usize>>, AllocError>
    requires { i < length places.now }
    ensures { IfOk result (λ next. next.items ≡ set places.now i (Some k)) }
{
    let mut next = Vec::from_slice(alloc, places)?;
    next[i] = Some(k);
    Ok(next)
}

/// The stage at these places, with the potentials of their rows.
pub fn priced(
    alloc: Global,
    columns: &[Column],
    phase: Phase,
    places: Vec<Option<usize>>,
    rows: Vec<Row>,
) -> Result<Stage, AllocError>
    requires { (b : ℕ) × (w : ℕ) × (s : ℕ)
        × CanStand b w s phase columns.now places.items rows.items }
    ensures rows { IfOk result (λ stage. stage.rows.items ≡ rows.items) }
    ensures stage { IfOk result (λ stage. (b w s : ℕ) →
        CanStand b w s phase columns.now places.items rows.items →
        IsStage b w phase columns.now places.items stage) }
{
    let costs = costs_of(alloc, columns, phase, &places)?;
    let potentials = potentials_of(alloc, &rows, &costs)?;
    Ok(Stage {
        places,
        rows,
        potentials,
    })
}

/// The stage after the known column `k` has come in at place `i`.
pub fn exchanged(
    alloc: Global,
    columns: &[Column],
    phase: Phase,
    places: &[Option<usize>],
    rows: &[Row],
    i: usize,
    k: usize,
) -> Result<Stage, AllocError>
    requires { (b : ℕ) × (w : ℕ) × (s : ℕ)
        × CanMove b w s phase columns.now places.now rows.now i k }
    ensures { IfOk result (λ next. (b w s : ℕ) →
        CanMove b w s phase columns.now places.now rows.now i k →
        IsStage b w phase columns.now (set places.now i (Some k)) next) }
{
    let column = &columns[k];
    let next_rows = exchange(alloc, rows, i, &column.amounts)?;
    let next_places = with_place(alloc, places, i, k)?;
    let next = priced(alloc, columns, phase, next_places, next_rows)?;
    Ok(next)
}

/// The stage after the known column `k` has come in where the ratio test says: `None` where no row's product with it is above 0.
pub fn stepped(
    alloc: Global,
    columns: &[Column],
    starts: &[Column],
    phase: Phase,
    places: &[Option<usize>],
    rows: &[Row],
    k: usize,
) -> Result<Option<Stage>, AllocError>
    requires { (b : ℕ) × (w : ℕ) × (s : ℕ) × (v : ℕ)
        × CanStep b w s v phase columns.now starts.now places.now rows.now k }
    ensures { IfOk result (λ found. IsStepOf phase columns.now starts.now places.now rows.now k found) }
{
    let column = &columns[k];
    let found = leaving(alloc, rows, &column.amounts, starts)?;
    match found {
        None => Ok(None),
        Some(i) => {
            let next = exchanged(alloc, columns, phase, places, rows, i, k)?;
            Ok(Some(next))
        }
    }
}
