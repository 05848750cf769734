ghost use Rattle.std.specs.Prelude.{ℕ, IfOk};
ghost use Rattle.lp_stage.specs.Running.{IsRunning, IsImproved, IsSettled};

use crate::entering::entering;
use crate::phase::Phase;
use crate::stage::{Stage, stepped};
use lp_basis::Column;
use std::alloc::{AllocError, Global};

/// A stage that costs less: `None` where no known column costs less than the potentials ask for it.
pub fn improved(
    alloc: Global,
    columns: &[Column],
    starts: &[Column],
    phase: Phase,
    stage: &Stage,
) -> Result<Option<Stage>, AllocError>
    requires { (b : ℕ) × (w : ℕ) × (s : ℕ) × (v : ℕ)
        × IsRunning b w s v phase columns.now starts.now stage.now }
    ensures { IfOk result (λ found. IsImproved phase columns.now starts.now stage.now found) }
{
    let denominator = stage.potentials.denominator;
    let found = entering(columns, phase, &stage.potentials.numbers, denominator);
    match found {
        None => Ok(None),
        Some(k) => {
            let next = stepped(alloc, columns, starts, phase, &stage.places, &stage.rows, k)?;
            Ok(next)
        }
    }
}

/// The stage of a phase in which no known column costs less than the potentials ask for it.
pub fn settled(
    alloc: Global,
    columns: &[Column],
    starts: &[Column],
    phase: Phase,
    stage: Stage,
) -> Result<Stage, AllocError>
    requires { (b : ℕ) × (w : ℕ) × (s : ℕ) × (v : ℕ)
        × IsRunning b w s v phase columns.now starts.now stage }
    ensures { IfOk result (λ end. IsSettled phase columns.now starts.now stage end) }
{
    let mut stage = stage;
    'descend: while let Some(next) = improved(alloc, columns, starts, phase, &stage)? {
        stage = next;
    }
    Ok(stage)
}
