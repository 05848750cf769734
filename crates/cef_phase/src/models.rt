ghost use Rattle.std.specs.Prelude.{◌≡◌, ◌≤◌, All, IfOk, map};
ghost use Rattle.cef_core.specs.Phases.{IsFine};

use crate::sum_phase::SumPhase;
use cal_log::Logs;
use cef_core::PhaseAt;
use std::alloc::{AllocError, Global};

/// The model of each phase, in order.
pub fn models_of<'a>(
    alloc: Global,
    phases: &'a [PhaseAt],
    logs: &'a Logs,
) -> Result<Vec<SumPhase<'a>>, AllocError>
    requires fine { All IsFine phases.now }
    requires reach { 501001 ≤ logs.now }
    ensures { IfOk result (λ models. map (λ model. model.phase.now) models.items ≡ phases.now) }
{
    let mut models = Vec::new(alloc);
    'phases: for i in 0..phases.len() {
        let model = SumPhase::build(alloc, &phases[i], logs)?;
        models.push(model)?;
    }
    Ok(models)
}
