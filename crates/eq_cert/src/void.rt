//! Boxes of one list without content.

ghost use Rattle.std.specs.Prelude.{IfOk};
ghost use Rattle.std.specs.Bool.{OnTrue, OnFalse};
ghost use Rattle.cef_core.specs.Phases.{IsFine};
ghost use Rattle.eq_cert.specs.Trees.{IsVoid};
ghost use Rattle.eq_cert.specs.Nodes.{IsReady};

use crate::blank::blank_site;
use cef_box::{BoxRange, corner_point};
use cef_core::{PhaseAt, has_content};
use std::alloc::{AllocError, Global};

/// Whether a box is one list, and that without content.
#[tactic(auto, using(crate::proofs::Voids::voids))]
pub(crate) fn is_void(alloc: Global, phase: &PhaseAt, range: &BoxRange) -> Result<bool, AllocError>
    requires fine { IsFine phase.now }
    requires ready { IsReady phase.now range.now }
    ensures yes { IfOk result (λ b. OnTrue b (IsVoid phase.now range.now)) }
    ensures no { IfOk result (λ b. OnFalse b (IsVoid phase.now range.now → ⊥)) }
{
    if !range.is_single() {
        return Ok(false);
    }
    let mut corner = blank_site(alloc, phase)?;
    corner_point(phase, range, &mut corner);
    if has_content(phase, &corner) {
        Ok(false)
    } else {
        Ok(true)
    }
}
