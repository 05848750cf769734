ghost use Rattle.std.specs.Prelude.{◌^◌, IfOk, map};
ghost use Rattle.std.specs.List.{AllByRecursion};
ghost use Rattle.cef_core.specs.Phases.{IsFine};
ghost use Rattle.cef_phase.specs.Bounds.{IsPlane};
ghost use Rattle.eq_sweep.specs.Answers.{IfClosed, IfBelow, IfOut, IsPointBelow, IsShort};
ghost use Rattle.eq_sweep.specs.Sweeps.{IsSweep};
ghost use Rattle.eq_sweep.specs.Trees.{AreCovered, AreAbove};

use crate::swept::Swept;
use crate::visiting::{Visit, visit_phase};
use cal_list::Items;
use cef_phase::PhaseModel;
use cef_tree::Tree;
use std::alloc::{AllocError, Global};

/// Whether all constitutions of the phases lie on or above the plane of the potentials, with at most so many splits of boxes
/// in all. Potentials are in 2^-16 µJ/mol per 1/N, one for each component.
pub fn sweep<P: PhaseModel>(
    alloc: Global,
    phases: &[P],
    potentials: &[i128],
    budget: u64,
) -> Result<Swept, AllocError>
    requires fine { AllByRecursion IsFine (map P.phase_of phases.now) }
    requires planes { AllByRecursion (λ p. IsPlane (2 ^ 116) p potentials.now) (map P.phase_of phases.now) }
    ensures exact { IfOk result (IsSweep (map P.phase_of phases.now) potentials.now budget) }
    ensures covered { IfOk result (λ s. IfClosed s (AreCovered potentials.now (map P.phase_of phases.now))) }
    ensures above { IfOk result (λ s. IfClosed s (λ trees. AreAbove potentials.now (map P.phase_of phases.now))) }
    ensures below { IfOk result (λ s. IfBelow s (IsPointBelow potentials.now (map P.phase_of phases.now))) }
    ensures out { IfOk result (λ s. IfOut s (IsShort budget (map P.phase_of phases.now))) }
{
    let mut trees = Items::new(alloc);
    let mut splits = 0;
    'phases: for place in 0..phases.len() {
        let found = visit_phase(alloc, &phases[place], potentials, budget, splits)?;
        match found {
            Visit::Closed { tree, after } => {
                trees.push(tree)?;
                splits = after;
            }
            Visit::Below(site) => return Ok(Swept::Below { phase: place, site }),
            Visit::Out => return Ok(Swept::Out { phase: place }),
        }
    }
    Ok(Swept::Closed(trees))
}
