//! The rule of the trees.

ghost use Rattle.std.specs.Prelude.{◌≡◌, ◌+◌, ◌<◌, ◌^◌, length, map, IfOk};
ghost use Rattle.std.specs.List.{AllByRecursion};
ghost use Rattle.cef_core.specs.Phases.{IsFine};
ghost use Rattle.cef_report.specs.Spelled.{IsSpelledTree};
ghost use Rattle.eq_cert.specs.Rules.{lines_before};
ghost use Rattle.eq_cert.specs.Judging.{AreJudgedTrees, ArePlanes};

use crate::tree::broken_node;
use cef_phase::PhaseModel;
use cef_tree::Tree;
use std::alloc::{AllocError, Global};

/// The line of the first node that is wrong, counted from the first node of the first tree.
pub(crate) fn broken_tree<P: PhaseModel>(
    alloc: Global,
    models: &[P],
    potentials: &[i128],
    trees: &[Tree],
) -> Result<Option<usize>, AllocError>
    requires one_each { length trees.now ≡ length models.now }
    requires fine { AllByRecursion IsFine (map P.phase_of models.now) }
    requires planes { ArePlanes potentials.now (map P.phase_of models.now) }
    requires spelled { AllByRecursion IsSpelledTree trees.now }
    requires lines { lines_before trees.now (length trees.now) < 2 ^ 32 }
    ensures { IfOk result (λ found. AreJudgedTrees (map P.phase_of models.now) potentials.now trees.now found) }
{
    let mut line = 0;
    'trees: for p in 0..trees.len() {
        let nodes = trees[p].nodes.as_slice();
        let found = broken_node(alloc, &models[p], potentials, nodes)?;
        match found {
            Some(place) => return Ok(Some(line + place)),
            None => line += nodes.len() + 1,
        }
    }
    Ok(None)
}
