//! The walk of one tree.

ghost use Rattle.std.specs.Prelude.{◌^◌, ◌<◌, IfOk, IfSome, length, []};
ghost use Rattle.cef_core.specs.Phases.{IsFine};
ghost use Rattle.cef_phase.specs.Bounds.{IsPlane};
ghost use Rattle.cef_report.specs.Spelled.{Spans};
ghost use Rattle.eq_cert.specs.Judging.{IsJudgedTree};

use crate::node::{Found, judge};
use crate::waiting::Waiting;
use cef_box::full;
use cef_phase::PhaseModel;
use cef_tree::Node;
use std::alloc::{AllocError, Global};

/// The place of the first node of a tree that is wrong for its box.
pub(crate) fn broken_node<P: PhaseModel>(
    alloc: Global,
    model: &P,
    potentials: &[i128],
    nodes: &[Node],
) -> Result<Option<usize>, AllocError>
    requires fine { IsFine (P.phase_of model.now) }
    requires plane { IsPlane (2 ^ 117) (P.phase_of model.now) potentials.now }
    requires spelled { Spans nodes.now [] }
    ensures within { IfOk result (λ found. IfSome found (λ place. place < length nodes.now)) }
    ensures exact { IfOk result (λ found. IsJudgedTree (P.phase_of model.now) potentials.now nodes.now found) }
{
    let mut waiting = Waiting::new(alloc);
    waiting.push(full(alloc, model.phase())?)?;
    'nodes: for (place, node) in nodes.iter().enumerate() {
        match waiting.pop() {
            None => return Ok(None),
            Some(range) => {
                let found = judge(alloc, model, potentials, &range, node)?;
                match found {
                    Found::Wrong => return Ok(Some(place)),
                    Found::Covered => {}
                    Found::Parts(left, right) => {
                        waiting.push(right)?;
                        waiting.push(left)?;
                    }
                }
            }
        }
    }
    Ok(None)
}
