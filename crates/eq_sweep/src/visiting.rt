//! The visit of a phase: its boxes, depth first and the left one first.

ghost use Rattle.std.specs.Prelude.{◌≡◌, ◌≤◌, ◌<◌, ◌^◌, IfOk};
ghost use Rattle.std.specs.Bool.{OnTrue, OnFalse};
ghost use Rattle.cef_core.specs.Phases.{IsFine};
ghost use Rattle.cef_phase.specs.Bounds.{IsPlane};
ghost use Rattle.eq_sweep.specs.Findings.{IsVisit};

use crate::blank::blank_site;
use crate::examining::{Finding, examine};
use crate::spare::{copies_of, push_parts};
use cal_list::Items;
use cef_box::full;
use cef_core::Site;
use cef_phase::PhaseModel;
use cef_tree::{Node, Tree};
use std::alloc::{AllocError, Global};

/// How the visit of a phase ends: with its tree and the number of splits made so far, or with what stops the sweep.
#[derive(Drop)]
pub(crate) enum Visit {
    Closed { tree: Tree, after: u64 },
    Below(Site),
    Out,
}

/// Whether as many splits were made as the budget allows.
fn is_spent(budget: u64, splits: u64) -> bool
    ensures yes { OnTrue result (budget ≤ splits) }
    ensures no { OnFalse result (splits < budget) }
{
    budget <= splits
}

/// How many boxes wait at most for each site: a split makes the width of its range at most half of what it was.
const MOST_WAITING: usize = 10;

/// Visits the box of all lists of the phase, with so many splits made before it.
pub(crate) fn visit_phase<P: PhaseModel>(
    alloc: Global,
    model: &P,
    potentials: &[i128],
    budget: u64,
    used: u64,
) -> Result<Visit, AllocError>
    requires fine { IsFine (P.phase_of model.now) }
    requires plane { IsPlane (2 ^ 116) (P.phase_of model.now) potentials.now }
    ensures { IfOk result (IsVisit (P.phase_of model.now) potentials.now budget used) }
{
    let phase = model.phase();
    let start = full(alloc, phase)?;
    let most = MOST_WAITING * start.places() + 2;
    let mut spare = copies_of(alloc, &start, most)?;
    let mut corner = blank_site(alloc, phase)?;
    let mut multipliers = vec![in alloc; 0; phase.sublattices()]?;
    let mut stack = Vec::with_capacity(alloc, most)?;
    stack.push(start)?;
    let mut nodes = Items::new(alloc);
    let mut splits = used;
    'boxes: while let Some(range) = stack.pop() {
        let found = examine(
            alloc,
            model,
            &range,
            potentials,
            &mut corner,
            multipliers.as_mut_slice(),
        )?;
        match found {
            Finding::Found(node) => {
                nodes.push(node)?;
                spare.push(range)?;
            }
            Finding::Below => return Ok(Visit::Below(corner)),
            Finding::Open(cut) => {
                if is_spent(budget, splits) {
                    return Ok(Visit::Out);
                }
                splits += 1;
                nodes.push(Node::Split {
                    place: cut.place,
                    cut: cut.count,
                })?;
                push_parts(alloc, phase, range, cut, &mut stack, &mut spare)?;
            }
        }
    }
    Ok(Visit::Closed {
        tree: Tree { nodes },
        after: splits,
    })
}
