//! What is found of one node.

ghost use Rattle.std.specs.Prelude.{◌≡◌, ◌^◌, IfOk};
ghost use Rattle.std.specs.Bool.{OnTrue, OnFalse};
ghost use Rattle.cef_core.specs.Phases.{IsFine};
ghost use Rattle.cef_phase.specs.Bounds.{IsPlane, AreMultipliers};
ghost use Rattle.eq_cert.specs.Trees.{IsAbovePlane, IsAboveByPlanes};
ghost use Rattle.eq_cert.specs.Nodes.{IsReady, IsFound, IsCutFound};
ghost use Rattle.eq_cert.specs.declared.node.Found.TheVariants.{Covered, Wrong};

use crate::limits::are_small;
use crate::void::is_void;
use cef_box::{BoxRange, split};
use cef_core::PhaseAt;
use cef_phase::PhaseModel;
use cef_tree::Node;
use std::alloc::{AllocError, Global};

/// What is found of a node: wrong, or its box is covered, or the parts that its subtrees have to cover.
#[derive(Drop)]
pub(crate) enum Found {
    Wrong,
    Covered,
    Parts(BoxRange, BoxRange),
}

/// Whether there is one multiplier for each sublattice, and none is too great.
#[tactic(auto, using(crate::proofs::Scaled::lattices))]
fn are_multipliers(phase: &PhaseAt, multipliers: &[i128]) -> bool
    requires { IsFine phase.now }
    ensures yes { OnTrue result (AreMultipliers phase.now multipliers.now) }
    ensures no { OnFalse result (AreMultipliers phase.now multipliers.now → ⊥) }
{
    if multipliers.len() != phase.sublattices() {
        return false;
    }
    are_small(multipliers, u128::from(phase.lattice))
}

/// Whether the multipliers of a leaf show that its box lies on or above the plane.
fn is_above_plane<P: PhaseModel>(
    model: &P,
    potentials: &[i128],
    range: &BoxRange,
    multipliers: &[i128],
) -> bool
    requires fine { IsFine (P.phase_of model.now) }
    requires plane { IsPlane (2 ^ 117) (P.phase_of model.now) potentials.now }
    requires ready { IsReady (P.phase_of model.now) range.now }
    ensures yes { OnTrue result (IsAbovePlane (P.phase_of model.now) potentials.now range.now multipliers.now) }
    ensures no { OnFalse result (IsAbovePlane (P.phase_of model.now) potentials.now range.now multipliers.now → ⊥) }
{
    if !are_multipliers(model.phase(), multipliers) {
        return false;
    }
    let bound = model.bound(range, potentials, multipliers);
    bound >= 0
}

/// Whether the multipliers of an affine leaf show the same by the planes below the parameters.
fn is_above_by_planes<P: PhaseModel>(
    model: &P,
    potentials: &[i128],
    range: &BoxRange,
    multipliers: &[i128],
) -> bool
    requires fine { IsFine (P.phase_of model.now) }
    requires plane { IsPlane (2 ^ 117) (P.phase_of model.now) potentials.now }
    requires ready { IsReady (P.phase_of model.now) range.now }
    ensures yes { OnTrue result (IsAboveByPlanes (P.phase_of model.now) potentials.now range.now multipliers.now) }
    ensures no { OnFalse result (IsAboveByPlanes (P.phase_of model.now) potentials.now range.now multipliers.now → ⊥) }
{
    if !are_multipliers(model.phase(), multipliers) {
        return false;
    }
    let low = model.affine_bound(range, potentials, multipliers);
    low >= 0
}

/// The parts of a box at a cut, where it can be cut there.
#[tactic(auto, using(crate::proofs::Ready::cutting))]
fn parts_of(
    alloc: Global,
    phase: &PhaseAt,
    range: &BoxRange,
    place: usize,
    cut: u16,
) -> Result<Found, AllocError>
    requires { IsReady phase.now range.now }
    ensures { IfOk result (λ found. IsCutFound phase.now.lattice range.now place cut found) }
{
    if place >= range.places() {
        return Ok(Found::Wrong);
    }
    let whole = range.range_at(place);
    if cut < whole.low {
        return Ok(Found::Wrong);
    }
    if whole.high <= cut {
        return Ok(Found::Wrong);
    }
    let mut left = range.copy(alloc)?;
    let mut right = range.copy(alloc)?;
    split(phase, range, place, cut, &mut left, &mut right);
    Ok(Found::Parts(left, right))
}

/// What is found of a node with no nodes below it.
fn end_found(is_right: bool) -> Found
    ensures covered { OnTrue is_right (result ≡ Covered) }
    ensures wrong { OnFalse is_right (result ≡ Wrong) }
{
    if is_right {
        Found::Covered
    } else {
        Found::Wrong
    }
}

/// What is found of a node that stands for a box.
pub(crate) fn judge<P: PhaseModel>(
    alloc: Global,
    model: &P,
    potentials: &[i128],
    range: &BoxRange,
    node: &Node,
) -> Result<Found, AllocError>
    requires fine { IsFine (P.phase_of model.now) }
    requires plane { IsPlane (2 ^ 117) (P.phase_of model.now) potentials.now }
    requires ready { IsReady (P.phase_of model.now) range.now }
    ensures { IfOk result (λ found. IsFound (P.phase_of model.now) potentials.now range.now node.now found) }
{
    match node {
        Node::Split { place, cut } => {
            let found = parts_of(alloc, model.phase(), range, usize::from(*place), *cut)?;
            Ok(found)
        }
        Node::Leaf { multipliers } => {
            let above = is_above_plane(model, potentials, range, multipliers.as_slice());
            Ok(end_found(above))
        }
        Node::Affine { multipliers } => {
            let above = is_above_by_planes(model, potentials, range, multipliers.as_slice());
            Ok(end_found(above))
        }
        Node::Empty => {
            let void = is_void(alloc, model.phase(), range)?;
            Ok(end_found(void))
        }
    }
}
