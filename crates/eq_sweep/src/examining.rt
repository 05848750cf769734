//! What is found of one box.

ghost use Rattle.std.specs.Prelude.{◌≡◌, ◌≤◌, ◌<◌, ◌^◌, ◌≤ℤ◌, ◌<ℤ◌, ◌*ℤ◌, pos, length, IfOk, unsigned_abs};
ghost use Rattle.std.specs.Bool.{OnTrue, OnFalse};
ghost use Rattle.cef_box.specs.Corners.{corner_site};
ghost use Rattle.cef_core.specs.Constitutions.{HasShape};
ghost use Rattle.cef_core.specs.Phases.{IsFine};
ghost use Rattle.cef_core.specs.Shapes.{shape};
ghost use Rattle.cef_phase.specs.Bounds.{IsPlane};
ghost use Rattle.eq_sweep.specs.Findings.{IsReady, IsFinding};
ghost use Rattle.eq_sweep.specs.Visits.{IsVoid, IsBelow};

use crate::cut::{Cut, middle_cut};
use crate::worth::worth_of;
use cal_list::Items;
use cef_box::{BoxRange, corner_point};
use cef_core::{PhaseAt, Site, has_content};
use cef_phase::PhaseModel;
use cef_tree::Node;
use std::alloc::{AllocError, Global};

/// What is found of a box: its node where it is not split, a corner below the plane, or the cut of its parts.
#[derive(Drop)]
pub(crate) enum Finding {
    Found(Node),
    Below,
    Open(Cut),
}

/// Whether the box is one list, and that has no content.
#[tactic(auto, using(crate::proofs::Found::voids))]
fn is_void(phase: &PhaseAt, range: &BoxRange, corner: &Site) -> bool
    requires { corner.now ≡ corner_site phase.now.lattice range.now }
    ensures yes { OnTrue result (IsVoid phase.now range.now) }
    ensures no { OnFalse result (IsVoid phase.now range.now → ⊥) }
{
    if range.is_single() {
        !has_content(phase, corner)
    } else {
        false
    }
}

/// Whether 65536 times the energy is below what the content is worth.
fn is_lower(energy: i128, worth: i128) -> bool
    requires energy { unsigned_abs energy ≤ 2 ^ 55 }
    ensures yes { OnTrue result ((pos 65536 *ℤ energy) <ℤ worth) }
    ensures no { OnFalse result ((pos 65536 *ℤ energy) <ℤ worth → ⊥) }
{
    65536 * energy < worth
}

/// Whether the counts have content and lie below the plane of the potentials.
#[tactic(auto, using(crate::proofs::Found::belows))]
fn is_below<P: PhaseModel>(model: &P, site: &Site, potentials: &[i128]) -> bool
    requires fine { IsFine (P.phase_of model.now) }
    requires plane { IsPlane (2 ^ 116) (P.phase_of model.now) potentials.now }
    requires shape { HasShape (P.phase_of model.now).lattice (P.phase_of model.now).sites site.now }
    ensures yes { OnTrue result (IsBelow (P.phase_of model.now) potentials.now site.now) }
    ensures no { OnFalse result (IsBelow (P.phase_of model.now) potentials.now site.now → ⊥) }
{
    let phase = model.phase();
    if has_content(phase, site) {
        let energy = model.value(site);
        is_lower(energy, worth_of(phase, site, potentials))
    } else {
        false
    }
}

/// A leaf with these multipliers.
fn leaf(alloc: Global, multipliers: &[i128]) -> Result<Node, AllocError>
    ensures { IfOk result (λ node. node ≡ Node.Leaf multipliers.now) }
{
    let multipliers = Items::from_vec(Vec::from_slice(alloc, multipliers)?);
    Ok(Node::Leaf { multipliers })
}

/// An affine leaf with these multipliers.
fn affine_leaf(alloc: Global, multipliers: &[i128]) -> Result<Node, AllocError>
    ensures { IfOk result (λ node. node ≡ Node.Affine multipliers.now) }
{
    let multipliers = Items::from_vec(Vec::from_slice(alloc, multipliers)?);
    Ok(Node::Affine { multipliers })
}

/// What is found of a box. `corner` becomes its corner point; `multipliers` is written over.
pub(crate) fn examine<P: PhaseModel>(
    alloc: Global,
    model: &P,
    range: &BoxRange,
    potentials: &[i128],
    corner: &mut Site,
    multipliers: &mut [i128],
) -> Result<Finding, AllocError>
    requires fine { IsFine (P.phase_of model.now) }
    requires plane { IsPlane (2 ^ 116) (P.phase_of model.now) potentials.now }
    requires ready { IsReady (P.phase_of model.now) range.now }
    requires shaped { shape corner.old ≡ shape (P.phase_of model.now).sites }
    requires each { length multipliers.old ≡ length (P.phase_of model.now).sites }
    ensures found { IfOk result (IsFinding (P.phase_of model.now) potentials.now range.now) }
    ensures corner { corner.new ≡ corner_site (P.phase_of model.now).lattice range.now }
    ensures shaped { shape corner.new ≡ shape corner.old }
{
    let phase = model.phase();
    corner_point(phase, range, corner);
    if is_void(phase, range, corner) {
        return Ok(Finding::Found(Node::Empty));
    }
    if model.choose(range, potentials, multipliers) >= 0 {
        let leaf = leaf(alloc, multipliers)?;
        return Ok(Finding::Found(leaf));
    }
    if model.choose_affine(range, potentials, multipliers) >= 0 {
        let leaf = affine_leaf(alloc, multipliers)?;
        return Ok(Finding::Found(leaf));
    }
    if is_below(model, corner, potentials) {
        return Ok(Finding::Below);
    }
    Ok(Finding::Open(middle_cut(phase, range)))
}
