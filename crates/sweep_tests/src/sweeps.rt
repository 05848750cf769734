//! Sweeps of small phases.

ghost use Rattle.std.specs.Prelude.{◌≡◌, ◌≤◌, ◌^◌, IfOk, map, unsigned_abs};
ghost use Rattle.sweep_tests.specs.Sweepable.{AreSweepable};

use cal_log::Logs;
use cef_core::{PhaseAt, Site};
use cef_phase::SumPhase;
use cef_tree::Node;
use eq_sweep::{Swept, sweep};
use sample_phases::{magnetic_pair, pair, single, vacant};
use std::alloc::{AllocError, Global};
use std::test::Fail;

/// Potentials that a phase of two elements lies above, and those that it does not, in 2^-16 µJ for each tenth of a mol.
const LOW: i128 = -40_000_000_000_000;

const HIGH: i128 = -20_000_000_000_000;

/// The same for the solution with magnetism: the bound of all its lists is below 0 here, and the affine bound is not.
const BETWEEN: i128 = -170_000_000_000_000;

/// The model of each phase, in order.
fn models_of<'a>(
    alloc: Global,
    phases: &'a [PhaseAt],
    logs: &'a Logs,
) -> Result<Vec<SumPhase<'a>>, AllocError>
    requires phases { AreSweepable phases.now }
    requires logs { 501001 ≤ logs.now }
    ensures { IfOk result (λ models. map (λ model. model.phase.now) models.items ≡ phases.now) }
{
    let mut models = Vec::new(alloc);
    'phases: for i in 0..phases.len() {
        models.push(SumPhase::build(alloc, &phases[i], logs)?)?;
    }
    Ok(models)
}

/// The sweep of the phases under the same potential of two elements.
fn swept(alloc: Global, phases: &[PhaseAt], potential: i128, budget: u64) -> Result<Swept, Fail>
    requires phases { AreSweepable phases.now }
    requires potential { unsigned_abs potential ≤ 2 ^ 60 }
{
    let logs = Logs::build(alloc, 600_000)?;
    let models = models_of(alloc, phases, &logs)?;
    let swept = sweep(alloc, models.as_slice(), &[potential, potential], budget)?;
    Ok(swept)
}

/// The sweep of ideal mixing of two elements.
fn swept_pair(alloc: Global, potential: i128, budget: u64) -> Result<Swept, Fail>
    requires { unsigned_abs potential ≤ 2 ^ 60 }
{
    let phase = pair(alloc)?;
    swept(alloc, &[phase], potential, budget)
}

/// The sweep of one element alone and of ideal mixing of two.
fn swept_single_and_pair(alloc: Global, potential: i128, budget: u64) -> Result<Swept, Fail>
    requires { unsigned_abs potential ≤ 2 ^ 60 }
{
    let first = single(alloc)?;
    let second = pair(alloc)?;
    swept(alloc, &[first, second], potential, budget)
}

fn is_half_and_half(site: &Site) -> bool {
    site.counts() == [5, 5].as_slice()
}

/// Whether the sweep stops at half and half of the phase at a place.
fn is_below_at(swept: &Swept, place: usize) -> bool {
    match swept {
        Swept::Below { phase, site } => {
            if *phase == place {
                is_half_and_half(site)
            } else {
                false
            }
        }
        Swept::Closed(_) | Swept::Out { .. } => false,
    }
}

/// Whether the budget is spent at the phase at a place.
fn is_out_at(swept: &Swept, place: usize) -> bool {
    match swept {
        Swept::Out { phase } => *phase == place,
        Swept::Closed(_) | Swept::Below { .. } => false,
    }
}

/// The only node of the only tree.
fn only_node(swept: &Swept) -> Option<&Node> {
    let Swept::Closed(trees) = swept else {
        return None;
    };
    let [tree] = trees.as_slice() else {
        return None;
    };
    let [node] = tree.nodes.as_slice() else {
        return None;
    };
    Some(node)
}

/// The multiplier of a tree that is one leaf of one sublattice.
fn leaf_multiplier(swept: &Swept) -> Option<i128> {
    let Some(Node::Leaf { multipliers }) = only_node(swept) else {
        return None;
    };
    multipliers.as_slice().first().copied()
}

/// The multiplier of a tree that is one affine leaf of one sublattice.
fn affine_multiplier(swept: &Swept) -> Option<i128> {
    let Some(Node::Affine { multipliers }) = only_node(swept) else {
        return None;
    };
    multipliers.as_slice().first().copied()
}

/// Whether the tree is one box without content.
fn is_only_empty(swept: &Swept) -> bool {
    match only_node(swept) {
        Some(Node::Empty) => true,
        _ => false,
    }
}

#[test]
fn a_phase_above_the_plane_is_closed_by_one_leaf(rt: HostRuntime) -> Result<(), Fail> {
    let alloc = rt.alloc();
    let found = swept_pair(alloc, LOW, 0)?;
    assert_eq!(rt; leaf_multiplier(&found), Some(40_000_000_000_000));
    Ok(())
}

#[test]
fn planes_below_the_parameters_close_what_their_lows_leave_open(
    rt: HostRuntime,
) -> Result<(), Fail> {
    let alloc = rt.alloc();
    let phase = magnetic_pair(alloc)?;
    let found = swept(alloc, &[phase], BETWEEN, 0)?;
    assert_eq!(rt; affine_multiplier(&found), Some(38_928_000_000_000));
    Ok(())
}

#[test]
fn a_phase_below_the_plane_is_found_after_one_split(rt: HostRuntime) -> Result<(), Fail> {
    let alloc = rt.alloc();
    assert!(rt; is_out_at(&swept_pair(alloc, HIGH, 0)?, 0));
    assert!(rt; is_below_at(&swept_pair(alloc, HIGH, 1)?, 0));
    assert!(rt; is_below_at(&swept_pair(alloc, HIGH, 10)?, 0));
    assert!(rt; is_below_at(&swept_pair(alloc, HIGH, 11)?, 0));
    Ok(())
}

#[test]
fn the_second_phase_is_below(rt: HostRuntime) -> Result<(), Fail> {
    let alloc = rt.alloc();
    assert!(rt; is_out_at(&swept_single_and_pair(alloc, HIGH, 0)?, 1));
    assert!(rt; is_below_at(&swept_single_and_pair(alloc, HIGH, 1)?, 1));
    Ok(())
}

#[test]
fn one_list_without_content_is_empty(rt: HostRuntime) -> Result<(), Fail> {
    let alloc = rt.alloc();
    let phase = vacant(alloc)?;
    let found = swept(alloc, &[phase], HIGH, 0)?;
    assert!(rt; is_only_empty(&found));
    Ok(())
}
