//! Boxes that are tightened and cut, and their corner points.

ghost use Rattle.std.specs.Prelude.{◌≡◌, ◌∷◌, [], IfOk, length};
ghost use Rattle.cef_core.specs.Phases.{IsFine};
ghost use Rattle.cef_core.specs.Shapes.{shape};

use cef_box::{BoxRange, Range, Widest, corner_point, full, member, split, tighten};
use cef_core::{PhaseAt, Site};
use sample_phases::{pair, solution_of_10};
use std::alloc::{AllocError, Global};
use std::test::Fail;

/// The corner point of the box of all lists of two constituents.
#[tactic(auto, using(crate::proofs::Boxes::cuts))]
fn corner_of_all(alloc: Global, phase: &PhaseAt) -> Result<Site, AllocError>
    requires fine { IsFine phase.now }
    requires sites { shape phase.now.sites ≡ 2 ∷ [] }
{
    let range = full(alloc, phase)?;
    let mut corner = Site::new(alloc).with_sublattice(&[0, 0])?;
    corner_point(phase, &range, &mut corner);
    Ok(corner)
}

#[test]
fn the_corner_of_all_lists_of_two_constituents_is_the_first_alone(
    rt: HostRuntime,
) -> Result<(), Fail> {
    let alloc = rt.alloc();
    let phase = pair(alloc)?;
    let corner = corner_of_all(alloc, &phase)?;
    assert_eq!(rt; corner.counts(), [10u16, 0].as_slice());
    Ok(())
}

/// The box of one sublattice of two sites.
fn box_of(alloc: Global, low: [u16; 2], high: [u16; 2]) -> Result<BoxRange, AllocError> {
    let range = BoxRange::new(alloc).with_ranges(&low, &high)?;
    Ok(range)
}

#[test]
fn each_range_is_cut_to_what_the_other_leaves(rt: HostRuntime) -> Result<(), Fail> {
    let alloc = rt.alloc();
    let phase = pair(alloc)?;
    let mut range = box_of(alloc, [0, 0], [3, 10])?;
    assert!(rt; tighten(&phase, &mut range));
    assert_eq!(rt; range.lows(), [0u16, 7].as_slice());
    assert_eq!(rt; range.highs(), [3u16, 10].as_slice());
    Ok(())
}

#[test]
fn an_empty_box_is_left_as_it_is(rt: HostRuntime) -> Result<(), Fail> {
    let alloc = rt.alloc();
    let phase = pair(alloc)?;
    let mut range = box_of(alloc, [0, 0], [3, 6])?;
    assert!(rt; !tighten(&phase, &mut range));
    assert_eq!(rt; range.lows(), [0u16, 0].as_slice());
    assert_eq!(rt; range.highs(), [3u16, 6].as_slice());
    Ok(())
}

/// The two parts of a box.
#[derive(Drop)]
struct Parts {
    left: BoxRange,
    right: BoxRange,
}

/// The parts of the box of all lists, cut at a place.
#[tactic(auto, using(crate::proofs::Boxes::cuts))]
fn parts_of_all(alloc: Global, phase: &PhaseAt, place: usize, cut: u16) -> Result<Parts, Fail>
    requires { IsFine phase.now }
    ensures left { IfOk result (λ parts. shape parts.left ≡ shape phase.now.sites) }
    ensures right { IfOk result (λ parts. shape parts.right ≡ shape phase.now.sites) }
{
    let range = full(alloc, phase)?;
    let mut left = range.copy(alloc)?;
    let mut right = range.copy(alloc)?;
    if place >= range.places() {
        return Err("no place of the box".into());
    }
    let at = range.range_at(place);
    if cut < at.low {
        return Err("a cut below the range".into());
    }
    if cut >= at.high {
        return Err("a cut above the range".into());
    }
    split(phase, &range, place, cut, &mut left, &mut right);
    Ok(Parts { left, right })
}

#[test]
fn the_parts_of_a_cut_are_tight(rt: HostRuntime) -> Result<(), Fail> {
    let alloc = rt.alloc();
    let phase = pair(alloc)?;
    let parts = parts_of_all(alloc, &phase, 0, 3)?;
    assert_eq!(rt; parts.left.lows(), [0u16, 7].as_slice());
    assert_eq!(rt; parts.left.highs(), [3u16, 10].as_slice());
    assert_eq!(rt; parts.right.lows(), [4u16, 0].as_slice());
    assert_eq!(rt; parts.right.highs(), [10u16, 6].as_slice());
    Ok(())
}

#[test]
fn the_first_of_two_widest_places_is_found(rt: HostRuntime) -> Result<(), Fail> {
    let alloc = rt.alloc();
    let range = box_of(alloc, [1, 3], [5, 7])?;
    let widest = Widest {
        place: 0,
        range: Range { low: 1, high: 5 },
    };
    assert_eq!(rt; range.widest(), Some(widest));
    assert!(rt; !range.is_single());
    assert!(rt; box_of(alloc, [4, 6], [4, 6])?.is_single());
    assert_eq!(rt; BoxRange::new(alloc).widest(), None);
    Ok(())
}

/// How many lists of ten parts of three sites are members of the box.
#[tactic(auto, using(sample_phases::proofs::Boxes::boxes))]
fn members(alloc: Global, phase: &PhaseAt, range: &BoxRange) -> Result<u32, AllocError>
    requires { shape range.now ≡ 3 ∷ [] }
{
    let mut members = 0u32;
    'lists: for place in 0..121u16 {
        let first = place / 11;
        let second = place % 11;
        let third = 10u16.saturating_sub(first).saturating_sub(second);
        let site = Site::new(alloc).with_sublattice(&[first, second, third])?;
        if member(phase, range, &site) {
            members = members.saturating_add(1);
        }
    }
    Ok(members)
}

/// The box of one sublattice of three sites.
#[tactic(auto, using(sample_phases::proofs::Boxes::boxes))]
fn box_of_three(alloc: Global, low: [u16; 3], high: [u16; 3]) -> Result<BoxRange, AllocError>
    ensures { IfOk result (λ box. shape box ≡ 3 ∷ []) }
{
    let range = BoxRange::new(alloc).with_ranges(&low, &high)?;
    Ok(range)
}

#[test]
fn a_tightened_box_has_the_same_members(rt: HostRuntime) -> Result<(), Fail> {
    let alloc = rt.alloc();
    let phase = solution_of_10(alloc)?;
    let mut range = box_of_three(alloc, [5, 0, 1], [9, 2, 4])?;
    assert_eq!(rt; members(alloc, &phase, &range)?, 11);
    assert!(rt; tighten(&phase, &mut range));
    assert_eq!(rt; members(alloc, &phase, &range)?, 11);
    Ok(())
}

#[test]
fn the_parts_of_66_lists_have_38_and_28(rt: HostRuntime) -> Result<(), Fail> {
    let alloc = rt.alloc();
    let phase = solution_of_10(alloc)?;
    let parts = parts_of_all(alloc, &phase, 1, 3)?;
    assert_eq!(rt; members(alloc, &phase, &parts.left)?, 38);
    assert_eq!(rt; members(alloc, &phase, &parts.right)?, 28);
    Ok(())
}
