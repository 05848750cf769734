//! Minorants over boxes.

ghost use Rattle.std.specs.Prelude.{◌≡◌, ◌∷◌, [], IfOk, length};
ghost use Rattle.cef_core.specs.Phases.{IsFine};
ghost use Rattle.cef_core.specs.Shapes.{shape};
ghost use Rattle.cef_box.specs.Flat.{ranges};

use crate::solutions::{with_pair, with_triple, with_weighted};
use cef_box::{BoxRange, Term, member, tighten};
use cef_core::{PhaseAt, Site};
use cef_minor::{affine, minorant};
use cef_term::ParamTerm;
use std::alloc::{AllocError, Global};
use std::test::Fail;

/// A constant and the slopes of three sites, in 2^-16 µJ/mol.
#[derive(Clone, Copy, Debug, PartialEq, Eq)]
struct Plane {
    constant: i128,
    slopes: [i128; 3],
}

/// Ranges of three sites, and how many lists of ten parts lie in them.
#[derive(Clone, Copy)]
struct Listed {
    low: [u16; 3],
    high: [u16; 3],
    lists: u32,
}

/// Tight boxes with their numbers of lists, counted by hand.
const BOXES: [Listed; 4] = [
    Listed {
        low: [2, 6, 0],
        high: [4, 8, 0],
        lists: 3,
    },
    Listed {
        low: [0, 0, 0],
        high: [10, 10, 10],
        lists: 66,
    },
    Listed {
        low: [3, 3, 3],
        high: [4, 4, 4],
        lists: 3,
    },
    Listed {
        low: [5, 0, 1],
        high: [9, 2, 4],
        lists: 11,
    },
];

/// The box of one sublattice of three sites, as it stands.
fn box_of(alloc: Global, low: &[u16], high: &[u16]) -> Result<BoxRange, AllocError>
    requires low { length low.now ≡ 3 }
    requires high { length high.now ≡ 3 }
    ensures { IfOk result (λ box. box ≡ ranges low.now high.now ∷ []) }
{
    let range = BoxRange::new(alloc).with_ranges(low, high)?;
    Ok(range)
}

/// The minorant of a parameter, its slopes added to those before.
#[tactic(auto, using(crate::proofs::Raised::slopes))]
fn plane_over(
    alloc: Global,
    phase: &PhaseAt,
    index: usize,
    listed: Listed,
    before: [i64; 3],
) -> Result<Plane, Fail>
    requires fine { IsFine phase.now }
    requires lattice { phase.now.lattice ≡ 10 }
    requires sites { shape phase.now.sites ≡ 3 ∷ [] }
{
    if index >= phase.parameters().len() {
        return Err("no parameter of the phase".into());
    }
    if !affine(phase, index) {
        return Err("no affine parameter".into());
    }
    let mut range = box_of(alloc, &listed.low, &listed.high)?;
    if !tighten(phase, &mut range) {
        return Err("a box without a member".into());
    }
    let mut slopes = [
        i128::from(before[0]),
        i128::from(before[1]),
        i128::from(before[2]),
    ];
    let constant = minorant(phase, index, &range, &mut slopes);
    Ok(Plane { constant, slopes })
}

#[test]
fn an_interaction_of_order_0_above_and_below_0(rt: HostRuntime) -> Result<(), Fail> {
    let alloc = rt.alloc();
    let phase = with_pair(alloc, 0)?;
    let above = Plane {
        constant: -7_864_320_065_536,
        slopes: [3_932_160_000_000, 1_310_720_000_000, 0],
    };
    let below = Plane {
        constant: 15_728_639_934_464,
        slopes: [-3_932_160_000_000, -2_621_440_000_000, 0],
    };
    assert_eq!(rt; plane_over(alloc, &phase, 0, BOXES[0], [0, 0, 0])?, above);
    assert_eq!(rt; plane_over(alloc, &phase, 1, BOXES[0], [0, 0, 0])?, below);
    Ok(())
}

#[test]
fn slopes_are_added_to_those_before(rt: HostRuntime) -> Result<(), Fail> {
    let alloc = rt.alloc();
    let phase = with_pair(alloc, 0)?;
    let plane = plane_over(alloc, &phase, 0, BOXES[0], [7, -1_310_720_000_001, 5])?;
    let sum = Plane {
        constant: -7_864_320_065_536,
        slopes: [3_932_160_000_007, -1, 5],
    };
    assert_eq!(rt; plane, sum);
    Ok(())
}

/// Where each site has one count: K is 21 of 100, or 210 of 1000 with a difference of -4.
#[test]
fn one_list_has_its_value_and_no_slopes(rt: HostRuntime) -> Result<(), Fail> {
    let alloc = rt.alloc();
    let one = Listed {
        low: [3, 7, 0],
        high: [3, 7, 0],
        lists: 1,
    };
    let level = Plane {
        constant: 13_762_560_000_000,
        slopes: [1, 2, 3],
    };
    let difference = Plane {
        constant: 5_505_024_000_000,
        slopes: [1, 2, 3],
    };
    let of_order_0 = with_pair(alloc, 0)?;
    assert_eq!(rt; plane_over(alloc, &of_order_0, 0, one, [1, 2, 3])?, level);
    let of_order_1 = with_pair(alloc, 1)?;
    assert_eq!(rt;
        plane_over(alloc, &of_order_1, 1, one, [1, 2, 3])?,
        difference
    );
    Ok(())
}

#[test]
fn an_order_of_2_is_not_affine(rt: HostRuntime) -> Result<(), Fail> {
    let alloc = rt.alloc();
    let phase = with_pair(alloc, 2)?;
    if phase.parameters().len() == 0 {
        return Err("no parameter of the phase".into());
    }
    assert!(rt; !affine(&phase, 0));
    Ok(())
}

/// The value of a parameter at three counts.
#[tactic(auto, using(crate::proofs::Raised::slopes))]
fn value(alloc: Global, phase: &PhaseAt, index: usize, counts: [u16; 3]) -> Result<i128, Fail>
    requires fine { IsFine phase.now }
    requires lattice { phase.now.lattice ≡ 10 }
    requires sites { shape phase.now.sites ≡ 3 ∷ [] }
{
    if index >= phase.parameters().len() {
        return Err("no parameter of the phase".into());
    }
    if counts[0] > 10 || counts[1] > 10 || counts[2] > 10 {
        return Err("no list of the phase".into());
    }
    let site = Site::new(alloc).with_sublattice(&counts)?;
    let term = ParamTerm::new(alloc, phase, index)?;
    Ok(term.value(&site))
}

/// The height of a plane at three counts.
fn height(plane: Plane, counts: [u16; 3]) -> i128 {
    let first = plane.slopes[0].saturating_mul(i128::from(counts[0]));
    let second = plane.slopes[1].saturating_mul(i128::from(counts[1]));
    let third = plane.slopes[2].saturating_mul(i128::from(counts[2]));
    plane
        .constant
        .saturating_add(first)
        .saturating_add(second)
        .saturating_add(third)
}

/// How many lists of ten parts are members of the box, none with a value below the plane.
#[tactic(auto, using(crate::proofs::Raised::slopes))]
fn members(
    alloc: Global,
    phase: &PhaseAt,
    index: usize,
    range: &BoxRange,
    plane: Plane,
) -> Result<u32, Fail>
    requires fine { IsFine phase.now }
    requires lattice { phase.now.lattice ≡ 10 }
    requires sites { shape phase.now.sites ≡ 3 ∷ [] }
    requires range { shape range.now ≡ 3 ∷ [] }
{
    let mut members = 0u32;
    'lists: for place in 0..121u16 {
        let first = place / 11;
        let second = place % 11;
        let third = 10u16.saturating_sub(first).saturating_sub(second);
        let counts = [first, second, third];
        let site = Site::new(alloc).with_sublattice(&counts)?;
        if member(phase, range, &site) {
            let value = value(alloc, phase, index, counts)?;
            if height(plane, counts) > value.saturating_mul(65536) {
                return Err("a value below the minorant".into());
            }
            members = members.saturating_add(1);
        }
    }
    Ok(members)
}

/// Whether each parameter has its values in a box above its minorant over it.
#[tactic(auto, using(crate::proofs::Raised::slopes))]
fn are_above(alloc: Global, phase: &PhaseAt, listed: Listed) -> Result<bool, Fail>
    requires fine { IsFine phase.now }
    requires lattice { phase.now.lattice ≡ 10 }
    requires sites { shape phase.now.sites ≡ 3 ∷ [] }
{
    let range = box_of(alloc, &listed.low, &listed.high)?;
    'parameters: for index in 0..phase.parameters().len() {
        let plane = plane_over(alloc, phase, index, listed, [0, 0, 0])?;
        if members(alloc, phase, index, &range, plane)? != listed.lists {
            return Ok(false);
        }
    }
    Ok(true)
}

/// The same for each of the boxes.
fn are_above_in_all(alloc: Global, phase: &PhaseAt) -> Result<bool, Fail>
    requires fine { IsFine phase.now }
    requires lattice { phase.now.lattice ≡ 10 }
    requires sites { shape phase.now.sites ≡ 3 ∷ [] }
{
    for place in 0..4 {
        if !are_above(alloc, phase, BOXES[place])? {
            return Ok(false);
        }
    }
    Ok(true)
}

#[test]
fn every_member_of_a_box_has_a_value_above_the_minorant(rt: HostRuntime) -> Result<(), Fail> {
    let alloc = rt.alloc();
    assert!(rt; are_above_in_all(alloc, &with_pair(alloc, 0)?)?);
    assert!(rt; are_above_in_all(alloc, &with_pair(alloc, 1)?)?);
    assert!(rt; are_above_in_all(alloc, &with_triple(alloc)?)?);
    assert!(rt; are_above_in_all(alloc, &with_weighted(alloc, 0)?)?);
    assert!(rt; are_above_in_all(alloc, &with_weighted(alloc, 1)?)?);
    assert!(rt; are_above_in_all(alloc, &with_weighted(alloc, 2)?)?);
    Ok(())
}
