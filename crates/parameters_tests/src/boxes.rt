//! Lows and highs of parameters over boxes.

ghost use Rattle.std.specs.Prelude.{◌≡◌, ◌∷◌, [], IfOk, length};
ghost use Rattle.cef_core.specs.Phases.{IsFine};
ghost use Rattle.cef_core.specs.Shapes.{shape};
ghost use Rattle.cef_box.specs.Flat.{ranges};

use crate::parameters::value;
use cef_box::{BoxRange, Term, member};
use cef_core::{PhaseAt, Site};
use cef_term::ParamTerm;
use sample_phases::{are_ranges, solution_of_10};
use std::alloc::{AllocError, Global};
use std::test::Fail;

/// The low and the high of a parameter over a box, in µJ/mol.
#[derive(Clone, Copy, Debug, PartialEq, Eq)]
struct Bounds {
    low: i128,
    high: i128,
}

/// Ranges of three sites, and how many lists of ten parts lie in them.
#[derive(Clone, Copy)]
struct Listed {
    low: [u16; 3],
    high: [u16; 3],
    lists: u32,
}

/// Boxes with their numbers of lists, counted by hand.
const BOXES: [Listed; 4] = [
    Listed {
        low: [2, 6, 0],
        high: [4, 8, 0],
        lists: 3,
    },
    Listed {
        low: [0, 0, 0],
        high: [10, 10, 10],
        lists: 66,
    },
    Listed {
        low: [3, 3, 3],
        high: [4, 4, 4],
        lists: 3,
    },
    Listed {
        low: [5, 0, 1],
        high: [9, 2, 4],
        lists: 11,
    },
];

/// The box of one sublattice of three sites.
fn box_of(alloc: Global, low: &[u16], high: &[u16]) -> Result<BoxRange, AllocError>
    requires low { length low.now ≡ 3 }
    requires high { length high.now ≡ 3 }
    ensures { IfOk result (λ box. box ≡ ranges low.now high.now ∷ []) }
{
    let range = BoxRange::new(alloc).with_ranges(low, high)?;
    Ok(range)
}

#[tactic(auto, using(sample_phases::proofs::Boxes::boxes))]
fn bounds_over(
    alloc: Global,
    phase: &PhaseAt,
    index: usize,
    low: &[u16],
    high: &[u16],
) -> Result<Bounds, Fail>
    requires fine { IsFine phase.now }
    requires lattice { phase.now.lattice ≡ 10 }
    requires sites { shape phase.now.sites ≡ 3 ∷ [] }
    requires low { length low.now ≡ 3 }
    requires high { length high.now ≡ 3 }
{
    if index >= phase.parameters().len() {
        return Err("no parameter of the phase".into());
    }
    if !are_ranges(low, high) {
        return Err("no box of the phase".into());
    }
    let range = box_of(alloc, low, high)?;
    let term = ParamTerm::new(alloc, phase, index)?;
    let low = term.low(&range);
    let high = term.high(&range);
    Ok(Bounds { low, high })
}

#[test]
fn an_odd_order_is_bounded_by_the_ends_of_the_difference(rt: HostRuntime) -> Result<(), Fail> {
    let alloc = rt.alloc();
    let phase = solution_of_10(alloc)?;
    let bounds = bounds_over(alloc, &phase, 0, &[2, 6, 0], &[4, 8, 0])?;
    let expected = Bounds {
        low: -192_000_000,
        high: -24_000_000,
    };
    assert_eq!(rt; bounds, expected);
    assert_eq!(rt; value(alloc, &phase, 0, &[3, 7, 0])?, -84_000_000);
    Ok(())
}

/// How many lists of ten parts are members of the box, none with a value outside the bounds.
#[tactic(auto, using(sample_phases::proofs::Boxes::boxes))]
fn members(
    alloc: Global,
    phase: &PhaseAt,
    index: usize,
    range: &BoxRange,
    bounds: Bounds,
) -> Result<u32, Fail>
    requires fine { IsFine phase.now }
    requires sites { shape range.now ≡ 3 ∷ [] }
{
    let mut members = 0u32;
    'lists: for place in 0..121u16 {
        let first = place / 11;
        let second = place % 11;
        let third = 10u16.saturating_sub(first).saturating_sub(second);
        let counts = [first, second, third];
        let site = Site::new(alloc).with_sublattice(&counts)?;
        if member(phase, range, &site) {
            let value = value(alloc, phase, index, &counts)?;
            if value < bounds.low || value > bounds.high {
                return Err("a value outside the bounds".into());
            }
            members = members.saturating_add(1);
        }
    }
    Ok(members)
}

/// Whether each parameter has its values in a box within its bounds over it.
#[tactic(auto, using(sample_phases::proofs::Boxes::boxes))]
fn are_bounded(alloc: Global, phase: &PhaseAt, listed: Listed) -> Result<bool, Fail>
    requires fine { IsFine phase.now }
    requires lattice { phase.now.lattice ≡ 10 }
    requires sites { shape phase.now.sites ≡ 3 ∷ [] }
{
    let range = box_of(alloc, &listed.low, &listed.high)?;
    'parameters: for index in 0..phase.parameters().len() {
        let bounds = bounds_over(alloc, phase, index, &listed.low, &listed.high)?;
        if members(alloc, phase, index, &range, bounds)? != listed.lists {
            return Ok(false);
        }
    }
    Ok(true)
}

#[test]
fn every_member_of_a_box_has_a_value_within_its_bounds(rt: HostRuntime) -> Result<(), Fail> {
    let alloc = rt.alloc();
    let phase = solution_of_10(alloc)?;
    for place in 0..4 {
        assert!(rt; are_bounded(alloc, &phase, BOXES[place])?);
    }
    Ok(())
}
