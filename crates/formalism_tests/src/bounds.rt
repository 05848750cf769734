//! Bounds of boxes, and the multipliers that are chosen for them.

ghost use Rattle.std.specs.Prelude.{◌≡◌, ◌∷◌, [], ◌^◌, IfOk, length};
ghost use Rattle.cef_core.specs.Phases.{IsFine};
ghost use Rattle.cef_core.specs.Shapes.{shape};
ghost use Rattle.cef_box.specs.Flat.{ranges};
ghost use Rattle.cef_box.specs.Terms.{FitsBox, shape_of_phase};
ghost use Rattle.cef_phase.specs.Bounds.{IsPlane};
ghost use Rattle.sample_phases.specs.Samples.{HasPlanes};

use cal_log::Logs;
use cef_box::BoxRange;
use cef_core::PhaseAt;
use cef_phase::{PhaseModel, SumPhase};
use sample_phases::{are_ranges, magnetic_pair, pair};
use std::alloc::{AllocError, Global};
use std::test::Fail;

/// Potentials of two elements, in 2^-16 µJ for each tenth of a mol.
const POTENTIALS: [i128; 2] = [-40_000_000_000_000, -40_000_000_000_000];

/// The multiplier that is chosen for a bound of a box, and that bound.
#[derive(Clone, Copy, Debug, PartialEq, Eq)]
struct Bounded {
    multiplier: i128,
    bound: i128,
}

#[tactic(auto, using(crate::proofs::Boxes::planes))]
fn choose_and_bound(
    alloc: Global,
    phase: &PhaseAt,
    range: &BoxRange,
    potentials: &[i128],
    by_planes: bool,
) -> Result<Bounded, Fail>
    requires fine { IsFine phase.now }
    requires sites { shape phase.now.sites ≡ 2 ∷ [] }
    requires fits { FitsBox (shape_of_phase phase.now) range.now }
    requires plane { IsPlane (2 ^ 116) phase.now potentials.now }
{
    let logs = Logs::build(alloc, 600_000)?;
    let model = SumPhase::build(alloc, phase, &logs)?;
    let mut multipliers = [0; 1];
    let bound = if by_planes {
        model.choose_affine(range, potentials, multipliers.as_mut_slice());
        model.affine_bound(range, potentials, multipliers.as_slice())
    } else {
        model.choose(range, potentials, multipliers.as_mut_slice());
        model.bound(range, potentials, multipliers.as_slice())
    };
    Ok(Bounded {
        multiplier: multipliers[0],
        bound,
    })
}

/// The chosen multiplier and a bound of a box of a solution of two elements.
#[tactic(auto, using(crate::proofs::Boxes::two_sites))]
fn bounded_between(
    alloc: Global,
    phase: &PhaseAt,
    low: &[u16],
    high: &[u16],
    by_planes: bool,
) -> Result<Bounded, Fail>
    requires fine { IsFine phase.now }
    requires lattice { phase.now.lattice ≡ 10 }
    requires sites { shape phase.now.sites ≡ 2 ∷ [] }
    requires planes { HasPlanes phase.now }
    requires low { length low.now ≡ 2 }
    requires high { length high.now ≡ 2 }
{
    if !are_ranges(low, high) {
        return Err("no box of the phase".into());
    }
    let range = pair_of(alloc, low, high)?;
    choose_and_bound(alloc, phase, &range, &POTENTIALS, by_planes)
}

/// The box of one sublattice of two sites.
fn pair_of(alloc: Global, low: &[u16], high: &[u16]) -> Result<BoxRange, AllocError>
    requires low { length low.now ≡ 2 }
    requires high { length high.now ≡ 2 }
    ensures { IfOk result (λ box. box ≡ ranges low.now high.now ∷ []) }
{
    let range = BoxRange::new(alloc).with_ranges(low, high)?;
    Ok(range)
}

/// Ranges of two sites, with what another program says of the box.
struct Expected {
    low: [u16; 2],
    high: [u16; 2],
    bounded: Bounded,
}

/// All lists; boxes of several; one of one list; one where several candidates are as good as 0.
const EXPECTED: [Expected; 5] = [
    Expected {
        low: [0, 0],
        high: [10, 10],
        bounded: Bounded {
            multiplier: 40_000_000_000_000,
            bound: 570_744_045_568,
        },
    },
    Expected {
        low: [2, 5],
        high: [5, 8],
        bounded: Bounded {
            multiplier: 70_525_055_543_978,
            bound: 13_617_843_754_326,
        },
    },
    Expected {
        low: [0, 7],
        high: [3, 10],
        bounded: Bounded {
            multiplier: 85_348_818_583_552,
            bound: 60_565_157_380_096,
        },
    },
    Expected {
        low: [3, 7],
        high: [3, 7],
        bounded: Bounded {
            multiplier: 0,
            bound: 67_140_208_427_008,
        },
    },
    Expected {
        low: [9, 0],
        high: [10, 1],
        bounded: Bounded {
            multiplier: 0,
            bound: 222_862_376_501_248,
        },
    },
];

#[test]
fn chosen_multipliers_and_bounds_of_an_ideal_solution(rt: HostRuntime) -> Result<(), Fail> {
    let alloc = rt.alloc();
    let phase = pair(alloc)?;
    for place in 0..5 {
        let expected = &EXPECTED[place];
        let found = bounded_between(alloc, &phase, &expected.low, &expected.high, false)?;
        assert_eq!(rt; found, expected.bounded);
    }
    Ok(())
}

/// Curie temperatures on both sides of 800 K; all lists, with those below 0; one list; Curie temperatures below 800 K.
const WITH_MAGNETISM: [Expected; 4] = [
    Expected {
        low: [0, 5],
        high: [5, 10],
        bounded: Bounded {
            multiplier: 70_215_656_767_488,
            bound: -749_851_228_831_744,
        },
    },
    Expected {
        low: [0, 0],
        high: [10, 10],
        bounded: Bounded {
            multiplier: 40_000_000_000_000,
            bound: -1_404_407_871_504_384,
        },
    },
    Expected {
        low: [3, 7],
        high: [3, 7],
        bounded: Bounded {
            multiplier: 0,
            bound: -61_465_671_827_456,
        },
    },
    Expected {
        low: [5, 0],
        high: [10, 5],
        bounded: Bounded {
            multiplier: 70_215_656_767_488,
            bound: -1_231_483_992_276_992,
        },
    },
];

#[test]
fn bounds_of_a_solution_with_magnetism(rt: HostRuntime) -> Result<(), Fail> {
    let alloc = rt.alloc();
    let phase = magnetic_pair(alloc)?;
    for place in 0..4 {
        let expected = &WITH_MAGNETISM[place];
        let found = bounded_between(alloc, &phase, &expected.low, &expected.high, false)?;
        assert_eq!(rt; found, expected.bounded);
    }
    Ok(())
}

/// The affine bounds of the same boxes.
const BY_PLANES: [Bounded; 4] = [
    Bounded {
        multiplier: 0,
        bound: -485_901_034_651_648,
    },
    Bounded {
        multiplier: 0,
        bound: -1_145_238_706_094_080,
    },
    Bounded {
        multiplier: 0,
        bound: -61_465_671_827_456,
    },
    Bounded {
        multiplier: 0,
        bound: -922_359_469_539_328,
    },
];

#[test]
fn affine_bounds_of_a_solution_with_magnetism(rt: HostRuntime) -> Result<(), Fail> {
    let alloc = rt.alloc();
    let phase = magnetic_pair(alloc)?;
    for place in 0..4 {
        let expected = &WITH_MAGNETISM[place];
        let found = bounded_between(alloc, &phase, &expected.low, &expected.high, true)?;
        assert_eq!(rt; found, BY_PLANES[place]);
    }
    Ok(())
}
