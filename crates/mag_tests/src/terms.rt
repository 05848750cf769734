//! The magnetic energy of a phase as a term, with the terms of its parameters.

ghost use Rattle.std.specs.Prelude.{◌≡◌, ◌≤◌, ◌<◌, ◌+◌, ◌∷◌, [], IfOk, length};
ghost use Rattle.cef_core.specs.Phases.{IsFine};
ghost use Rattle.cef_box.specs.Terms.{shape_of_phase};
ghost use Rattle.mag_tests.specs.Fixtures.{alloy, magnitude_at, AreSummandsOf};

use crate::fixture::alloy;
use cal_log::Logs;
use cef_box::{BoxRange, Term};
use cef_core::{PhaseAt, Site};
use cef_mag::MagTerm;
use cef_term::ParamTerm;
use std::alloc::{AllocError, Global};
use std::test::Fail;

/// The terms of two parameters of a phase.
fn two_terms<'a>(
    alloc: Global,
    phase: &'a PhaseAt,
    first: usize,
    second: usize,
) -> Result<Vec<ParamTerm<'a>>, AllocError>
    requires fine { IsFine phase.now }
    requires first { first < length phase.now.parameters }
    requires second { second < length phase.now.parameters }
    ensures { IfOk result (λ v. AreSummandsOf phase.now (magnitude_at phase.now.parameters first + magnitude_at phase.now.parameters second) v.items) }
{
    let mut terms = Vec::new(alloc);
    terms.push(ParamTerm::new(alloc, phase, first)?)?;
    terms.push(ParamTerm::new(alloc, phase, second)?)?;
    Ok(terms)
}

/// The magnetic energy of the alloy.
#[tactic(auto, using(crate::proofs::Alloys::alloy_rules))]
fn magnetism<'a>(
    alloc: Global,
    phase: &'a PhaseAt,
    logs: &'a Logs,
) -> Result<MagTerm<'a, ParamTerm<'a>>, AllocError>
    requires alloy { phase.now ≡ alloy }
    requires reach { 501001 ≤ logs.now }
    ensures { IfOk result (λ m. shape_of_phase m.phase.now ≡ record { lattice = 10; widths = 2 ∷ [] }) }
{
    let curie = two_terms(alloc, phase, 0, 1)?;
    let moment = two_terms(alloc, phase, 2, 3)?;
    Ok(MagTerm::new(phase, logs, curie, moment))
}

/// The value of a term at the counts of two elements, of 10 parts.
#[tactic(auto, using(crate::proofs::Alloys::counts_rules))]
fn value<T: Term>(alloc: Global, term: &T, first: u16, second: u16) -> Result<i128, Fail>
    requires shape { T.shape term.now ≡ record { lattice = 10; widths = 2 ∷ [] } }
    requires first { first ≤ 10 }
    requires second { second ≤ 10 }
{
    let site = Site::new(alloc).with_sublattice(&[first, second])?;
    Ok(term.value(&site))
}

/// The low and the high of an energy.
#[derive(Clone, Copy, Debug, PartialEq, Eq)]
struct Bounds {
    low: i128,
    high: i128,
}

/// The bounds of a term where both elements have from some to other counts.
#[tactic(auto, using(crate::proofs::Alloys::counts_rules))]
fn bounds_over<T: Term>(alloc: Global, term: &T, low: u16, high: u16) -> Result<Bounds, Fail>
    requires shape { T.shape term.now ≡ record { lattice = 10; widths = 2 ∷ [] } }
    requires ordered { low ≤ high }
    requires most { high ≤ 10 }
{
    let range = BoxRange::new(alloc).with_ranges(&[low, low], &[high, high])?;
    let low = term.low(&range);
    let high = term.high(&range);
    Ok(Bounds { low, high })
}

#[test]
fn a_phase_has_the_energy_of_the_sums_of_its_terms(rt: HostRuntime) -> Result<(), Fail> {
    let alloc = rt.alloc();
    let phase = alloy(alloc)?;
    let logs = Logs::build(alloc, 501_001)?;
    let term = magnetism(alloc, &phase, &logs)?;
    assert_eq!(rt; value(alloc, &term, 10, 0)?, -822_065_531);
    assert_eq!(rt; value(alloc, &term, 8, 2)?, -913_197_517);
    assert_eq!(rt; value(alloc, &term, 5, 5)?, -247_232_363);
    Ok(())
}

#[test]
fn its_bounds_are_those_of_the_sums_of_lows_and_of_highs(rt: HostRuntime) -> Result<(), Fail> {
    let alloc = rt.alloc();
    let phase = alloy(alloc)?;
    let logs = Logs::build(alloc, 501_001)?;
    let term = magnetism(alloc, &phase, &logs)?;
    let expected = Bounds {
        low: -7_319_251_094,
        high: 604_090_328,
    };
    assert_eq!(rt; bounds_over(alloc, &term, 2, 8)?, expected);
    let single = Bounds {
        low: -247_232_363,
        high: -247_232_363,
    };
    assert_eq!(rt; bounds_over(alloc, &term, 5, 5)?, single);
    Ok(())
}
