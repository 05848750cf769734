//! Values of parameters, and their lows and highs over boxes.

ghost use Rattle.cef_core.specs.Phases.{IsFine};

use cef_box::Term;
use cef_core::{PhaseAt, Site, is_list};
use cef_term::ParamTerm;
use sample_phases::solution_of_100;
use std::alloc::Global;
use std::test::Fail;

/// The value of a parameter at counts of one sublattice, in µJ/mol.
#[tactic(auto, using(cef_phase::proofs::Adding::site_fits))]
pub fn value(alloc: Global, phase: &PhaseAt, index: usize, counts: &[u16]) -> Result<i128, Fail>
    requires { IsFine phase.now }
{
    if index >= phase.parameters().len() {
        return Err("no parameter of the phase".into());
    }
    if counts.len() > 3 {
        return Err("too many counts".into());
    }
    let site = Site::new(alloc).with_sublattice(counts)?;
    if !is_list(phase, &site) {
        return Err("no list of the phase".into());
    }
    let term = ParamTerm::new(alloc, phase, index)?;
    Ok(term.value(&site))
}

#[test]
fn an_odd_order_changes_its_sign_with_the_order_of_the_constituents(
    rt: HostRuntime,
) -> Result<(), Fail> {
    let alloc = rt.alloc();
    let phase = solution_of_100(alloc)?;
    assert_eq!(rt; value(alloc, &phase, 0, &[30, 70, 0])?, -84_000_000);
    assert_eq!(rt; value(alloc, &phase, 1, &[30, 70, 0])?, 84_000_000);
    Ok(())
}

#[test]
fn a_ternary_interaction_alone_and_weighted(rt: HostRuntime) -> Result<(), Fail> {
    let alloc = rt.alloc();
    let phase = solution_of_100(alloc)?;
    assert_eq!(rt; value(alloc, &phase, 2, &[20, 30, 50])?, 30_000_000);
    assert_eq!(rt; value(alloc, &phase, 3, &[20, 30, 50])?, 6_000_000);
    Ok(())
}
