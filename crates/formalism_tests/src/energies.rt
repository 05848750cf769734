//! Ideal mixing, and the energy of a phase.

ghost use Rattle.cef_core.specs.Phases.{IsFine};

use cal_log::Logs;
use cef_core::{PhaseAt, Site, is_list};
use cef_mix::Mix;
use cef_phase::{PhaseModel, SumPhase};
use sample_phases::{cementite, magnetic_pair, solution_of_10};
use std::alloc::Global;
use std::test::Fail;

/// The energies of mixing of 0 to 10 of 10 parts at 1000 K, in µJ/mol, by another program.
const MIXING: [i128; 11] = [
    0,
    -1_914_486_678,
    -2_676_337_523,
    -3_003_133_176,
    -3_047_403_381,
    -2_881_589_582,
    -2_548_358_854,
    -2_075_904_171,
    -1_484_263_431,
    -788_418_954,
    0,
];

/// The energy of mixing of so many parts of a site of the first sublattice, in µJ/mol.
#[tactic(auto, using(crate::proofs::Phases::mixes))]
fn mixing(alloc: Global, phase: &PhaseAt, k: u16) -> Result<i128, Fail>
    requires { IsFine phase.now }
{
    if u32::from(k) > phase.parts() {
        return Err("too many parts".into());
    }
    let logs = Logs::build(alloc, 1000)?;
    let mix = Mix::build(alloc, phase, &logs)?;
    Ok(mix.h(0, k))
}

#[test]
fn mixing_of_ten_parts_at_1000_kelvin(rt: HostRuntime) -> Result<(), Fail> {
    let alloc = rt.alloc();
    let phase = solution_of_10(alloc)?;
    for k in 0..11u16 {
        assert_eq!(rt; mixing(alloc, &phase, k)?, MIXING[usize::from(k)]);
    }
    Ok(())
}

/// The energy of a list of counts, in µJ/mol.
#[tactic(auto, using(crate::proofs::Phases::shapes))]
fn energy(alloc: Global, phase: &PhaseAt, site: &Site) -> Result<i128, Fail>
    requires { IsFine phase.now }
{
    if !is_list(phase, site) {
        return Err("no list of the phase".into());
    }
    let logs = Logs::build(alloc, 600_000)?;
    let model = SumPhase::build(alloc, phase, &logs)?;
    Ok(model.value(site))
}

#[test]
fn the_energy_of_a_cementite_of_iron_and_chromium(rt: HostRuntime) -> Result<(), Fail> {
    let alloc = rt.alloc();
    let phase = cementite(alloc)?;
    let metals = Site::new(alloc).with_sublattice(&[30, 70])?;
    let site = metals.with_sublattice(&[100])?;
    assert_eq!(rt; energy(alloc, &phase, &site)?, -237_270_514_030);
    Ok(())
}

/// The energies of 0, 3, 6 and 10 of 10 parts of the first of two elements at 800 K, in µJ/mol, by another program.
const WITH_MAGNETISM: [([u16; 2], i128); 4] = [
    ([0, 10], -1_944_430_848),
    ([3, 7], -7_041_407_346),
    ([6, 4], -12_877_146_107),
    ([10, 0], -20_000_000_000),
];

#[test]
fn the_energies_of_a_solution_with_magnetism(rt: HostRuntime) -> Result<(), Fail> {
    let alloc = rt.alloc();
    let phase = magnetic_pair(alloc)?;
    for (counts, expected) in WITH_MAGNETISM {
        let site = Site::new(alloc).with_sublattice(&counts)?;
        assert_eq!(rt; energy(alloc, &phase, &site)?, expected);
    }
    Ok(())
}
