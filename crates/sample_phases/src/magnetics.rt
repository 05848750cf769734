//! A solution with magnetism.

ghost use Rattle.std.specs.Prelude.{◌≡◌, ◌∷◌, [], IfOk};
ghost use Rattle.cef_core.specs.Phases.{IsFine};
ghost use Rattle.cef_core.specs.Shapes.{shape};
ghost use Rattle.sample_phases.specs.Samples.{parameter_of, magnetic_parameters, magnetic_solution, HasPlanes};

use crate::lists::{three, two};
use cal_list::{Items, one};
use cef_core::{Kind, MagneticAt, Name, ParamAt, PhaseAt};
use std::alloc::{AllocError, Global};

/// A parameter of one sublattice.
fn parameter(
    alloc: Global,
    kind: Kind,
    micro: i128,
    places: Items<u16>,
) -> Result<ParamAt, AllocError>
    ensures { IfOk result (λ p. p ≡ parameter_of kind micro places) }
{
    let array = one(alloc, places)?;
    Ok(ParamAt {
        kind,
        micro,
        array,
        order: 0,
        weighted: false,
    })
}

fn magnetic_parameters(alloc: Global) -> Result<Items<ParamAt>, AllocError>
    ensures { IfOk result (λ ps. ps ≡ magnetic_parameters) }
{
    let end = parameter(alloc, Kind::G, -20_000_000_000, one(alloc, 0)?)?;
    let both = parameter(alloc, Kind::G, 15_000_000_000, two(alloc, 0, 1)?)?;
    let below = parameter(alloc, Kind::Tc, -311_500_000, one(alloc, 0)?)?;
    let above = parameter(alloc, Kind::Tc, 1_043_000_000, one(alloc, 1)?)?;
    let moment = parameter(alloc, Kind::Beta, 2_220_000, one(alloc, 1)?)?;
    let mut parameters = three(alloc, end, both, below)?;
    parameters.push(above)?;
    parameters.push(moment)?;
    Ok(parameters)
}

/// Two elements on one sublattice at 800 K, with magnetism.
#[tactic(auto, unfolding(crate::specs::Samples::magnetic_solution))]
fn magnetic_solution(alloc: Global) -> Result<PhaseAt, AllocError>
    ensures { IfOk result (λ phase. phase ≡ magnetic_solution) }
{
    let name = Name::from_bytes(alloc, b"S")?;
    let ratios = one(alloc, 1)?;
    let sites = one(alloc, two(alloc, Some(0), Some(1))?)?;
    let parameters = magnetic_parameters(alloc)?;
    Ok(PhaseAt {
        name,
        t: 80_000,
        lattice: 10,
        scale: 1,
        ratios,
        sites,
        parameters,
        magnetic: Some(MagneticAt {
            factor: 1,
            p4: 4000,
        }),
    })
}

/// The solution with magnetism, of two elements on a lattice of 10.
pub fn magnetic_pair(alloc: Global) -> Result<PhaseAt, AllocError>
    ensures fine { IfOk result (λ phase. IsFine phase) }
    ensures lattice { IfOk result (λ phase. phase.lattice ≡ 10) }
    ensures sites { IfOk result (λ phase. shape phase.sites ≡ 2 ∷ []) }
    ensures planes { IfOk result HasPlanes }
{
    let phase = magnetic_solution(alloc)?;
    Ok(phase)
}
