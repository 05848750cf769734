//! The cementite (CR, FE)3 C.

ghost use Rattle.std.specs.Prelude.{◌≡◌, ◌∷◌, [], IfOk, false};
ghost use Rattle.cef_core.specs.Phases.{IsFine};
ghost use Rattle.sample_phases.specs.Samples.{energy_parameter, cementite_parameters, cementite};

use crate::lists::{three, two};
use cal_list::{Items, one};
use cef_core::{Kind, Name, ParamAt, PhaseAt};
use std::alloc::{AllocError, Global};

/// A parameter of two sublattices with one constituent on the second, in µJ/mol.
fn compound(alloc: Global, micro: i128, list: Items<u16>) -> Result<ParamAt, AllocError>
    ensures { IfOk result (λ p. p ≡ energy_parameter micro (list ∷ (0 ∷ []) ∷ []) 0 false) }
{
    let array = two(alloc, list, one(alloc, 0)?)?;
    Ok(ParamAt {
        kind: Kind::G,
        micro,
        array,
        order: 0,
        weighted: false,
    })
}

fn cementite_parameters(alloc: Global) -> Result<Items<ParamAt>, AllocError>
    ensures { IfOk result (λ ps. ps ≡ cementite_parameters) }
{
    let chromium = compound(alloc, -239_364_429_316, one(alloc, 0)?)?;
    let iron = compound(alloc, -209_559_442_552, one(alloc, 1)?)?;
    let both = compound(alloc, 2_997_875_000, two(alloc, 0, 1)?)?;
    three(alloc, chromium, iron, both)
}

/// As its definition says.
#[tactic(auto, unfolding(crate::specs::Samples::cementite))]
fn cementite_of_100(alloc: Global) -> Result<PhaseAt, AllocError>
    ensures { IfOk result (λ phase. phase ≡ cementite) }
{
    let name = Name::from_bytes(alloc, b"S")?;
    let ratios = two(alloc, 3, 1)?;
    let sites = two(alloc, two(alloc, Some(1), Some(2))?, one(alloc, Some(0))?)?;
    let parameters = cementite_parameters(alloc)?;
    Ok(PhaseAt {
        name,
        t: 127_315,
        lattice: 100,
        scale: 1,
        ratios,
        sites,
        parameters,
        magnetic: None,
    })
}

/// The cementite at 1273.15 K, on a lattice of 100, of the components C, CR and FE.
pub fn cementite(alloc: Global) -> Result<PhaseAt, AllocError>
    ensures { IfOk result (λ phase. IsFine phase) }
{
    let phase = cementite_of_100(alloc)?;
    Ok(phase)
}
