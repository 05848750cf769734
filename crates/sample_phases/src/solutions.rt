//! Solutions on one sublattice at 1000 K.

ghost use Rattle.std.specs.Prelude.{◌≡◌, ◌∷◌, [], IfOk, Some, pos, true, false};
ghost use Rattle.cef_core.specs.Phases.{IsFine};
ghost use Rattle.cef_core.specs.Shapes.{shape};
ghost use Rattle.sample_phases.specs.Samples.{energy_parameter, solution_parameters, solution, ideal, HasPlanes};

use crate::lists::{three, two};
use cal_list::{Items, one};
use cef_core::{Kind, Name, ParamAt, PhaseAt};
use std::alloc::{AllocError, Global};

/// A parameter of 1000 J/mol.
fn energy(array: Items<Items<u16>>, order: u8, weighted: bool) -> ParamAt
    ensures { result ≡ energy_parameter (pos 1000000000) array order weighted }
{
    ParamAt {
        kind: Kind::G,
        micro: 1_000_000_000,
        array,
        order,
        weighted,
    }
}

/// An interaction of order 1 of two elements.
fn binary(alloc: Global, first: u16, second: u16) -> Result<ParamAt, AllocError>
    ensures { IfOk result (λ p. p ≡ energy_parameter (pos 1000000000) ((first ∷ second ∷ []) ∷ []) 1 false) }
{
    let array = one(alloc, two(alloc, first, second)?)?;
    Ok(energy(array, 1, false))
}

/// An interaction of order 0 of three elements.
fn ternary(alloc: Global, weighted: bool) -> Result<ParamAt, AllocError>
    ensures { IfOk result (λ p. p ≡ energy_parameter (pos 1000000000) ((0 ∷ 1 ∷ 2 ∷ []) ∷ []) 0 weighted) }
{
    let array = one(alloc, three(alloc, 0, 1, 2)?)?;
    Ok(energy(array, 0, weighted))
}

fn solution_parameters(alloc: Global) -> Result<Items<ParamAt>, AllocError>
    ensures { IfOk result (λ ps. ps ≡ solution_parameters) }
{
    let mut parameters = one(alloc, binary(alloc, 0, 1)?)?;
    parameters.push(binary(alloc, 1, 0)?)?;
    parameters.push(ternary(alloc, false)?)?;
    parameters.push(ternary(alloc, true)?)?;
    Ok(parameters)
}

/// Three elements with interactions.
#[tactic(auto, unfolding(crate::specs::Samples::solution))]
fn solution(alloc: Global, lattice: u32) -> Result<PhaseAt, AllocError>
    ensures { IfOk result (λ phase. phase ≡ solution lattice) }
{
    let name = Name::from_bytes(alloc, b"S")?;
    let ratios = one(alloc, 1)?;
    let sites = one(alloc, three(alloc, Some(0), Some(1), Some(2))?)?;
    let parameters = solution_parameters(alloc)?;
    Ok(PhaseAt {
        name,
        t: 100_000,
        lattice,
        scale: 1,
        ratios,
        sites,
        parameters,
        magnetic: None,
    })
}

/// Ideal mixing alone.
#[tactic(auto, unfolding(crate::specs::Samples::ideal))]
fn ideal(alloc: Global, row: Items<Option<u16>>) -> Result<PhaseAt, AllocError>
    ensures { IfOk result (λ phase. phase ≡ ideal row) }
{
    let name = Name::from_bytes(alloc, b"S")?;
    let ratios = one(alloc, 1)?;
    let sites = one(alloc, row)?;
    Ok(PhaseAt {
        name,
        t: 100_000,
        lattice: 10,
        scale: 1,
        ratios,
        sites,
        parameters: Items::new(alloc),
        magnetic: None,
    })
}

/// The solution of three elements on a lattice of 10.
pub fn solution_of_10(alloc: Global) -> Result<PhaseAt, AllocError>
    ensures fine { IfOk result (λ phase. IsFine phase) }
    ensures lattice { IfOk result (λ phase. phase.lattice ≡ 10) }
    ensures sites { IfOk result (λ phase. shape phase.sites ≡ 3 ∷ []) }
{
    let phase = solution(alloc, 10)?;
    Ok(phase)
}

/// The same on a lattice of 100.
pub fn solution_of_100(alloc: Global) -> Result<PhaseAt, AllocError>
    ensures { IfOk result (λ phase. IsFine phase) }
{
    let phase = solution(alloc, 100)?;
    Ok(phase)
}

/// Ideal mixing of two elements on a lattice of 10.
pub fn pair(alloc: Global) -> Result<PhaseAt, AllocError>
    ensures fine { IfOk result (λ phase. IsFine phase) }
    ensures lattice { IfOk result (λ phase. phase.lattice ≡ 10) }
    ensures sites { IfOk result (λ phase. shape phase.sites ≡ 2 ∷ []) }
    ensures planes { IfOk result HasPlanes }
{
    let row = two(alloc, Some(0), Some(1))?;
    let phase = ideal(alloc, row)?;
    Ok(phase)
}

/// One element alone.
pub fn single(alloc: Global) -> Result<PhaseAt, AllocError>
    ensures fine { IfOk result (λ phase. IsFine phase) }
    ensures planes { IfOk result HasPlanes }
{
    let row = one(alloc, Some(0))?;
    let phase = ideal(alloc, row)?;
    Ok(phase)
}

/// Vacancies alone.
pub fn vacant(alloc: Global) -> Result<PhaseAt, AllocError>
    ensures fine { IfOk result (λ phase. IsFine phase) }
    ensures planes { IfOk result HasPlanes }
{
    let row = one(alloc, None)?;
    let phase = ideal(alloc, row)?;
    Ok(phase)
}
