//! Solutions of three elements on a lattice of 10, with one interaction of 10^9 and one of -10^9 µJ/mol.

ghost use Rattle.std.specs.Prelude.{◌≡◌, ◌≤◌, ◌∷◌, [], IfOk, Some, pos, negsuc, true, false};
ghost use Rattle.cef_core.specs.Phases.{IsFine};
ghost use Rattle.cef_core.specs.Shapes.{shape};
ghost use Rattle.minor_tests.specs.Samples.{energy_parameter, both_signs, solution};

use cal_list::{Items, one};
use cef_core::{Kind, Name, ParamAt, PhaseAt};
use std::alloc::{AllocError, Global};

/// The places of the first two elements.
fn two_places(alloc: Global) -> Result<Items<u16>, AllocError>
    ensures { IfOk result (λ places. places ≡ 0 ∷ 1 ∷ []) }
{
    let mut places = one(alloc, 0)?;
    places.push(1)?;
    Ok(places)
}

/// The places of all three elements.
fn three_places(alloc: Global) -> Result<Items<u16>, AllocError>
    ensures { IfOk result (λ places. places ≡ 0 ∷ 1 ∷ 2 ∷ []) }
{
    let mut places = two_places(alloc)?;
    places.push(2)?;
    Ok(places)
}

/// The three elements.
fn row_of(alloc: Global) -> Result<Items<Option<u16>>, AllocError>
    ensures { IfOk result (λ row. row ≡ Some 0 ∷ Some 1 ∷ Some 2 ∷ []) }
{
    let mut row = one(alloc, Some(0))?;
    row.push(Some(1))?;
    row.push(Some(2))?;
    Ok(row)
}

/// A parameter of one sublattice.
fn energy(
    alloc: Global,
    micro: i128,
    places: Items<u16>,
    order: u8,
    weighted: bool,
) -> Result<ParamAt, AllocError>
    ensures { IfOk result (λ p. p ≡ energy_parameter micro places order weighted) }
{
    let array = one(alloc, places)?;
    Ok(ParamAt {
        kind: Kind::G,
        micro,
        array,
        order,
        weighted,
    })
}

/// Its parameters.
fn both_signs(
    alloc: Global,
    above: Items<u16>,
    below: Items<u16>,
    order: u8,
    weighted: bool,
) -> Result<Items<ParamAt>, AllocError>
    requires { above ≡ below }
    ensures { IfOk result (λ ps. ps ≡ both_signs above order weighted) }
{
    let first = energy(alloc, 1_000_000_000, above, order, weighted)?;
    let second = energy(alloc, -1_000_000_000, below, order, weighted)?;
    let mut parameters = one(alloc, first)?;
    parameters.push(second)?;
    Ok(parameters)
}

#[tactic(auto, unfolding(crate::specs::Samples::solution))]
fn solution(
    alloc: Global,
    above: Items<u16>,
    below: Items<u16>,
    order: u8,
    weighted: bool,
) -> Result<PhaseAt, AllocError>
    requires { above ≡ below }
    ensures { IfOk result (λ phase. phase ≡ solution above order weighted) }
{
    let name = Name::from_bytes(alloc, b"S")?;
    let ratios = one(alloc, 1)?;
    let sites = one(alloc, row_of(alloc)?)?;
    let parameters = both_signs(alloc, above, below, order, weighted)?;
    Ok(PhaseAt {
        name,
        t: 100_000,
        lattice: 10,
        scale: 1,
        ratios,
        sites,
        parameters,
        magnetic: None,
    })
}

/// An interaction of the first two elements.
#[tactic(auto, using(crate::proofs::Fine::samples))]
pub fn with_pair(alloc: Global, order: u8) -> Result<PhaseAt, AllocError>
    requires { order ≤ 9 }
    ensures fine { IfOk result (λ phase. IsFine phase) }
    ensures lattice { IfOk result (λ phase. phase.lattice ≡ 10) }
    ensures sites { IfOk result (λ phase. shape phase.sites ≡ 3 ∷ []) }
{
    let above = two_places(alloc)?;
    let below = two_places(alloc)?;
    let phase = solution(alloc, above, below, order, false)?;
    Ok(phase)
}

/// An interaction of all three that is not weighted.
#[tactic(auto, using(crate::proofs::Fine::samples))]
pub fn with_triple(alloc: Global) -> Result<PhaseAt, AllocError>
    ensures fine { IfOk result (λ phase. IsFine phase) }
    ensures lattice { IfOk result (λ phase. phase.lattice ≡ 10) }
    ensures sites { IfOk result (λ phase. shape phase.sites ≡ 3 ∷ []) }
{
    let above = three_places(alloc)?;
    let below = three_places(alloc)?;
    let phase = solution(alloc, above, below, 0, false)?;
    Ok(phase)
}

/// A weighted interaction of all three.
#[tactic(auto, using(crate::proofs::Fine::samples))]
pub fn with_weighted(alloc: Global, order: u8) -> Result<PhaseAt, AllocError>
    requires { order ≤ 2 }
    ensures fine { IfOk result (λ phase. IsFine phase) }
    ensures lattice { IfOk result (λ phase. phase.lattice ≡ 10) }
    ensures sites { IfOk result (λ phase. shape phase.sites ≡ 3 ∷ []) }
{
    let above = three_places(alloc)?;
    let below = three_places(alloc)?;
    let phase = solution(alloc, above, below, order, true)?;
    Ok(phase)
}
