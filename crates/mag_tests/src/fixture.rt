//! A phase of two elements on one sublattice, with a Curie temperature and a moment.

ghost use Rattle.std.specs.Prelude.{◌≡◌, ◌≤◌, ◌∷◌, [], IfOk};
ghost use Rattle.mag_tests.specs.Fixtures.{parameter, curie_parameter, curie_interaction, moment_parameter, moment_interaction, alloy};

use cal_list::{Items, one};
use cef_core::{Kind, MagneticAt, Name, ParamAt, PhaseAt};
use std::alloc::{AllocError, Global};

pub fn two<T: Drop>(alloc: Global, first: T, second: T) -> Result<Items<T>, AllocError>
    ensures { IfOk result (λ items. items ≡ first ∷ second ∷ []) }
{
    let mut items = one(alloc, first)?;
    items.push(second)?;
    Ok(items)
}

fn parameter(kind: Kind, micro: i128, array: Items<Items<u16>>) -> ParamAt
    ensures { result ≡ parameter kind micro array }
{
    ParamAt {
        kind,
        micro,
        array,
        order: 0,
        weighted: false,
    }
}

/// A parameter of the first element.
fn of_element(alloc: Global, kind: Kind, micro: i128) -> Result<ParamAt, AllocError>
    ensures { IfOk result (λ p. p ≡ parameter kind micro ((0 ∷ []) ∷ [])) }
{
    let array = one(alloc, one(alloc, 0)?)?;
    Ok(parameter(kind, micro, array))
}

/// An interaction of the two.
fn of_both(alloc: Global, kind: Kind, micro: i128) -> Result<ParamAt, AllocError>
    ensures { IfOk result (λ p. p ≡ parameter kind micro ((0 ∷ 1 ∷ []) ∷ [])) }
{
    let array = one(alloc, two(alloc, 0, 1)?)?;
    Ok(parameter(kind, micro, array))
}

fn alloy_parameters(alloc: Global) -> Result<Items<ParamAt>, AllocError>
    ensures { IfOk result (λ ps. ps ≡ curie_parameter ∷ curie_interaction ∷ moment_parameter ∷ moment_interaction ∷ []) }
{
    let mut parameters = one(alloc, of_element(alloc, Kind::Tc, 1_043_000_000)?)?;
    parameters.push(of_both(alloc, Kind::Tc, 1_650_000_000)?)?;
    parameters.push(of_element(alloc, Kind::Beta, 2_220_000)?)?;
    parameters.push(of_both(alloc, Kind::Beta, -850_000)?)?;
    Ok(parameters)
}

/// The alloy at 1000 K, on a lattice of 10.
#[tactic(auto, unfolding(crate::specs::Fixtures::alloy))]
pub fn alloy(alloc: Global) -> Result<PhaseAt, AllocError>
    ensures { IfOk result (λ phase. phase ≡ alloy) }
{
    let name = Name::from_bytes(alloc, b"A")?;
    let ratios = one(alloc, 1)?;
    let sites = one(alloc, two(alloc, Some(0), Some(1))?)?;
    let parameters = alloy_parameters(alloc)?;
    Ok(PhaseAt {
        name,
        t: 100_000,
        lattice: 10,
        scale: 1,
        ratios,
        sites,
        parameters,
        magnetic: Some(MagneticAt {
            factor: 1,
            p4: 4000,
        }),
    })
}
