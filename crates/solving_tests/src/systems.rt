ghost use Rattle.std.specs.Prelude.{◌≡◌, ◌≤◌, ◌∷◌, [], Some, All, IfOk, length, map, pos, ◌≤ℤ◌};
ghost use Rattle.cef_core.specs.Phases.{IsFine};
ghost use Rattle.cef_core.specs.Systems.{IsSystem};
ghost use Rattle.cal_limits.specs.declared.TheConstants.{MOST_ASKED};
ghost use Rattle.solving_tests.specs.Compounds.{compound, of_two, reference_of};

use cal_list::{Items, one};
use cal_log::Logs;
use cef_core::{Kind, Name, ParamAt, PhaseAt, System};
use cef_phase::models_of;
use cef_report::Report;
use eq_solve::{SolveFault, equilibrium};
use std::alloc::{AllocError, Global};

fn pair<T: Drop>(alloc: Global, first: T, second: T) -> Result<Items<T>, AllocError>
    ensures { IfOk result (λ items. items ≡ first ∷ second ∷ []) }
{
    let mut items = one(alloc, first)?;
    items.push(second)?;
    Ok(items)
}

fn site(alloc: Global, component: u16) -> Result<Items<Option<u16>>, AllocError>
    ensures { IfOk result (λ items. items ≡ Some component ∷ []) }
{
    let items = one(alloc, Some(component))?;
    Ok(items)
}

fn reference(alloc: Global, micro: i128) -> Result<Items<ParamAt>, AllocError>
    ensures { IfOk result (λ items. items ≡ reference_of micro) }
{
    let first = one(alloc, 0)?;
    let second = one(alloc, 0)?;
    let array = pair(alloc, first, second)?;
    let parameters = one(
        alloc,
        ParamAt {
            kind: Kind::G,
            micro,
            array,
            order: 0,
            weighted: false,
        },
    )?;
    Ok(parameters)
}

/// A compound of A and B, with its energy in µJ/mol.
pub(crate) fn compound(
    alloc: Global,
    name: &[u8],
    scale: u32,
    a: u32,
    b: u32,
    micro: i128,
) -> Result<PhaseAt, AllocError>
    ensures { IfOk result (λ phase. phase ≡ compound name.now scale a b micro) }
{
    let first = site(alloc, 0)?;
    let second = site(alloc, 1)?;
    let ratios = pair(alloc, a, b)?;
    let sites = pair(alloc, first, second)?;
    let parameters = reference(alloc, micro)?;
    let kept = Name::from_bytes(alloc, name)?;
    Ok(PhaseAt {
        name: kept,
        t: 100_000,
        lattice: 10,
        scale,
        ratios,
        sites,
        parameters,
        magnetic: None,
    })
}

/// The system of two compounds, for the elements A and B.
pub(crate) fn of_two(
    alloc: Global,
    first: PhaseAt,
    second: PhaseAt,
    widest: u64,
) -> Result<System, AllocError>
    ensures { IfOk result (λ system. system ≡ of_two first second widest) }
{
    let a = Name::from_bytes(alloc, b"A")?;
    let b = Name::from_bytes(alloc, b"B")?;
    let elements = pair(alloc, a, b)?;
    let phases = pair(alloc, first, second)?;
    Ok(System {
        t: 100_000,
        lattice: 10,
        elements,
        phases,
        lists: 2,
        widest,
    })
}

/// `A2B` and `AB2`, both of -30000 J/mol.
pub(crate) fn two_compounds(alloc: Global) -> Result<System, AllocError>
    ensures system { IfOk result (λ system. IsSystem system) }
    ensures elements { IfOk result (λ system. length system.elements ≡ 2) }
{
    let first = compound(alloc, b"A2B", 1, 2, 1, -30_000_000_000)?;
    let second = compound(alloc, b"AB2", 1, 1, 2, -30_000_000_000)?;
    let system = of_two(alloc, first, second, 30)?;
    Ok(system)
}

/// `LO` of the ratios .75 and .25 and of -10000 J/mol, and `HI` of 1 and 3 and of -40000 J/mol.
pub(crate) fn unequal_ratios(alloc: Global) -> Result<System, AllocError>
    ensures system { IfOk result (λ system. IsSystem system) }
    ensures elements { IfOk result (λ system. length system.elements ≡ 2) }
{
    let first = compound(alloc, b"LO", 100, 75, 25, -1_000_000_000_000)?;
    let second = compound(alloc, b"HI", 1, 1, 3, -40_000_000_000)?;
    let system = of_two(alloc, first, second, 1000)?;
    Ok(system)
}

/// The equilibrium of these amounts of A and B, in units of 1/10 nmol, with a gap of 1 J/mol.
pub(crate) fn report_of(
    alloc: Global,
    logs: &Logs,
    system: &System,
    a: i128,
    b: i128,
) -> Result<Report, SolveFault>
    requires logs { 501001 ≤ logs.now }
    requires system { IsSystem system.now }
    requires elements { length system.now.elements ≡ 2 }
    requires a_low { pos 1 ≤ℤ a }
    requires a_high { a ≤ℤ pos MOST_ASKED }
    requires b_low { pos 0 ≤ℤ b }
    requires b_high { b ≤ℤ pos MOST_ASKED }
{
    let models = models_of(alloc, system.phases.as_slice(), logs)?;
    let report = equilibrium(alloc, system, &models, &[a, b], 1_000_000, 0)?;
    Ok(report)
}
