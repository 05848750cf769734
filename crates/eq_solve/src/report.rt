ghost use Rattle.std.specs.Prelude.{◌≡◌, ◌≤◌, IfOk, map, length};
ghost use Rattle.eq_solve.specs.Reporting.{Reports};

use crate::found::Found;
use cal_list::Items;
use cef_core::{Name, PhaseAt, System};
use cef_report::Report;
use std::alloc::{AllocError, Global};

/// The names of phases.
pub fn phase_names(alloc: Global, phases: &[PhaseAt]) -> Result<Items<Name>, AllocError>
    ensures { IfOk result (λ names. names ≡ map (λ phase. phase.name) phases.now) }
{
    let mut names = Items::new(alloc);
    'phases: for phase in phases {
        names.push(phase.name.copy()?)?;
    }
    Ok(names)
}

fn copies(alloc: Global, names: &[Name]) -> Result<Items<Name>, AllocError>
    ensures { IfOk result (λ copies. copies ≡ names.now) }
{
    let mut copies = Items::new(alloc);
    'names: for name in names {
        copies.push(name.copy()?)?;
    }
    Ok(copies)
}

fn numbers_of(alloc: Global, numbers: &[i128]) -> Result<Items<i128>, AllocError>
    ensures { IfOk result (λ copy. copy ≡ numbers.now) }
{
    let mut copy = Items::new(alloc);
    'numbers: for number in numbers {
        copy.push(*number)?;
    }
    Ok(copy)
}

/// The report of what was found.
pub(crate) fn report_of(
    alloc: Global,
    system: &System,
    asked: &[i128],
    found: Found,
) -> Result<Report, AllocError>
    ensures { IfOk result (λ report. Reports system.now asked.now found report) }
{
    let elements = copies(alloc, system.elements.as_slice())?;
    let phases = phase_names(alloc, system.phases.as_slice())?;
    let asked_numbers = numbers_of(alloc, asked)?;
    Ok(Report {
        t: system.t,
        lattice: system.lattice,
        elements,
        phases,
        asked: asked_numbers,
        entries: found.entries,
        totals: found.totals,
        energy: found.energy,
        tolerance: found.tolerance,
        gap: found.gap,
        potentials: found.potentials,
        trees: found.trees,
    })
}
