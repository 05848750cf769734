ghost use Rattle.std.specs.Prelude.{◌≡◌, IfOk, IfErr};
ghost use Rattle.cef_report.specs.Feasibility.{IsFeasible};
ghost use Rattle.eq_solve.specs.Answers.{IsFault};
ghost use Rattle.eq_solve.specs.Finding.{IsFound};
ghost use Rattle.eq_solve.specs.Knowing.{IsKnowing, LeavesLess, LeavesNoMore};
ghost use Rattle.eq_solve.specs.Points.{IsKnownAs, IsNew};
ghost use Rattle.eq_solve.specs.Rounds.{CanSolve};

use crate::fault::SolveFault;
use crate::known::{Known, Reached};
use crate::phases::Phases;
use crate::point::{Gain, Point, Round};
use crate::proposal::is_constitution;
use crate::round::round;
use cef_core::System;
use cef_report::Entry;
use std::alloc::{AllocError, Global};

/// What is known with an entry among it, where that has a constitution.
fn with_entry<P: Phases>(
    alloc: Global,
    system: &System,
    phases: &P,
    known: Known,
    start: &Entry,
) -> Result<Known, AllocError>
    requires ready { P.ready phases.now }
    requires same { P.system phases.now ≡ system.now }
    requires known { IsKnowing system.now known }
    ensures known { IfOk result (λ more. IsKnowing system.now more) }
    ensures fewer { IfOk result (λ more. LeavesNoMore system.now known more) }
{
    if is_constitution(system, start) {
        let site = start.site.copy(alloc)?;
        let entry = Entry {
            phase: start.phase,
            amount: 0,
            site,
        };
        let column = phases.column(alloc, &entry)?;
        let more = known.with(Point { entry, column })?;
        Ok(more)
    } else {
        Ok(known)
    }
}

/// What is known with those of these entries among it that have constitutions.
fn with_entries<P: Phases>(
    alloc: Global,
    system: &System,
    phases: &P,
    known: Known,
    entries: &[Entry],
) -> Result<Known, AllocError>
    requires ready { P.ready phases.now }
    requires same { P.system phases.now ≡ system.now }
    requires known { IsKnowing system.now known }
    ensures known { IfOk result (λ more. IsKnowing system.now more) }
    ensures fewer { IfOk result (λ more. LeavesNoMore system.now known more) }
{
    let mut more = known;
    'entries: for entry in entries {
        more = with_entry(alloc, system, phases, more, entry)?;
    }
    Ok(more)
}

/// What is known with what a round has gained.
fn with_gain<P: Phases>(
    alloc: Global,
    system: &System,
    phases: &P,
    known: Known,
    gain: Gain,
) -> Result<Known, AllocError>
    requires ready { P.ready phases.now }
    requires same { P.system phases.now ≡ system.now }
    requires known { IsKnowing system.now known }
    requires point { IsKnownAs system.now gain.first.entry gain.first.column }
    requires new { IsNew known.entries.items gain.first.entry }
    ensures known { IfOk result (λ more. IsKnowing system.now more) }
    ensures fewer { IfOk result (λ more. LeavesLess system.now known more) }
{
    let Gain { first, others } = gain;
    let with_first = known.with(first)?;
    let all = with_entries(alloc, system, phases, with_first, &others)?;
    Ok(all)
}

/// The numbers of an equilibrium of a system for the asked totals in units of 1/N nmol, the asked gap in µJ per mol of components, and the
/// budget of splits of each sweep. It works in rounds: an exact plan over the known constitutions, and a sweep under its potentials, lowered
/// by the margin, which closes or finds a constitution that was not known. Any starts and any further ones serve: those that are no constitutions are left
/// out.
pub(crate) fn equilibrium_by_rounds<P: Phases>(
    alloc: Global,
    system: &System,
    phases: &P,
    starts: &[Entry],
    further: &[Entry],
    asked: &[i128],
    gap: u64,
    budget: u64,
) -> Result<Reached, SolveFault>
    requires ready { P.ready phases.now }
    requires same { P.system phases.now ≡ system.now }
    requires can { CanSolve system.now asked.now gap }
    ensures found { IfOk result (λ r. IsFound system.now (P.swept phases.now) asked.now gap budget r.found) }

    // An answer other than `Infeasible` and `Memory` comes only where the asked totals are feasible.
    ensures feasible { IfOk result (λ r. IsFeasible system.now asked.now) }
    ensures fault { IfErr result (λ fault. IsFault system.now (P.swept phases.now) asked.now gap budget fault) }
{
    let begun = with_entries(alloc, system, phases, Known::new(alloc), starts)?;
    let mut known = with_entries(alloc, system, phases, begun, further)?;
    'rounds: loop {
        let next = round(
            alloc,
            system,
            phases,
            asked,
            gap,
            budget,
            &known.entries,
            &known.columns,
        )?;
        match next {
            Round::Done(found) => return Ok(Reached { found, known }),
            Round::Next(gain) => {
                known = with_gain(alloc, system, phases, known, gain)?;
            }
        }
    }
}
