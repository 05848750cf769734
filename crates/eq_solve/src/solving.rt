ghost use Rattle.std.specs.Prelude.{◌≡◌, ◌≤◌, map, length, IfOk, IfErr};
ghost use Rattle.cal_limits.specs.declared.TheConstants.{LEAST_GAP, MOST_GAP};
ghost use Rattle.cef_core.specs.Systems.{IsSystem};
ghost use Rattle.cef_report.specs.Holding.{Holds};
ghost use Rattle.cef_report.specs.Certificates.{IsCertified};
ghost use Rattle.cef_report.specs.Feasibility.{AreAsked, IsFeasible};
ghost use Rattle.cef_report.specs.Spelled.{IsSpelled};
ghost use Rattle.eq_sweep.specs.declared.swept.Swept.TheVariants.{Closed};
ghost use Rattle.eq_sweep.specs.Sweeps.{IsSweep};
ghost use Rattle.eq_solve.specs.Answers.{IsFault, IsNear};

use crate::fault::SolveFault;
use crate::modelled::{Modelled, searches_of, starts_of};
use crate::near::nearest;
use crate::report::report_of;
use crate::rounds::equilibrium_by_rounds;
use crate::solved::Solved;
use cef_core::System;
use cef_phase::PhaseModel;
use cef_report::{Entry, Report};
use std::alloc::Global;

/// The equilibrium of a system for the asked totals, in units of 1/N nmol, with a gap of at most the asked one, in µJ per mol of
/// components. The budget is the number of splits of boxes that each sweep may make. `models` are those of the system's phases, in order.
/// The search starts from the given constitutions too: any serve, those that are none are left out, and the better they are the fewer rounds it
/// takes.
pub fn equilibrium_from<P: PhaseModel>(
    alloc: Global,
    system: &System,
    models: &[P],
    starts: &[Entry],
    asked: &[i128],
    gap: u64,
    budget: u64,
) -> Result<Solved, SolveFault>
    requires system { IsSystem system.now }
    requires models { map P.phase_of models.now ≡ system.now.phases }
    requires asked { AreAsked system.now asked.now }
    requires gap_low { LEAST_GAP ≤ gap }
    requires gap_high { gap ≤ MOST_GAP }
    ensures holds { IfOk result (λ r. Holds system.now asked.now r.report) }
    ensures certified { IfOk result (λ r. IsCertified system.now gap r.report) }
    ensures near { IfOk result (λ r. IsNear system.now r.report) }
    ensures spelled { IfOk result (λ r. IsSpelled r.report) }
    ensures trees { IfOk result (λ r. IsSweep system.now.phases r.report.potentials budget (Closed r.report.trees)) }

    // An answer other than `Infeasible` and `Memory` comes only where the asked totals are feasible.
    ensures feasible { IfOk result (λ r. IsFeasible system.now asked.now) }
    ensures fault { IfErr result (λ fault. IsFault system.now (IsSweep system.now.phases) asked.now gap budget fault) }
{
    let searches = searches_of(alloc, models, system.elements.len())?;
    let phases = Modelled {
        system,
        models,
        searches,
    };
    let ends = starts_of(alloc, system.phases.as_slice())?;
    let reached = equilibrium_by_rounds(alloc, system, &phases, &ends, starts, asked, gap, budget)?;
    let near = nearest(alloc, reached.found.potentials.as_slice(), &reached.known)?;
    let report = report_of(alloc, system, asked, reached.found)?;
    Ok(Solved { report, near })
}

/// The equilibrium of a system for the asked totals, in units of 1/N nmol, with a gap of at most the asked one, in µJ per mol of
/// components. The budget is the number of splits of boxes that each sweep may make. `models` are those of the system's phases, in order.
pub fn equilibrium<P: PhaseModel>(
    alloc: Global,
    system: &System,
    models: &[P],
    asked: &[i128],
    gap: u64,
    budget: u64,
) -> Result<Report, SolveFault>
    requires system { IsSystem system.now }
    requires models { map P.phase_of models.now ≡ system.now.phases }
    requires asked { AreAsked system.now asked.now }
    requires gap_low { LEAST_GAP ≤ gap }
    requires gap_high { gap ≤ MOST_GAP }
    ensures holds { IfOk result (λ r. Holds system.now asked.now r) }
    ensures certified { IfOk result (λ r. IsCertified system.now gap r) }
    ensures near { IfOk result (λ r. IsNear system.now r) }
    ensures spelled { IfOk result (λ r. IsSpelled r) }
    ensures trees { IfOk result (λ r. IsSweep system.now.phases r.potentials budget (Closed r.trees)) }

    // An answer other than `Infeasible` and `Memory` comes only where the asked totals are feasible.
    ensures feasible { IfOk result (λ r. IsFeasible system.now asked.now) }
    ensures fault { IfErr result (λ fault. IsFault system.now (IsSweep system.now.phases) asked.now gap budget fault) }
{
    let solved = equilibrium_from(alloc, system, models, &[], asked, gap, budget)?;
    Ok(solved.report)
}
