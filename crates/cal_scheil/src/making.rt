//! A step: the system at a temperature, its equilibrium, and what that makes of the account.

ghost use Rattle.std.specs.Prelude.{◌≡◌, ◌≤◌, map, IfOk, IfErr};
ghost use Rattle.cal_limits.specs.declared.TheConstants.{HIGHEST_TEMPERATURE, LEAST_GAP, MOST_GAP};
ghost use Rattle.cef_core.specs.Jobs.{IsJob};
ghost use Rattle.cef_core.specs.Systems.{IsSystem};
ghost use Rattle.cef_report.specs.Feasibility.{AreAsked};
ghost use Rattle.eq_solve.specs.Equilibria.{IsEquilibrium};
ghost use Rattle.cal_scheil.specs.Steps.{has_phase, IsSystemOf, IsUnsolved, IsStepFault, Makes};
ghost use Rattle.cal_scan.specs.Lines.{Word};
ghost use Rattle.cal_select.specs.Chosen.{is_in};
ghost use Rattle.cal_scheil.specs.Accounts.{account_in_order};
ghost use Rattle.cal_scheil.specs.Workings.{CanStep, IsNext, MakesOf};

use crate::account::{Account, account_after, account_in_order};
use crate::fault::StepFault;
use crate::job::PathJob;
use crate::left::left_of;
use cal_list::Items;
use cal_log::Logs;
use cal_scan::Name;
use cal_select::{SystemFault, system};
use cef_core::System;
use cef_phase::models_of;
use cef_report::{Entry, Report};
use eq_solve::{SolveFault, Solved, equilibrium_from};
use std::alloc::Global;
use tdb_read::Db;
use temp_fun::some_outcome;

/// A step that was made, what it makes of the account, and what the next one may start from.
#[derive(Drop)]
pub(crate) struct Made {
    pub(crate) report: Report,
    pub(crate) left: Items<i128>,
    pub(crate) account: Account,
    pub(crate) near: Vec<Entry>,
}

/// Whether a phase of the system has this name.
fn has_phase(system: &System, name: &Name) -> bool
    ensures { result ≡ has_phase system.now name.now }
{
    system
        .phases
        .as_slice()
        .iter()
        .any(|phase| phase.name == *name)
}

/// The system of the job, of which the liquid is a phase.
fn system_of(alloc: Global, db: &Db, logs: &Logs, job: &PathJob) -> Result<System, StepFault>
    requires job { IsJob job.now.job }
    requires logs { HIGHEST_TEMPERATURE ≤ logs.now }
    ensures system { IfOk result (λ system. IsSystemOf db.now job.now system) }
    ensures keeps { IfOk result IsSystem }
    ensures fault { IfErr result (λ fault. (account : Account) → IsStepFault db.now job.now account fault) }
{
    let found = system(alloc, db, logs, &job.job);
    match found {
        Err(SystemFault::Memory) => Err(StepFault::Memory),
        Err(fault) => Err(StepFault::System(fault)),
        Ok(system) => {
            if has_phase(&system, &job.liquid) {
                return Ok(system);
            }
            let liquid = job.liquid.copy()?;
            Err(StepFault::System(SystemFault::UnknownPhase(liquid)))
        }
    }
}

/// The equilibrium of the system for what is asked.
fn solved(
    alloc: Global,
    system: &System,
    logs: &Logs,
    job: &PathJob,
    asked: &[i128],
    starts: &[Entry],
) -> Result<Solved, StepFault>
    requires system { IsSystem system.now }
    requires logs { HIGHEST_TEMPERATURE ≤ logs.now }
    requires asked { AreAsked system.now asked.now }
    requires gap_low { LEAST_GAP ≤ job.now.gap }
    requires gap_high { job.now.gap ≤ MOST_GAP }
    ensures answers { IfOk result (λ solved. IsEquilibrium system.now asked.now job.now.gap job.now.budget solved.report) }
    ensures fault { IfErr result (λ fault. IsUnsolved system.now asked.now job.now fault) }
{
    let models = models_of(alloc, system.phases.as_slice(), logs)?;
    let found = equilibrium_from(
        alloc,
        system,
        models.as_slice(),
        starts,
        asked,
        job.gap,
        job.budget,
    );
    match found {
        Ok(solved) => Ok(solved),
        Err(SolveFault::Infeasible(numbers)) => Err(StepFault::Infeasible(numbers)),
        Err(SolveFault::GapNotClosed(left)) => Err(StepFault::GapNotClosed(left)),
        Err(SolveFault::Memory) => Err(StepFault::Memory),
    }
}

/// What the equilibrium of the system for what remains makes of the account.
fn made_over(
    alloc: Global,
    system: &System,
    logs: &Logs,
    job: &PathJob,
    account: &Account,
    starts: &[Entry],
) -> Result<Made, StepFault>
    requires system { IsSystem system.now }
    requires logs { HIGHEST_TEMPERATURE ≤ logs.now }
    requires can { CanStep job.now account.now }
    requires same_elements { (name : Word) → is_in system.now.elements name ≡ is_in job.now.job.elements name }
    ensures makes { IfOk result (λ made. MakesOf system.now job.now account.now made.report made.left made.account) }
    ensures next { IfOk result (λ made. IsNext job.now made.account made.left) }
    ensures fault { IfErr result (λ fault. IsUnsolved system.now (account_in_order account.now system.now.elements).remains job.now fault) }
{
    let ordered = account_in_order(alloc, account, system.elements.as_slice())?;
    let found = solved(alloc, system, logs, job, ordered.remains.as_slice(), starts);
    match found {
        Err(fault) => Err(fault),
        Ok(Solved { report, near }) => {
            let left = left_of(alloc, system, &report, &job.liquid)?;
            let after = account_after(alloc, ordered, report.totals.as_slice(), left.as_slice())?;
            Ok(Made {
                report,
                left,
                account: after,
                near,
            })
        }
    }
}

/// The step at the job's temperature that asks what remains.
pub(crate) fn made_step(
    alloc: Global,
    db: &Db,
    logs: &Logs,
    job: &PathJob,
    account: &Account,
    starts: &[Entry],
) -> Result<Made, StepFault>
    requires logs { HIGHEST_TEMPERATURE ≤ logs.now }
    requires can { CanStep job.now account.now }
    ensures makes { IfOk result (λ made. Makes db.now job.now account.now made.report made.left made.account) }
    ensures next { IfOk result (λ made. IsNext job.now made.account made.left) }
    ensures fault { IfErr result (λ fault. IsStepFault db.now job.now account.now fault) }
{
    some_outcome();
    db.soundness();
    let found = system_of(alloc, db, logs, job);
    match found {
        Err(fault) => Err(fault),
        Ok(system) => made_over(alloc, &system, logs, job, account, starts),
    }
}
