//! The judge of one report.

ghost use Rattle.std.specs.Prelude.{◌≡◌, ◌≤◌, ◌<◌, ◌+◌, ◌^◌, length, Ok, IfOk, IfErr};
ghost use Rattle.cal_limits.specs.declared.TheConstants.{HIGHEST_TEMPERATURE};
ghost use Rattle.temp_fun.specs.Functions.{AreFunctions};
ghost use Rattle.cef_core.specs.Jobs.{IsJob};
ghost use Rattle.cef_core.specs.Systems.{IsSystem};
ghost use Rattle.cal_select.specs.Causes.{Answers};
ghost use Rattle.cef_report.specs.Holding.{Holds};
ghost use Rattle.cef_report.specs.Spelled.{IsSpelled};
ghost use Rattle.cef_report.specs.Texts.{lines};
ghost use Rattle.eq_cert.specs.Rules.{Keeps, MeetsRules};
ghost use Rattle.eq_cert.specs.Faults.{IsFault};
ghost use Rattle.cal_check.specs.Systems as spec;
ghost use Rattle.cal_check.specs.Systems.{IsSystemFor};
ghost use Rattle.cal_check.specs.Workings.{HasNoSystem, IsRightReport, IsReportFault};

use crate::fault::DocumentFault;
use cal_list::Items;
use cal_log::Logs;
use cal_scan::Name;
use cal_select::{SystemFault, system};
use cef_core::{Job, System};
use cef_phase::models_of;
use cef_report::Report;
use eq_cert::{CertFault, check};
use std::alloc::{AllocError, Global};
use tdb_read::Db;
use temp_fun::some_outcome;

fn copies(alloc: Global, names: &[Name]) -> Result<Items<Name>, AllocError>
    ensures { IfOk result (λ copies. copies ≡ names.now) }
{
    let mut copies = Items::new(alloc);
    'names: for name in names {
        copies.push(name.copy()?)?;
    }
    Ok(copies)
}

/// What the heads of the report ask for.
fn job_of(alloc: Global, report: &Report) -> Result<Job, AllocError>
    ensures { IfOk result (λ job. job ≡ spec.job_of report.now) }
{
    let elements = copies(alloc, report.elements.as_slice())?;
    let phases = copies(alloc, report.phases.as_slice())?;
    Ok(Job {
        t: report.t,
        lattice: report.lattice,
        elements,
        phases: Some(phases),
    })
}

/// The system that the database gives for the job.
fn selected(alloc: Global, db: &Db, logs: &Logs, job: &Job) -> Result<System, DocumentFault>
    requires job { IsJob job.now }
    requires logs { HIGHEST_TEMPERATURE ≤ logs.now }
    ensures given { IfOk result (λ system. Answers db.now job.now (Ok system)) }
    ensures keeps { IfOk result IsSystem }
    ensures fault { IfErr result (λ fault. HasNoSystem db.now job.now fault) }
{
    let found = system(alloc, db, logs, job);
    match found {
        Err(SystemFault::Memory) => Err(DocumentFault::Memory),
        Err(fault) => Err(DocumentFault::System(fault)),
        Ok(system) => Ok(system),
    }
}

/// The system that the database gives for the heads of the report.
fn system_for(alloc: Global, db: &Db, logs: &Logs, report: &Report) -> Result<System, DocumentFault>
    requires logs { HIGHEST_TEMPERATURE ≤ logs.now }
    requires spelled { IsSpelled report.now }
    ensures given { IfOk result (λ system. IsSystemFor db.now report.now system) }
    ensures keeps { IfOk result IsSystem }
    ensures fault { IfErr result (λ fault. HasNoSystem db.now (spec.job_of report.now) fault) }
{
    let job = job_of(alloc, report)?;
    let found = selected(alloc, db, logs, &job);
    match found {
        Err(fault) => Err(fault),
        Ok(system) => Ok(system),
    }
}

/// Whether the report meets every rule of a report for the system.
fn meets(
    alloc: Global,
    logs: &Logs,
    system: &System,
    report: &Report,
    first_line: u32,
) -> Result<(), CertFault>
    requires logs { HIGHEST_TEMPERATURE ≤ logs.now }
    requires system { IsSystem system.now }
    requires spelled { IsSpelled report.now }
    requires lines { first_line + length (lines report.now) < 2 ^ 32 }
    ensures ok { IfOk result (λ _. MeetsRules system.now report.now) }
    ensures fault { IfErr result (λ fault. IsFault (Keeps system.now report.now) first_line fault) }
    ensures holds { IfOk result (λ _. Holds system.now report.now.asked report.now) }
{
    let models = models_of(alloc, system.phases.as_slice(), logs);
    match models {
        Err(_) => Err(CertFault::Memory),
        Ok(models) => {
            check(alloc, system, models.as_slice(), report, first_line)?;
            Ok(())
        }
    }
}

/// The system of the report, where the report meets every rule for it. The first line of the report has the number `first_line`.
pub(crate) fn judge_report(
    alloc: Global,
    db: &Db,
    logs: &Logs,
    report: &Report,
    first_line: u32,
) -> Result<System, DocumentFault>
    requires functions { AreFunctions db.now.functions }
    requires logs { HIGHEST_TEMPERATURE ≤ logs.now }
    requires spelled { IsSpelled report.now }
    requires lines { first_line + length (lines report.now) < 2 ^ 32 }
    ensures right { IfOk result (λ system. IsRightReport db.now report.now system) }
    ensures fault { IfErr result (λ fault. IsReportFault db.now first_line report.now fault) }
{
    some_outcome();
    let found = system_for(alloc, db, logs, report);
    match found {
        Err(fault) => Err(fault),
        Ok(system) => {
            let verdict = meets(alloc, logs, &system, report, first_line);
            match verdict {
                Err(CertFault::Memory) => Err(DocumentFault::Memory),
                Err(CertFault::Broken { rule, line }) => Err(DocumentFault::Broken { rule, line }),
                Ok(_) => Ok(system),
            }
        }
    }
}
