//! The reply to a request over the bytes of its database.

ghost use Rattle.std.specs.Prelude.{◌≡◌, ◌≢◌, ◌≤◌, IfOk, length, map};
ghost use Rattle.cal_limits.specs.declared.TheConstants.{MOST_DATABASE_BYTES};
ghost use Rattle.cal_job.specs.Requests.{IsRequest};
ghost use Rattle.cef_core.specs.Systems.{IsSystem};
ghost use Rattle.cef_report.specs.Feasibility.{AreAsked};
ghost use Rattle.temp_fun.specs.Functions.{AreFunctions};
ghost use Rattle.cal_refusal.specs.Refusals.{system_line};
ghost use Rattle.cal_top.specs.Equilibria.{asked_of, FromSystem, FromDatabase};
ghost use Rattle.cal_top.specs.Texts.{OverDatabase};

use crate::asked::totals_asked;
use crate::reply::Reply;
use crate::texts::{Opened, database_in};
use cal_base::Status;
use cal_job::Request;
use cal_limits::HIGHEST_TEMPERATURE;
use cal_log::Logs;
use cal_refusal::{infeasible, open_text, system_refusal};
use cal_select::{SystemFault, system};
use cef_core::System;
use cef_phase::{PhaseModel, models_of};
use eq_solve::{SolveFault, equilibrium, phase_names};
use eq_text::write_report;
use std::alloc::{AllocError, Global};
use tdb_read::Db;
use temp_fun::some_outcome;

/// The equilibrium of what is asked of the system, whose phases have these models.
fn by_models<P: PhaseModel>(
    alloc: Global,
    request: &Request,
    system: &System,
    models: &[P],
) -> Result<Reply, AllocError>
    requires request { IsRequest request.now }
    requires system { IsSystem system.now }
    requires models { map P.phase_of models.now ≡ system.now.phases }
    requires asked { AreAsked system.now (asked_of request.now system.now) }
    ensures { IfOk result (λ reply. FromSystem system.now request.now reply.status reply.text.items) }
{
    let asked = totals_asked(alloc, request, system.elements.as_slice())?;
    let found = equilibrium(
        alloc,
        system,
        models,
        asked.as_slice(),
        request.gap,
        request.budget,
    );
    match found {
        Ok(report) => {
            let text = write_report(alloc, &report)?;
            Ok(Reply {
                status: Status::Done,
                text,
            })
        }
        Err(SolveFault::Infeasible(numbers)) => {
            let text = infeasible(alloc, numbers.as_slice())?;
            Ok(Reply {
                status: Status::BadSystem,
                text,
            })
        }
        Err(SolveFault::GapNotClosed(left)) => {
            let names = phase_names(alloc, system.phases.as_slice())?;
            let text = open_text(alloc, names.as_slice(), request.budget, &left)?;
            Ok(Reply {
                status: Status::GapNotClosed,
                text,
            })
        }
        Err(SolveFault::Memory) => Err(AllocError),
    }
}

/// The reply over the system.
fn over_system(
    alloc: Global,
    request: &Request,
    logs: &Logs,
    system: &System,
) -> Result<Reply, AllocError>
    requires request { IsRequest request.now }
    requires logs { HIGHEST_TEMPERATURE ≤ logs.now }
    requires system { IsSystem system.now }
    requires asked { AreAsked system.now (asked_of request.now system.now) }
    ensures { IfOk result (λ reply. FromSystem system.now request.now reply.status reply.text.items) }
{
    let models = models_of(alloc, system.phases.as_slice(), logs)?;
    let reply = by_models(alloc, request, system, models.as_slice())?;
    Ok(reply)
}

/// The line of the cause why there is no system. Want of memory has none.
pub(crate) fn refused(alloc: Global, fault: &SystemFault) -> Result<Reply, AllocError>
    ensures want { IfOk result (λ reply. fault.now ≢ SystemFault.Memory) }
    ensures status { IfOk result (λ reply. reply.status ≡ Status.BadSystem) }
    ensures text { IfOk result (λ reply. reply.text.items ≡ system_line fault.now) }
{
    match fault {
        SystemFault::Memory => Err(AllocError),
        _ => {
            let text = system_refusal(alloc, fault)?;
            Ok(Reply {
                status: Status::BadSystem,
                text,
            })
        }
    }
}

/// The reply over the database.
fn over_database(alloc: Global, request: &Request, db: &Db) -> Result<Reply, AllocError>
    requires request { IsRequest request.now }
    requires functions { AreFunctions db.now.functions }
    ensures { IfOk result (λ reply. FromDatabase db.now request.now reply.status reply.text.items) }
{
    some_outcome();
    let logs = Logs::build(alloc, HIGHEST_TEMPERATURE)?;
    let found = system(alloc, db, &logs, &request.job);
    match found {
        Ok(system) => {
            let reply = over_system(alloc, request, &logs, &system)?;
            Ok(reply)
        }
        Err(fault) => {
            let reply = refused(alloc, &fault)?;
            Ok(reply)
        }
    }
}

/// The reply over the bytes of the database.
pub(crate) fn over_bytes(
    alloc: Global,
    request: &Request,
    bytes: &[u8],
) -> Result<Reply, AllocError>
    requires request { IsRequest request.now }
    requires limit { length bytes.now ≤ MOST_DATABASE_BYTES }
    ensures { IfOk result (λ reply.
        OverDatabase bytes.now (λ db. FromDatabase db request.now) reply.status reply.text.items) }
{
    let opened = database_in(alloc, bytes)?;
    match opened {
        Opened::Refused(reply) => Ok(reply),
        Opened::Database(db) => {
            let reply = over_database(alloc, request, &db)?;
            Ok(reply)
        }
    }
}
