//! The text of a step that has no answer.

ghost use Rattle.std.specs.Prelude.{◌≡◌, ◌≢◌, ◌≤◌, [], IfOk, IfErr};
ghost use Rattle.cal_limits.specs.declared.TheConstants.{HIGHEST_TEMPERATURE};
ghost use Rattle.cal_base.specs.declared.status.Status.{Status};
ghost use Rattle.cal_base.specs.Outside.{Rose};
ghost use Rattle.cal_scheil.specs.Walks.{IsPathJob, walk_of};
ghost use Rattle.cal_scheil.specs.Steps.{IsStepFault};
ghost use Rattle.path_run.specs.Workings.{AreNamesOf, FitsNames, HasText, PrintsFault, PrintsFaultPartly};

use cal_base::{Sink, Status, write_all};
use cal_list::Items;
use cal_log::Logs;
use cal_refusal::{infeasible, open_text, system_refusal};
use cal_scan::Name;
use cal_scheil::{PathJob, StepFault};
use cal_select::{SystemFault, system};
use eq_solve::phase_names;
use std::alloc::{AllocError, Global};
use tdb_read::Db;

/// The status of a run that is refused, and what it prints.
#[derive(Drop)]
struct Refusal {
    status: Status,
    text: Vec<u8>,
}

/// The names of the phases that the database selects, or why it gives no system.
pub(crate) fn names_of(
    alloc: Global,
    db: &Db,
    logs: &Logs,
    job: &PathJob,
) -> Result<Items<Name>, StepFault>
    requires job { IsPathJob job.now }
    requires logs { HIGHEST_TEMPERATURE ≤ logs.now }
    ensures names { IfOk result (λ names. AreNamesOf db.now job.now names) }
    ensures fault { IfErr result (λ fault. IsStepFault db.now job.now (walk_of job.now).account fault) }
    ensures fits { IfErr result (FitsNames []) }
{
    let found = system(alloc, db, logs, &job.job);
    match found {
        Err(SystemFault::Memory) => Err(StepFault::Memory),
        Err(fault) => Err(StepFault::System(fault)),
        Ok(system) => {
            let names = phase_names(alloc, system.phases.as_slice())?;
            Ok(names)
        }
    }
}

/// The refusal of a step. Want of memory has none.
fn refusal_of(
    alloc: Global,
    names: &[Name],
    budget: u64,
    fault: &StepFault,
) -> Result<Refusal, AllocError>
    requires { FitsNames names.now fault.now }
    ensures { IfOk result (λ refusal. HasText names.now budget fault.now refusal.status refusal.text.items) }
{
    match fault {
        StepFault::System(cause) => {
            let text = system_refusal(alloc, cause)?;
            Ok(Refusal {
                status: Status::BadSystem,
                text,
            })
        }
        StepFault::Infeasible(numbers) => {
            let text = infeasible(alloc, numbers.as_slice())?;
            Ok(Refusal {
                status: Status::BadSystem,
                text,
            })
        }
        StepFault::GapNotClosed(left) => {
            let text = open_text(alloc, names, budget, left)?;
            Ok(Refusal {
                status: Status::GapNotClosed,
                text,
            })
        }
        StepFault::Memory => Err(AllocError),
    }
}

/// Prints the refusal of a step, under the names of the system's phases.
pub(crate) fn print_fault<K: Sink>(
    alloc: Global,
    names: &[Name],
    budget: u64,
    fault: &StepFault,
    out: &mut K,
) -> Status
    requires { FitsNames names.now fault.now }
    ensures ok { result ≢ Status.WriteFault →
        PrintsFault names.now budget fault.now result (K.written out.old) (K.written out.new) }
    ensures write { result ≡ Status.WriteFault → Rose (K.faults out.old) (K.faults out.new) }
    ensures partly { result ≡ Status.WriteFault →
        PrintsFaultPartly names.now budget fault.now (K.written out.old) (K.written out.new) }
    ensures later { K.faults out.old ≤ K.faults out.new }
{
    let found = refusal_of(alloc, names, budget, fault);
    match found {
        Err(_) => Status::Memory,
        Ok(refusal) => match write_all(out, refusal.text.as_slice()) {
            Err(_) => Status::WriteFault,
            Ok(()) => refusal.status,
        },
    }
}
