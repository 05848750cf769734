//! A path, made and printed step by step, or a refusal behind its steps.

ghost use Rattle.std.specs.Prelude.{◌≡◌, ◌≢◌, ◌⊎◌, ◌≤◌, [], OnOk, IsErrOf};
ghost use Rattle.cal_limits.specs.declared.TheConstants.{HIGHEST_TEMPERATURE};
ghost use Rattle.cal_base.specs.declared.status.Status.{Status};
ghost use Rattle.cal_base.specs.Outside.{Rose};
ghost use Rattle.cal_scheil.specs.declared.fault.StepFault.{StepFault};
ghost use Rattle.cal_scheil.specs.Walks.{IsPathJob};
ghost use Rattle.path_run.specs.declared.path_fault.PathFault.TheVariants as path_fault;
ghost use Rattle.path_run.specs.Steps.{IsNeverRefused};
ghost use Rattle.path_run.specs.Outputs.{head_of, PathPrinted, PathPrintedPartly};
ghost use Rattle.path_run.specs.Workings.{HasOutcomes, HasMade, AreNamesOf, IsStopped};

use crate::path_fault::PathFault;
use crate::refusing::{names_of, print_fault};
use crate::stepping::{print_finish, print_steps};
use cal_base::{Sink, Status};
use cal_log::Logs;
use cal_scan::Name;
use cal_scheil::{PathJob, Walk};
use path_text::write_head;
use std::alloc::Global;
use tdb_read::Db;
use temp_fun::some_outcome;

/// Makes and prints the steps of a walk, and its finish.
fn print_walk<K: Sink>(
    alloc: Global,
    db: &Db,
    logs: &Logs,
    head: &[u8],
    mut walk: Walk,
    out: &mut K,
) -> Result<(), PathFault>
    requires outcomes { HasOutcomes db.now }
    requires logs { HIGHEST_TEMPERATURE ≤ logs.now }
    requires first { HasMade db.now walk.job [] walk }
    requires head { head.now ≡ head_of walk.job }
    ensures ok { OnOk result (PathPrinted db.now walk.job Status.Done (K.written out.old) (K.written out.new)) }
    ensures stopped { (fault : StepFault) → IsErrOf result (path_fault.Stopped fault) →
        IsStopped db.now walk.job fault (K.written out.old) (K.written out.new) }
    ensures write { IsErrOf result path_fault.Write → Rose (K.faults out.old) (K.faults out.new) }
    ensures partly { IsErrOf result path_fault.Write → PathPrintedPartly db.now walk.job (K.written out.old) (K.written out.new) }
    ensures memory { IsErrOf result path_fault.Memory →
        PathPrinted db.now walk.job Status.Memory (K.written out.old) (K.written out.new) }
    ensures later { K.faults out.old ≤ K.faults out.new }
{
    let printed = print_steps(alloc, db, logs, head, &mut walk, out);
    match printed {
        Err(fault) => Err(fault),
        Ok(finish) => {
            let ended = print_finish(alloc, finish, &walk, out);
            ended
        }
    }
}

/// Makes and prints a path.
fn print_path<K: Sink>(
    alloc: Global,
    db: &Db,
    logs: &Logs,
    job: PathJob,
    out: &mut K,
) -> Result<(), PathFault>
    requires outcomes { HasOutcomes db.now }
    requires job { IsPathJob job }
    requires logs { HIGHEST_TEMPERATURE ≤ logs.now }
    ensures ok { OnOk result (PathPrinted db.now job Status.Done (K.written out.old) (K.written out.new)) }
    ensures stopped { (fault : StepFault) → IsErrOf result (path_fault.Stopped fault) →
        IsStopped db.now job fault (K.written out.old) (K.written out.new) }
    ensures write { IsErrOf result path_fault.Write → Rose (K.faults out.old) (K.faults out.new) }
    ensures partly { IsErrOf result path_fault.Write → PathPrintedPartly db.now job (K.written out.old) (K.written out.new) }
    ensures memory { IsErrOf result path_fault.Memory →
        PathPrinted db.now job Status.Memory (K.written out.old) (K.written out.new) }
    ensures later { K.faults out.old ≤ K.faults out.new }
{
    let head = write_head(alloc, &job.liquid, job.descent, job.floor, job.stop);
    match head {
        Err(_) => Err(PathFault::Memory),
        Ok(head) => {
            let begun = Walk::begin(alloc, job);
            match begun {
                Err(_) => Err(PathFault::Memory),
                Ok(walk) => {
                    let ended = print_walk(alloc, db, logs, head.as_slice(), walk, out);
                    ended
                }
            }
        }
    }
}

/// Prints a path, or a refusal behind its steps, where these are the names of the phases.
fn run_over<K: Sink>(
    alloc: Global,
    db: &Db,
    logs: &Logs,
    names: &[Name],
    job: PathJob,
    out: &mut K,
) -> Status
    requires outcomes { HasOutcomes db.now }
    requires job { IsPathJob job }
    requires logs { HIGHEST_TEMPERATURE ≤ logs.now }
    requires names { AreNamesOf db.now job names.now }
    ensures replied { result ≢ Status.WriteFault →
        PathPrinted db.now job result (K.written out.old) (K.written out.new) }
    ensures write { result ≡ Status.WriteFault → Rose (K.faults out.old) (K.faults out.new) }
    ensures partly { result ≡ Status.WriteFault →
        PathPrintedPartly db.now job (K.written out.old) (K.written out.new) }
{
    let budget = job.budget;
    let printed = print_path(alloc, db, logs, job, out);
    match printed {
        Ok(()) => Status::Done,
        Err(PathFault::Stopped(fault)) => print_fault(alloc, names, budget, &fault, out),
        Err(PathFault::Write) => Status::WriteFault,
        Err(PathFault::Memory) => Status::Memory,
    }
}

/// Prints the path of the job over the database: its head with the first step, each further step before the next is made, and its
/// finish; or the refusal of a step behind the steps that were printed.
pub fn run_path<K: Sink>(alloc: Global, db: &Db, logs: &Logs, job: PathJob, out: &mut K) -> Status
    requires job { IsPathJob job }
    requires logs { HIGHEST_TEMPERATURE ≤ logs.now }

    // What was appended, and why.
    ensures replied { result ≢ Status.WriteFault →
        PathPrinted db.now job result (K.written out.old) (K.written out.new) }

    // A failed write leaves a front of what some run prints.
    ensures write { result ≡ Status.WriteFault → Rose (K.faults out.old) (K.faults out.new) }
    ensures partly { result ≡ Status.WriteFault →
        PathPrintedPartly db.now job (K.written out.old) (K.written out.new) }

    // Where no step is refused and no count rose, the run is done, or has no memory.
    ensures complete { IsNeverRefused db.now job → ¬ Rose (K.faults out.old) (K.faults out.new) →
        (result ≡ Status.Done) ⊎ (result ≡ Status.Memory) }
{
    some_outcome();
    db.soundness();
    let found = names_of(alloc, db, logs, &job);
    match found {
        Err(fault) => print_fault(alloc, &[], job.budget, &fault, out),
        Ok(names) => run_over(alloc, db, logs, names.as_slice(), job, out),
    }
}
