//! The steps of a path and its finish, each made and printed before the next.

ghost use Rattle.std.specs.Prelude.{◌≡◌, ℕ, ◌-◌, ◌<◌, ◌≤◌, List, [], OnOk, IfOk, IsErrOf, Some, None};
ghost use Rattle.cal_limits.specs.declared.TheConstants.{HIGHEST_TEMPERATURE};
ghost use Rattle.cal_base.specs.Outside.{Rose, append_told, AppendsAllBut};
ghost use Rattle.cef_report.specs.Spelled.{IsSpelled};
ghost use Rattle.cef_path.specs.Texts.{finish_text};
ghost use Rattle.cal_scheil.specs.declared.fault.StepFault.{StepFault};
ghost use Rattle.cal_scheil.specs.Walks.{WalkState};
ghost use Rattle.cal_scheil.specs.Steps.{job_of, IsStepFault};
ghost use Rattle.path_run.specs.declared.path_fault.PathFault.TheVariants as path_fault;
ghost use Rattle.path_run.specs.Outputs.{head_of};
ghost use Rattle.path_run.specs.Workings.{HasOutcomes, HasMade, piece, PrintsStep, PrintsStepPartly, PrintedSteps, PrintedStepsPartly, IsStopped};

use crate::path_fault::PathFault;
use cal_base::{Sink, write_all};
use cal_log::Logs;
use cal_scheil::Walk;
use cef_path::Finish;
use cef_report::Report;
use path_text::{write_finish, write_step};
use std::alloc::{AllocError, Global};
use tdb_read::Db;

/// The text of a step, behind the head of the path if it is the first.
fn piece_of(
    alloc: Global,
    head: &[u8],
    number: u32,
    report: &Report,
    left: &[i128],
) -> Result<Vec<u8>, AllocError>
    requires some { 0 < number }
    requires spelled { IsSpelled report.now }
    ensures { IfOk result (λ bytes. bytes.items ≡
        piece head.now (number - 1) (record { number = number; report = report.now; left = left.now; line = 0 })) }
{
    let step = write_step(alloc, number, report, left)?;
    if number > 1 {
        return Ok(step);
    }
    let mut text = Vec::from_slice(alloc, head)?;
    text.extend_from_slice(step.as_slice())?;
    Ok(text)
}

/// Makes the next step and prints it.
fn print_step<K: Sink>(
    alloc: Global,
    db: &Db,
    logs: &Logs,
    head: &[u8],
    walk: &mut Walk,
    out: &mut K,
) -> Result<Option<Finish>, PathFault>
    requires unfinished { walk.old.finish ≡ None }
    requires logs { HIGHEST_TEMPERATURE ≤ logs.now }
    ensures ok { IfOk result (λ finish. (finish ≡ walk.new.finish)
        × PrintsStep db.now head.now walk.old walk.new (K.written out.old) (K.written out.new)) }
    ensures stopped { (fault : StepFault) → IsErrOf result (path_fault.Stopped fault) →
        (walk.new ≡ walk.old) × (K.written out.new ≡ K.written out.old)
        × IsStepFault db.now (job_of walk.old) walk.old.account fault }
    ensures write { IsErrOf result path_fault.Write →
        Rose (K.faults out.old) (K.faults out.new)
        × PrintsStepPartly db.now head.now walk.old walk.new (K.written out.old) (K.written out.new) }
    ensures memory { IsErrOf result path_fault.Memory → K.written out.new ≡ K.written out.old }
    ensures later { K.faults out.old ≤ K.faults out.new }
{
    let stepped = walk.step(alloc, db, logs);
    match stepped {
        Err(fault) => Err(PathFault::Stopped(fault)),
        Ok(step) => {
            let number = walk.steps_taken();
            let text = piece_of(alloc, head, number, &step.report, step.left.as_slice());
            match text {
                Err(_) => Err(PathFault::Memory),
                Ok(text) => match write_all(out, text.as_slice()) {
                    Err(_) => Err(PathFault::Write),
                    Ok(()) => Ok(step.finish),
                },
            }
        }
    }
}

/// Makes and prints all steps of a walk.
pub(crate) fn print_steps<K: Sink>(
    alloc: Global,
    db: &Db,
    logs: &Logs,
    head: &[u8],
    walk: &mut Walk,
    out: &mut K,
) -> Result<Finish, PathFault>
    requires outcomes { HasOutcomes db.now }
    requires logs { HIGHEST_TEMPERATURE ≤ logs.now }
    requires first { HasMade db.now walk.old.job [] walk.old }
    requires head { head.now ≡ head_of walk.old.job }
    ensures ok { IfOk result (λ finish. (walk.new.finish ≡ Some finish)
        × PrintedSteps db.now walk.old.job walk.new (K.written out.old) (K.written out.new)) }
    ensures stopped { (fault : StepFault) → IsErrOf result (path_fault.Stopped fault) →
        IsStopped db.now walk.old.job fault (K.written out.old) (K.written out.new) }
    ensures write { IsErrOf result path_fault.Write →
        Rose (K.faults out.old) (K.faults out.new)
        × PrintedStepsPartly db.now walk.old.job walk.new (K.written out.old) (K.written out.new) }
    ensures memory { IsErrOf result path_fault.Memory →
        (last : WalkState) × PrintedSteps db.now walk.old.job last (K.written out.old) (K.written out.new) }
    ensures later { K.faults out.old ≤ K.faults out.new }
{
    'steps: loop {
        let printed = print_step(alloc, db, logs, head, walk, out);
        match printed {
            Err(fault) => return Err(fault),
            Ok(found) => match found {
                Some(finish) => return Ok(finish),
                None => {}
            },
        }
    }
}

/// Prints the end of a path.
pub(crate) fn print_finish<K: Sink>(
    alloc: Global,
    finish: Finish,
    walk: &Walk,
    out: &mut K,
) -> Result<(), PathFault>
    ensures ok { OnOk result (K.written out.new ≡ append_told (K.written out.old)
        (finish_text finish walk.now.account.solids walk.now.account.remains walk.now.account.lost)) }
    ensures stopped { (fault : StepFault) → IsErrOf result (path_fault.Stopped fault) → ⊥ }
    ensures write { IsErrOf result path_fault.Write →
        Rose (K.faults out.old) (K.faults out.new)
        × ((rest : List ℕ) × AppendsAllBut rest (K.written out.old) (K.written out.new)
        (finish_text finish walk.now.account.solids walk.now.account.remains walk.now.account.lost)) }
    ensures memory { IsErrOf result path_fault.Memory → K.written out.new ≡ K.written out.old }
    ensures later { K.faults out.old ≤ K.faults out.new }
{
    let ledger = walk.ledger();
    let text = write_finish(alloc, finish, ledger.solids, ledger.remains, ledger.lost);
    match text {
        Err(_) => Err(PathFault::Memory),
        Ok(text) => match write_all(out, text.as_slice()) {
            Err(_) => Err(PathFault::Write),
            Ok(()) => Ok(()),
        },
    }
}
