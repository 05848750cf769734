//! The judge of a document.

ghost use Rattle.std.specs.Prelude.{◌≡◌, ◌≤◌, ◌<◌, ◌+◌, ◌^◌, length, IfOk, IfErr};
ghost use Rattle.std.specs.Bool.{OnTrue, OnFalse};
ghost use Rattle.cal_limits.specs.declared.TheConstants.{HIGHEST_TEMPERATURE, MOST_REPORT_BYTES};
ghost use Rattle.temp_fun.specs.Functions.{AreFunctions};
ghost use Rattle.cef_path.specs.Spelled.{IsSpelledPath};
ghost use Rattle.path_text.specs.Documents.{document_text, IsSpelledDocument};
ghost use Rattle.cal_check.specs.Documents.{MeetsAll, IsFirstFault, count_of, DocumentHolds};
ghost use Rattle.cal_check.specs.Paths.{HasLiquid, finish_line};
ghost use Rattle.cal_check.specs.Workings.{AreRightBefore, IsPathFault, IsRightPath};

use crate::ending::broken_end;
use crate::fault::DocumentFault;
use crate::reporting::judge_report;
use crate::stepping::{judge_step, left_line};
use cal_log::Logs;
use cef_path::PathText;
use eq_cert::CheckRule;
use path_text::Document;
use std::alloc::Global;
use tdb_read::Db;
use temp_fun::some_outcome;

/// The line of a path's liquid.
const LIQUID_LINE: u32 = 2;

/// Whether the liquid is a phase of the first report.
fn has_liquid(path: &PathText) -> bool
    requires { 0 < length path.now.steps }
    ensures yes { OnTrue result (HasLiquid path.now) }
    ensures no { OnFalse result (HasLiquid path.now → ⊥) }
{
    let first = &path.steps.as_slice()[0];
    first
        .report
        .phases
        .as_slice()
        .iter()
        .any(|name| *name == path.liquid)
}

/// Judges the steps of a path, one after the other.
fn judge_steps(alloc: Global, db: &Db, logs: &Logs, path: &PathText) -> Result<(), DocumentFault>
    requires functions { AreFunctions db.now.functions }
    requires logs { HIGHEST_TEMPERATURE ≤ logs.now }
    requires spelled { IsSpelledPath path.now }
    requires short { finish_line path.now + 3 < 2 ^ 32 }
    requires liquid { HasLiquid path.now }
    ensures right { IfOk result (λ _. AreRightBefore db.now path.now (length path.now.steps)) }
    ensures fault { IfErr result (λ fault. IsPathFault db.now path.now fault) }
{
    some_outcome();
    'steps: for i in 0..path.steps.len() {
        let verdict = judge_step(alloc, db, logs, path, i);
        if let Err(fault) = verdict {
            return Err(fault);
        }
    }
    Ok(())
}

/// Judges the end of a path whose steps are right.
fn judge_end(path: &PathText, db: &Db) -> Result<(), DocumentFault>
    requires functions { AreFunctions db.now.functions }
    requires spelled { IsSpelledPath path.now }
    requires short { finish_line path.now + 3 < 2 ^ 32 }
    requires liquid { HasLiquid path.now }
    requires right { AreRightBefore db.now path.now (length path.now.steps) }
    ensures right { IfOk result (λ _. IsRightPath db.now path.now) }
    ensures fault { IfErr result (λ fault. IsPathFault db.now path.now fault) }
{
    some_outcome();
    let steps = path.steps.as_slice();
    let last = &steps[steps.len() - 1];
    let line = left_line(last) + 1;
    match broken_end(path, line) {
        None => Ok(()),
        Some(line) => Err(DocumentFault::Broken {
            rule: CheckRule::Path,
            line,
        }),
    }
}

/// Judges a path.
fn judge_path(alloc: Global, db: &Db, logs: &Logs, path: &PathText) -> Result<(), DocumentFault>
    requires functions { AreFunctions db.now.functions }
    requires logs { HIGHEST_TEMPERATURE ≤ logs.now }
    requires spelled { IsSpelledPath path.now }
    requires short { finish_line path.now + 3 < 2 ^ 32 }
    ensures right { IfOk result (λ _. IsRightPath db.now path.now) }
    ensures fault { IfErr result (λ fault. IsPathFault db.now path.now fault) }
{
    if !has_liquid(path) {
        return Err(DocumentFault::Broken {
            rule: CheckRule::Path,
            line: LIQUID_LINE,
        });
    }
    let steps = judge_steps(alloc, db, logs, path);
    match steps {
        Err(fault) => Err(fault),
        Ok(_) => judge_end(path, db),
    }
}

/// Whether every rule of the document holds over the database: then the number of its reports, and else the first fault.
pub fn check_document(
    alloc: Global,
    db: &Db,
    logs: &Logs,
    document: &Document,
) -> Result<u32, DocumentFault>
    requires functions { AreFunctions db.now.functions }
    requires logs { HIGHEST_TEMPERATURE ≤ logs.now }
    requires spelled { IsSpelledDocument document.now }
    requires short { length (document_text document.now) ≤ MOST_REPORT_BYTES }
    ensures meets { IfOk result (λ n. MeetsAll db.now document.now × (n ≡ count_of document.now)) }
    ensures fault { IfErr result (λ fault. IsFirstFault db.now document.now fault) }
    ensures holds { IfOk result (λ n. DocumentHolds db.now document.now) }
{
    some_outcome();
    match document {
        Document::One(report) => {
            let found = judge_report(alloc, db, logs, report, 1);
            match found {
                Err(fault) => Err(fault),
                Ok(_) => Ok(1),
            }
        }
        Document::Path(path) => {
            let found = judge_path(alloc, db, logs, path);
            match found {
                Err(fault) => Err(fault),
                Ok(_) => Ok(path.steps.len() as u32),
            }
        }
    }
}
