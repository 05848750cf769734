//! The judge of a step.

ghost use Rattle.std.specs.Prelude.{◌≡◌, ◌≤◌, ◌<◌, ◌+◌, ◌^◌, length, IfOk, IfErr};
ghost use Rattle.cal_limits.specs.declared.TheConstants.{HIGHEST_TEMPERATURE};
ghost use Rattle.temp_fun.specs.Functions.{AreFunctions};
ghost use Rattle.cef_path.specs.Spelled.{IsSpelledPath};
ghost use Rattle.cef_report.specs.Spelled.{IsSpelled};
ghost use Rattle.eq_cert.specs.Rules.{lines_before};
ghost use Rattle.cal_check.specs.Paths as spec;
ghost use Rattle.cal_check.specs.Workings.{AreRightBefore, AtStep, FollowsHead, IsHeadedFault, IsRightHeaded, IsRightStep, IsStepFault};

use crate::fault::DocumentFault;
use crate::heading::{broken_head, is_next};
use crate::leaving::is_left;
use crate::reporting::judge_report;
use cal_log::Logs;
use cef_core::System;
use cef_path::{PathText, StepText};
use cef_tree::Tree;
use eq_cert::CheckRule;
use std::alloc::Global;
use tdb_read::Db;
use temp_fun::some_outcome;

/// How many lines a report has beside its entries and its trees.
const OTHER_LINES: usize = 13;

/// How many lines the trees have, each with the line of its phase.
fn tree_lines(trees: &[Tree]) -> usize
    requires { lines_before trees.now (length trees.now) < 2 ^ 32 }
    ensures { result ≡ lines_before trees.now (length trees.now) }
{
    let mut lines = 0;
    'trees: for i in 0..trees.len() {
        lines += 1 + trees[i].nodes.len();
    }
    lines
}

/// The line behind the report of the step.
pub(crate) fn left_line(step: &StepText) -> u32
    requires spelled { IsSpelled step.now.report }
    requires room { spec.left_line step.now < 2 ^ 32 }
    ensures { result ≡ spec.left_line step.now }
{
    let report = &step.report;
    let lines = OTHER_LINES + report.entries.len() + tree_lines(report.trees.as_slice());
    step.line + 1 + lines as u32
}

/// What is found of a report whose path asks more of the lines of its head.
fn with_head(
    found: Result<System, DocumentFault>,
    head: Option<u32>,
) -> Result<System, DocumentFault>
    ensures { FollowsHead found head result }
{
    match found {
        Err(DocumentFault::Broken { rule, line }) => match head {
            None => Err(DocumentFault::Broken { rule, line }),
            Some(other) => {
                if other < line {
                    return Err(DocumentFault::Broken {
                        rule: CheckRule::Path,
                        line: other,
                    });
                }
                Err(DocumentFault::Broken { rule, line })
            }
        },
        Err(fault) => Err(fault),
        Ok(system) => match head {
            None => Ok(system),
            Some(line) => Err(DocumentFault::Broken {
                rule: CheckRule::Path,
                line,
            }),
        },
    }
}

/// The system of the step's report, where the report meets every rule for it and its head those of the path.
fn judge_headed(
    alloc: Global,
    db: &Db,
    logs: &Logs,
    path: &PathText,
    i: usize,
) -> Result<System, DocumentFault>
    requires functions { AreFunctions db.now.functions }
    requires logs { HIGHEST_TEMPERATURE ≤ logs.now }
    requires spelled { IsSpelledPath path.now }
    requires within { i < length path.now.steps }
    requires room { AtStep path.now.steps i (λ step. spec.left_line step < 2 ^ 32) }
    ensures right { IfOk result (λ system. AtStep path.now.steps i (λ step. IsRightHeaded db.now path.now i step system)) }
    ensures fault { IfErr result (λ fault. AtStep path.now.steps i (λ step. IsHeadedFault db.now path.now i step fault)) }
{
    some_outcome();
    let step = &path.steps.as_slice()[i];
    let head = broken_head(path, i);
    let found = judge_report(alloc, db, logs, &step.report, step.line + 1);
    with_head(found, head)
}

/// Judges the step at the place `i`, where those before it are right.
pub(crate) fn judge_step(
    alloc: Global,
    db: &Db,
    logs: &Logs,
    path: &PathText,
    i: usize,
) -> Result<(), DocumentFault>
    requires functions { AreFunctions db.now.functions }
    requires logs { HIGHEST_TEMPERATURE ≤ logs.now }
    requires spelled { IsSpelledPath path.now }
    requires within { i < length path.now.steps }
    requires room { AtStep path.now.steps i (λ step. spec.left_line step < 2 ^ 32) }
    requires before { AreRightBefore db.now path.now i }
    ensures right { IfOk result (λ _. AtStep path.now.steps i (IsRightStep db.now path.now i)) }
    ensures fault { IfErr result (λ fault. AtStep path.now.steps i (λ step. IsStepFault db.now path.now i step fault)) }
{
    some_outcome();
    let step = &path.steps.as_slice()[i];
    if !is_next(path, i) {
        return Err(DocumentFault::Broken {
            rule: CheckRule::Path,
            line: step.line,
        });
    }
    let found = judge_headed(alloc, db, logs, path, i);
    match found {
        Err(fault) => Err(fault),
        Ok(system) => {
            if !is_left(&system, &path.liquid, &step.report, step.left.as_slice()) {
                return Err(DocumentFault::Broken {
                    rule: CheckRule::Path,
                    line: left_line(step),
                });
            }
            Ok(())
        }
    }
}
