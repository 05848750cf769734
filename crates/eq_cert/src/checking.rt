ghost use Rattle.std.specs.Prelude.{◌≡◌, ◌+◌, ◌<◌, ◌^◌, length, map, IfOk, IfErr, IfSome};
ghost use Rattle.cef_core.specs.Systems.{IsSystem};
ghost use Rattle.cef_report.specs.Holding.{Holds};
ghost use Rattle.cef_report.specs.Spelled.{IsSpelled};
ghost use Rattle.cef_report.specs.Texts.{lines};
ghost use Rattle.eq_cert.specs.Rules.{Keeps, MeetsRules, node_line};
ghost use Rattle.eq_cert.specs.Judging.{IsJudged, IsLineOf};
ghost use Rattle.eq_cert.specs.Faults.{IsFault};

use crate::broken::BrokenRule;
use crate::fault::CertFault;
use crate::head::broken_head;
use crate::rule::CheckRule;
use crate::trees::broken_tree;
use cef_core::System;
use cef_phase::PhaseModel;
use cef_report::Report;
use std::alloc::{AllocError, Global};

/// How many lines stand in front of the first node of a report, its entries left out.
const LINES_IN_FRONT: usize = 13;

/// The first rule that is broken, with its line.
fn first_broken<P: PhaseModel>(
    alloc: Global,
    system: &System,
    models: &[P],
    report: &Report,
) -> Result<Option<BrokenRule>, AllocError>
    requires system { IsSystem system.now }
    requires models { map P.phase_of models.now ≡ system.now.phases }
    requires spelled { IsSpelled report.now }
    requires lines { node_line report.now (length report.now.trees) < 2 ^ 32 }
    ensures within { IfOk result (λ found. IfSome found (λ b. IsLineOf report.now b.line)) }
    ensures exact { IfOk result (λ found. IsJudged (Keeps system.now report.now) found) }
{
    match broken_head(system, models, report) {
        Some(found) => Ok(Some(found)),
        None => {
            let found = broken_tree(
                alloc,
                models,
                report.potentials.as_slice(),
                report.trees.as_slice(),
            )?;
            match found {
                None => Ok(None),
                Some(line) => Ok(Some(BrokenRule {
                    rule: CheckRule::Tree,
                    line: LINES_IN_FRONT + report.entries.len() + line,
                })),
            }
        }
    }
}

/// Whether a report meets every rule for a system. `models` are those of the system's phases, in order;
/// the first line of the report has the number `first_line`. A report that meets the rules holds,
/// whoever wrote it.
pub fn check<P: PhaseModel>(
    alloc: Global,
    system: &System,
    models: &[P],
    report: &Report,
    first_line: u32,
) -> Result<(), CertFault>
    requires system { IsSystem system.now }
    requires models { map P.phase_of models.now ≡ system.now.phases }
    requires spelled { IsSpelled report.now }
    requires lines { first_line + length (lines report.now) < 2 ^ 32 }
    ensures ok { IfOk result (λ _. MeetsRules system.now report.now) }
    ensures fault { IfErr result (λ fault. IsFault (Keeps system.now report.now) first_line fault) }
    ensures holds { IfOk result (λ _. Holds system.now report.now.asked report.now) }
{
    let found = first_broken(alloc, system, models, report);
    match found {
        Err(_) => Err(CertFault::Memory),
        Ok(None) => Ok(()),
        Ok(Some(broken)) => Err(CertFault::Broken {
            rule: broken.rule,
            line: first_line + broken.line as u32,
        }),
    }
}
