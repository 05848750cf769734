//! The rules in front of the trees.

ghost use Rattle.std.specs.Prelude.{◌≡◌, ◌≤◌, ◌<◌, ◌+◌, ℕ, length, map, IfNone, IfSome};
ghost use Rattle.std.specs.Bool.{OnTrue, OnFalse};
ghost use Rattle.cef_core.specs.Systems.{IsSystem};
ghost use Rattle.cef_report.specs.Spelled.{IsSpelled};
ghost use Rattle.eq_cert.specs.Rules.{AreSmall, HasElements, HasPhases, IsRightEntryAt, Keeps, IsFirstBroken};
ghost use Rattle.eq_cert.specs.Judging.{HeadHolds};

use crate::broken::BrokenRule;
use crate::entries::broken_entry;
use crate::gap::meets_gap;
use crate::limits::are_small;
use crate::names::{are_names_of, are_same};
use crate::rule::CheckRule;
use crate::sums::{are_near, are_totals, energy_of};
use cef_core::System;
use cef_phase::PhaseModel;
use cef_report::Report;

/// The line of the elements, counted from 0.
const ELEMENTS_LINE: usize = 3;
/// The line of the phases.
const PHASES_LINE: usize = 4;
/// The line of the first entry.
const ENTRIES_LINE: usize = 7;

/// Whether the report is of the system's temperature, lattice and elements.
fn has_elements(system: &System, report: &Report) -> bool
    ensures yes { OnTrue result (HasElements system.now report.now) }
    ensures no { OnFalse result (HasElements system.now report.now → ⊥) }
{
    if report.t != system.t {
        return false;
    }
    if report.lattice != system.lattice {
        return false;
    }
    are_same(report.elements.as_slice(), system.elements.as_slice())
}

/// Whether no potential is too great for bounds.
fn are_small_for(system: &System, potentials: &[i128]) -> bool
    requires { 1 ≤ system.now.widest }
    ensures yes { OnTrue result (AreSmall system.now.widest potentials.now) }
    ensures no { OnFalse result (AreSmall system.now.widest potentials.now → ⊥) }
{
    are_small(potentials, u128::from(system.widest))
}

/// The first of the rules of the numbers that is broken.
fn broken_numbers<P: PhaseModel>(
    system: &System,
    models: &[P],
    report: &Report,
) -> Option<BrokenRule>
    requires system { IsSystem system.now }
    requires models { map P.phase_of models.now ≡ system.now.phases }
    requires spelled { IsSpelled report.now }
    requires widest { 1 ≤ system.now.widest }
    requires elements { HasElements system.now report.now }
    requires phases { HasPhases system.now report.now }
    requires entries { (k : ℕ) → IsRightEntryAt system.now.phases report.now.entries k }
    ensures within { IfSome result (λ b. b.line < 13 + length report.now.entries) }
    ensures none { IfNone result (HeadHolds system.now report.now) }
    ensures some { IfSome result (λ b. IsFirstBroken (Keeps system.now report.now) b.line b.rule) }
{
    let entries = report.entries.as_slice();
    let totals = report.totals.as_slice();
    let potentials = report.potentials.as_slice();
    let line = ENTRIES_LINE + entries.len();
    if !are_totals(system.phases.as_slice(), entries, totals) {
        return Some(BrokenRule {
            rule: CheckRule::Total,
            line,
        });
    }
    let energy = energy_of(models, entries);
    if report.energy != energy {
        return Some(BrokenRule {
            rule: CheckRule::Energy,
            line: line + 1,
        });
    }
    if !are_near(report.asked.as_slice(), totals, report.tolerance) {
        return Some(BrokenRule {
            rule: CheckRule::Tolerance,
            line: line + 2,
        });
    }
    if !meets_gap(potentials, totals, energy, report.gap) {
        return Some(BrokenRule {
            rule: CheckRule::Gap,
            line: line + 3,
        });
    }
    if !are_small_for(system, potentials) {
        return Some(BrokenRule {
            rule: CheckRule::Potentials,
            line: line + 4,
        });
    }
    None
}

/// The first rule in front of the trees that is broken.
pub(crate) fn broken_head<P: PhaseModel>(
    system: &System,
    models: &[P],
    report: &Report,
) -> Option<BrokenRule>
    requires system { IsSystem system.now }
    requires models { map P.phase_of models.now ≡ system.now.phases }
    requires spelled { IsSpelled report.now }
    ensures within { IfSome result (λ b. b.line < 13 + length report.now.entries) }
    ensures none { IfNone result (HeadHolds system.now report.now) }
    ensures some { IfSome result (λ b. IsFirstBroken (Keeps system.now report.now) b.line b.rule) }
{
    if !has_elements(system, report) {
        return Some(BrokenRule {
            rule: CheckRule::System,
            line: ELEMENTS_LINE,
        });
    }
    if !are_names_of(report.phases.as_slice(), system.phases.as_slice()) {
        return Some(BrokenRule {
            rule: CheckRule::System,
            line: PHASES_LINE,
        });
    }
    match broken_entry(system.phases.as_slice(), report.entries.as_slice()) {
        Some(place) => Some(BrokenRule {
            rule: CheckRule::Entry,
            line: ENTRIES_LINE + place,
        }),
        None => broken_numbers(system, models, report),
    }
}
