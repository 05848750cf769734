//! The rule of the entries.

ghost use Rattle.std.specs.Prelude.{◌<◌, length, IfSome};
ghost use Rattle.std.specs.Bool.{OnTrue, OnFalse};
ghost use Rattle.cef_core.specs.Constitutions.{IsConstitution};
ghost use Rattle.cef_report.specs.Holding.{IsBefore};
ghost use Rattle.eq_cert.specs.First.{IsVerdict};
ghost use Rattle.eq_cert.specs.Entries.{AreOfPhases};
ghost use Rattle.eq_cert.specs.Rules.{IsRightEntryAt};

use cef_core::{PhaseAt, Site, has_content, is_less, is_list};
use cef_report::Entry;

/// Whether counts are a list of the phase that holds some component.
fn is_constitution(phase: &PhaseAt, site: &Site) -> bool
    ensures yes { OnTrue result (IsConstitution phase.now site.now) }
    ensures no { OnFalse result (IsConstitution phase.now site.now → ⊥) }
{
    if is_list(phase, site) {
        has_content(phase, site)
    } else {
        false
    }
}

/// Whether the first entry comes before the second: by phase, and of one phase by counts.
fn is_before(first: &Entry, second: &Entry) -> bool
    ensures yes { OnTrue result (IsBefore first.now second.now) }
    ensures no { OnFalse result (IsBefore first.now second.now → ⊥) }
{
    if first.phase < second.phase {
        return true;
    }
    if second.phase < first.phase {
        return false;
    }
    is_less(&first.site, &second.site)
}

/// Whether an entry is a constitution of its phase and comes behind the one before it.
fn is_right_entry(phases: &[PhaseAt], entries: &[Entry], k: usize) -> bool
    requires place { k < length entries.now }
    requires phases { AreOfPhases (length phases.now) entries.now }
    ensures yes { OnTrue result (IsRightEntryAt phases.now entries.now k) }
    ensures no { OnFalse result (IsRightEntryAt phases.now entries.now k → ⊥) }
{
    let entry = &entries[k];
    let phase = &phases[entry.phase];
    if !is_constitution(phase, &entry.site) {
        return false;
    }
    if k == 0 {
        return true;
    }
    is_before(&entries[k - 1], entry)
}

/// The place of the first entry that is wrong.
pub(crate) fn broken_entry(phases: &[PhaseAt], entries: &[Entry]) -> Option<usize>
    requires { AreOfPhases (length phases.now) entries.now }
    ensures within { IfSome result (λ place. place < length entries.now) }
    ensures exact { IsVerdict (IsRightEntryAt phases.now entries.now) result }
{
    'entries: for k in 0..entries.len() {
        if !is_right_entry(phases, entries, k) {
            return Some(k);
        }
    }
    None
}
