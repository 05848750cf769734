//! What an equilibrium leaves of the liquid.

ghost use Rattle.std.specs.Prelude.{◌≡◌, ℕ, ◌<◌, ◌≤◌, IfOk, List, length, filter, ℤ, pos, ◌*ℤ◌, ◌≤ℤ◌, FitsSigned};
ghost use Rattle.std.specs.Int.{w128};
ghost use Rattle.cal_limits.specs.declared.TheConstants.{MOST_ASKED};
ghost use Rattle.cal_math.specs.Vectors.{at};
ghost use Rattle.cef_report.specs.Assemblages.{content_of, total};
ghost use Rattle.cef_report.specs.Holding.{Holds};
ghost use Rattle.cef_path.specs.Ledgers.{is_of, IsLeft};
ghost use Rattle.cal_scheil.specs.Workings.{AreWithin, CanTotal};

use cal_list::Items;
use cal_scan::{Name, is_word};
use cal_whole::{plus, times};
use cef_core::{System, content};
use cef_report::{Entry, Report};
use std::alloc::{AllocError, Global};

/// Whether the entry is of the phase of this name.
fn is_of(phases: &[Name], name: &Name, entry: &Entry) -> bool
    requires { entry.now.phase < length phases.now }
    ensures { result ≡ is_of phases.now name.now entry.now }
{
    is_word(phases[entry.phase].bytes(), name.bytes())
}

/// What a formula unit of the entry holds of a component.
fn content_of(system: &System, entry: &Entry, component: usize) -> i128
    requires { entry.now.phase < length system.now.phases }
    ensures { result ≡ content_of system.now entry.now component }
{
    let phase = &system.phases.as_slice()[entry.phase];
    content(phase, &entry.site, component)
}

/// What the entry holds of a component.
fn held_by(system: &System, entry: &Entry, component: usize) -> i128
    requires phase { entry.now.phase < length system.now.phases }
    requires fits { FitsSigned w128 (entry.now.amount *ℤ content_of system.now entry.now component) }
    ensures { result ≡ entry.now.amount *ℤ content_of system.now entry.now component }
{
    let content = content_of(system, entry, component);
    times(entry.amount, content)
}

/// The total of a component in the entries of the phase of this name.
fn total_in(
    system: &System,
    phases: &[Name],
    name: &Name,
    entries: &[Entry],
    component: usize,
) -> i128
    requires { CanTotal system.now phases.now entries.now component }
    ensures { result ≡ total system.now (filter (is_of phases.now name.now) entries.now) component }
{
    match entries.split_first() {
        None => 0,
        Some((entry, rest)) => {
            let behind = total_in(system, phases, name, rest, component);
            if is_of(phases, name, entry) {
                let here = held_by(system, entry, component);
                return plus(here, behind);
            }
            behind
        }
    }
}

/// The totals of the liquid in an equilibrium.
pub(crate) fn left_of(
    alloc: Global,
    system: &System,
    report: &Report,
    liquid: &Name,
) -> Result<Items<i128>, AllocError>
    requires holds { (asked : List ℤ) × Holds system.now asked report.now }
    requires high { (c : ℕ) → at report.now.totals c ≤ℤ pos MOST_ASKED }
    ensures left { IfOk result (λ left. IsLeft system.now liquid.now report.now left) }
    ensures within { IfOk result (λ left. AreWithin left report.now.totals) }
{
    let phases = report.phases.as_slice();
    let entries = report.entries.as_slice();
    let mut left = Items::new(alloc);
    'components: for component in 0..system.elements.len() {
        left.push(total_in(system, phases, liquid, entries, component))?;
    }
    Ok(left)
}
