//! What a step leaves of the liquid.

ghost use Rattle.std.specs.Prelude.{◌≡◌, ℕ, ◌<◌, ◌^◌, length, filter, ℤ, pos, ◌*ℤ◌, ◌≤ℤ◌, FitsSigned};
ghost use Rattle.std.specs.Int.{w128};
ghost use Rattle.std.specs.Bool.{OnTrue, OnFalse};
ghost use Rattle.cal_math.specs.Vectors.{at};
ghost use Rattle.cef_report.specs.Assemblages.{content_of, total};
ghost use Rattle.cef_report.specs.Holding.{Holds};
ghost use Rattle.cef_path.specs.Ledgers.{is_of, IsLeft};
ghost use Rattle.cal_check.specs.Workings.{CanTotal};

use cal_scan::{Name, is_word};
use cal_whole::{plus, times};
use cef_core::{System, content};
use cef_report::{Entry, Report};

/// Whether the entry is of the phase of this name.
fn is_of(phases: &[Name], name: &Name, entry: &Entry) -> bool
    requires { entry.now.phase < length phases.now }
    ensures { result ≡ is_of phases.now name.now entry.now }
{
    is_word(phases[entry.phase].bytes(), name.bytes())
}

/// What a formula unit of the entry holds of a component.
fn content_of(system: &System, entry: &Entry, component: usize) -> i128
    requires { entry.now.phase < length system.now.phases }
    ensures { result ≡ content_of system.now entry.now component }
{
    let phase = &system.phases.as_slice()[entry.phase];
    content(phase, &entry.site, component)
}

/// What the entry holds of a component.
fn held_by(system: &System, entry: &Entry, component: usize) -> i128
    requires phase { entry.now.phase < length system.now.phases }
    requires fits { FitsSigned w128 (entry.now.amount *ℤ content_of system.now entry.now component) }
    ensures { result ≡ entry.now.amount *ℤ content_of system.now entry.now component }
{
    let content = content_of(system, entry, component);
    times(entry.amount, content)
}

/// The total of a component in the entries of the phase of this name.
fn total_in(
    system: &System,
    phases: &[Name],
    name: &Name,
    entries: &[Entry],
    component: usize,
) -> i128
    requires { CanTotal system.now phases.now entries.now component }
    ensures { result ≡ total system.now (filter (is_of phases.now name.now) entries.now) component }
{
    match entries.split_first() {
        None => 0,
        Some((entry, rest)) => {
            let behind = total_in(system, phases, name, rest, component);
            if is_of(phases, name, entry) {
                let here = held_by(system, entry, component);
                return plus(here, behind);
            }
            behind
        }
    }
}

/// Whether the numbers are the totals of the liquid in an equilibrium.
pub(crate) fn is_left(system: &System, liquid: &Name, report: &Report, left: &[i128]) -> bool
    requires one_each { length left.now ≡ length report.now.elements }
    requires holds { Holds system.now report.now.asked report.now }
    requires high { (c : ℕ) → at report.now.totals c ≤ℤ pos (2 ^ 61) }
    ensures yes { OnTrue result (IsLeft system.now liquid.now report.now left.now) }
    ensures no { OnFalse result (IsLeft system.now liquid.now report.now left.now → ⊥) }
{
    let phases = report.phases.as_slice();
    let entries = report.entries.as_slice();
    'components: for component in 0..left.len() {
        let total = total_in(system, phases, liquid, entries, component);
        if left[component] != total {
            return false;
        }
    }
    true
}
