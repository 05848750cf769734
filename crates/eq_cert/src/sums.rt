//! The rules of the totals, the energy and the tolerance.

ghost use Rattle.std.specs.Prelude.{◌≡◌, ◌*◌, ◌≤◌, ◌^◌, length, map, ◌*ℤ◌, ◌-ℤ◌, ◌≤ℤ◌, unsigned_abs};
ghost use Rattle.std.specs.Bool.{OnTrue, OnFalse};
ghost use Rattle.std.specs.List.{AllByRecursion};
ghost use Rattle.cef_core.specs.Constitutions.{IsConstitution, content as content_of};
ghost use Rattle.cef_core.specs.Energies.{energy as energy_at};
ghost use Rattle.cef_core.specs.Phases.{IsFine};
ghost use Rattle.cef_report.specs.Assemblages.{total, total_energy};
ghost use Rattle.cef_report.specs.Spelled.{IsNumber};
ghost use Rattle.eq_cert.specs.Entries.{AreTotals, IsFineEntry, InSystemOf};
ghost use Rattle.eq_cert.specs.Rules.{AreNear};

use cef_core::{PhaseAt, Site, content};
use cef_phase::PhaseModel;
use cef_report::Entry;

/// An amount of at most 2^50 times a content or an energy of at most 2^55.
fn times(amount: i128, number: i128) -> i128
    requires amount { unsigned_abs amount ≤ 2 ^ 50 }
    requires number { unsigned_abs number ≤ 2 ^ 55 }
    ensures exact { result ≡ amount *ℤ number }
    ensures size { unsigned_abs result ≤ 2 ^ 105 }
{
    amount * number
}

/// The content of a component in a constitution, with its size.
#[tactic(auto, using(crate::proofs::Sized::sized))]
fn content_in(phase: &PhaseAt, site: &Site, component: usize) -> i128
    requires fine { IsFine phase.now }
    requires constitution { IsConstitution phase.now site.now }
    ensures exact { result ≡ content_of phase.now site.now component }
    ensures size { unsigned_abs result ≤ 2 ^ 55 }
{
    content(phase, site, component)
}

/// The energy of a constitution, with its size.
#[tactic(auto, using(crate::proofs::Sized::sized))]
fn energy_in<P: PhaseModel>(model: &P, site: &Site) -> i128
    requires fine { IsFine (P.phase_of model.now) }
    requires constitution { IsConstitution (P.phase_of model.now) site.now }
    ensures exact { result ≡ energy_at (P.phase_of model.now) site.now }
    ensures size { unsigned_abs result ≤ 2 ^ 55 }
{
    model.value(site)
}

/// The total of a component.
fn total_of(phases: &[PhaseAt], entries: &[Entry], component: usize) -> i128
    requires few { length entries.now ≤ 32 }
    requires fine { AllByRecursion (IsFineEntry phases.now) entries.now }
    ensures exact { InSystemOf phases.now (λ s. result ≡ total s entries.now component) }
    ensures size { unsigned_abs result ≤ length entries.now * 2 ^ 105 }
{
    match entries.split_first() {
        None => 0,
        Some((entry, rest)) => {
            let more = total_of(phases, rest, component);
            let content = content_in(&phases[entry.phase], &entry.site, component);
            let part = times(entry.amount, content);
            part + more
        }
    }
}

/// The sum of amount times energy.
pub(crate) fn energy_of<P: PhaseModel>(models: &[P], entries: &[Entry]) -> i128
    requires few { length entries.now ≤ 32 }
    requires fine { AllByRecursion (IsFineEntry (map P.phase_of models.now)) entries.now }
    ensures exact { InSystemOf (map P.phase_of models.now) (λ s. result ≡ total_energy s entries.now) }
    ensures size { unsigned_abs result ≤ length entries.now * 2 ^ 105 }
{
    match entries.split_first() {
        None => 0,
        Some((entry, rest)) => {
            let more = energy_of(models, rest);
            let energy = energy_in(&models[entry.phase], &entry.site);
            let part = times(entry.amount, energy);
            part + more
        }
    }
}

/// Whether each total is the sum of amount times content.
pub(crate) fn are_totals(phases: &[PhaseAt], entries: &[Entry], totals: &[i128]) -> bool
    requires few { length entries.now ≤ 32 }
    requires fine { AllByRecursion (IsFineEntry phases.now) entries.now }
    ensures yes { OnTrue result (InSystemOf phases.now (λ s. AreTotals s entries.now totals.now)) }
    ensures no { OnFalse result (InSystemOf phases.now (λ s. AreTotals s entries.now totals.now → ⊥)) }
{
    'components: for c in 0..totals.len() {
        let total = total_of(phases, entries, c);
        if totals[c] != total {
            return false;
        }
    }
    true
}

/// Whether two numbers differ by at most the tolerance.
fn is_near(a: i128, b: i128, tolerance: i128) -> bool
    requires a { IsNumber a }
    requires b { IsNumber b }
    ensures yes { OnTrue result (((a -ℤ b) ≤ℤ tolerance) × ((b -ℤ a) ≤ℤ tolerance)) }
    ensures no { OnFalse result (((a -ℤ b) ≤ℤ tolerance) × ((b -ℤ a) ≤ℤ tolerance) → ⊥) }
{
    if a - b <= tolerance {
        b - a <= tolerance
    } else {
        false
    }
}

/// Whether no total differs from the asked one by more than the tolerance.
pub(crate) fn are_near(asked: &[i128], totals: &[i128], tolerance: i128) -> bool
    requires one_each { length asked.now ≡ length totals.now }
    requires asked_small { AllByRecursion IsNumber asked.now }
    requires totals_small { AllByRecursion IsNumber totals.now }
    ensures yes { OnTrue result (AreNear asked.now totals.now tolerance) }
    ensures no { OnFalse result (AreNear asked.now totals.now tolerance → ⊥) }
{
    match asked.split_first() {
        None => true,
        Some((a, asked)) => match totals.split_first() {
            None => true,
            Some((b, totals)) => {
                if is_near(*a, *b, tolerance) {
                    are_near(asked, totals, tolerance)
                } else {
                    false
                }
            }
        },
    }
}
