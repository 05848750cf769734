//! Sums over the steps of a path, by what the steps print.

ghost use Rattle.std.specs.Prelude.{◌≡◌, ◌≤◌, ◌<◌, ◌*◌, ◌^◌, ℕ, length, unsigned_abs};
ghost use Rattle.std.specs.Bool.{OnTrue, OnFalse};
ghost use Rattle.std.specs.List.{AllByRecursion};
ghost use Rattle.cal_math.specs.Sums.{sum_of};
ghost use Rattle.cef_path.specs.declared.limit.TheConstants.{MOST_STEPS};
ghost use Rattle.cal_check.specs.Workings as spec;
ghost use Rattle.cal_check.specs.Workings.{CanSum, HasPlainLost, HasPlainSolids};

use cal_whole::{minus, plus};
use cef_path::{PathText, StepText};

/// What became solid of a component in the step.
fn solid_in(step: &StepText, component: usize) -> i128
    requires { CanSum component step.now }
    ensures exact { result ≡ spec.solid_in component step.now }
    ensures size { unsigned_abs result ≤ 2 ^ 62 }
{
    let total = step.report.totals.as_slice()[component];
    let left = step.left.as_slice()[component];
    minus(total, left)
}

/// What was asked of a component in the step and is not in it.
fn lost_in(step: &StepText, component: usize) -> i128
    requires { CanSum component step.now }
    ensures exact { result ≡ spec.lost_in component step.now }
    ensures size { unsigned_abs result ≤ 2 ^ 62 }
{
    let asked = step.report.asked.as_slice()[component];
    let total = step.report.totals.as_slice()[component];
    minus(asked, total)
}

/// What became solid of a component in the steps.
fn solid_sum(steps: &[StepText], component: usize) -> i128
    requires few { length steps.now ≤ MOST_STEPS }
    requires each { AllByRecursion (CanSum component) steps.now }
    ensures exact { result ≡ sum_of (spec.solid_in component) steps.now }
    ensures size { unsigned_abs result ≤ length steps.now * 2 ^ 62 }
{
    match steps.split_first() {
        None => 0,
        Some((step, rest)) => {
            let more = solid_sum(rest, component);
            let here = solid_in(step, component);
            plus(here, more)
        }
    }
}

/// What was asked of a component in the steps and is in none.
fn lost_sum(steps: &[StepText], component: usize) -> i128
    requires few { length steps.now ≤ MOST_STEPS }
    requires each { AllByRecursion (CanSum component) steps.now }
    ensures exact { result ≡ sum_of (spec.lost_in component) steps.now }
    ensures size { unsigned_abs result ≤ length steps.now * 2 ^ 62 }
{
    match steps.split_first() {
        None => 0,
        Some((step, rest)) => {
            let more = lost_sum(rest, component);
            let here = lost_in(step, component);
            plus(here, more)
        }
    }
}

/// Whether the path prints what became solid in its steps.
pub(crate) fn are_solids(path: &PathText) -> bool
    requires few { length path.now.steps ≤ MOST_STEPS }
    requires each { (c : ℕ) → c < length path.now.solids → AllByRecursion (CanSum c) path.now.steps }
    ensures yes { OnTrue result (HasPlainSolids path.now) }
    ensures no { OnFalse result (HasPlainSolids path.now → ⊥) }
{
    let steps = path.steps.as_slice();
    let solids = path.solids.as_slice();
    'components: for component in 0..solids.len() {
        let sum = solid_sum(steps, component);
        if solids[component] != sum {
            return false;
        }
    }
    true
}

/// Whether the path prints what was asked of its steps and is in none.
pub(crate) fn are_lost(path: &PathText) -> bool
    requires few { length path.now.steps ≤ MOST_STEPS }
    requires each { (c : ℕ) → c < length path.now.lost → AllByRecursion (CanSum c) path.now.steps }
    ensures yes { OnTrue result (HasPlainLost path.now) }
    ensures no { OnFalse result (HasPlainLost path.now → ⊥) }
{
    let steps = path.steps.as_slice();
    let lost = path.lost.as_slice();
    'components: for component in 0..lost.len() {
        let sum = lost_sum(steps, component);
        if lost[component] != sum {
            return false;
        }
    }
    true
}
