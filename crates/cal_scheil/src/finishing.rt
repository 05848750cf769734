//! When a path ends.

ghost use Rattle.std.specs.Prelude.{◌≡◌, ℕ, ◌≤◌, ◌^◌, ◌↔◌, IsTrue, length, ℤ, pos, ◌≤ℤ◌};
ghost use Rattle.cal_limits.specs.declared.TheConstants.{MOST_ELEMENTS, MOST_ASKED, HIGHEST_TEMPERATURE};
ghost use Rattle.cal_math.specs.Sums.{sum_of};
ghost use Rattle.cal_math.specs.Vectors.{at};
ghost use Rattle.cef_path.specs.declared.limit.TheConstants.{MOST_STOP};
ghost use Rattle.cef_path.specs.Finishing.{IsNone, IsFraction, FinishIs};
ghost use Rattle.cal_scheil.specs.Walks.{start_of};

use crate::job::PathJob;
use cef_path::Finish;

/// The sum of a few numbers.
fn sum(numbers: &[i128]) -> u128
    requires few { length numbers.now ≤ MOST_ELEMENTS }
    requires low { (c : ℕ) → pos 0 ≤ℤ at numbers.now c }
    requires high { (c : ℕ) → at numbers.now c ≤ℤ pos MOST_ASKED }
    ensures exact { pos result ≡ sum_of (λ n. n) numbers.now }
    ensures high { result ≤ 2 ^ 53 }
{
    let mut all = 0;
    'numbers: for number in numbers {
        all += number.unsigned_abs();
    }
    all
}

fn is_none(left: &[i128]) -> bool
    ensures { IsTrue result ↔ IsNone left.now }
{
    left.iter().all(|number| *number == 0)
}

fn is_fraction(job: &PathJob, asked: &[i128], left: &[i128]) -> bool
    requires stop { job.now.stop ≤ MOST_STOP }
    requires asked_few { length asked.now ≤ MOST_ELEMENTS }
    requires asked_low { (c : ℕ) → pos 0 ≤ℤ at asked.now c }
    requires asked_high { (c : ℕ) → at asked.now c ≤ℤ pos MOST_ASKED }
    requires few { length left.now ≤ MOST_ELEMENTS }
    requires low { (c : ℕ) → pos 0 ≤ℤ at left.now c }
    requires high { (c : ℕ) → at left.now c ≤ℤ pos MOST_ASKED }
    ensures { IsTrue result ↔ IsFraction (start_of job.now asked.now) left.now }
{
    let rest = sum(left);
    let first = sum(asked);
    rest * 1_000_000 <= u128::from(job.stop) * first
}

/// Why the path ends with a step at this temperature that leaves so much, where so much was asked at first, if it does.
pub(crate) fn finish_of(job: &PathJob, asked: &[i128], t: u32, left: &[i128]) -> Option<Finish>
    requires stop { job.now.stop ≤ MOST_STOP }
    requires floor { job.now.floor ≤ HIGHEST_TEMPERATURE }
    requires descent { job.now.descent ≤ HIGHEST_TEMPERATURE }
    requires asked_few { length asked.now ≤ MOST_ELEMENTS }
    requires asked_low { (c : ℕ) → pos 0 ≤ℤ at asked.now c }
    requires asked_high { (c : ℕ) → at asked.now c ≤ℤ pos MOST_ASKED }
    requires few { length left.now ≤ MOST_ELEMENTS }
    requires low { (c : ℕ) → pos 0 ≤ℤ at left.now c }
    requires high { (c : ℕ) → at left.now c ≤ℤ pos MOST_ASKED }
    ensures { FinishIs (start_of job.now asked.now) t left.now result }
{
    if is_none(left) {
        return Some(Finish::NoLiquid);
    }
    if is_fraction(job, asked, left) {
        return Some(Finish::Fraction);
    }
    if t < job.floor + job.descent {
        return Some(Finish::Temperature);
    }
    None
}
