//! When a path ends.

ghost use Rattle.std.specs.Prelude.{◌≡◌, ◌≤◌, ◌^◌, ◌↔◌, IsTrue, ℤ, pos};
ghost use Rattle.cal_limits.specs.declared.TheConstants.{HIGHEST_TEMPERATURE};
ghost use Rattle.cal_math.specs.Sums.{sum_of};
ghost use Rattle.cef_path.specs.declared.limit.TheConstants.{MOST_STOP};
ghost use Rattle.cef_path.specs.Finishing.{IsNone, IsFraction, FinishIs};
ghost use Rattle.cal_check.specs.Paths.{start_of, first_asked};
ghost use Rattle.cal_check.specs.Workings.{AreModest};

use cef_path::{Finish, PathText};

/// The sum of a few numbers.
fn sum(numbers: &[i128]) -> u128
    requires modest { AreModest numbers.now }
    ensures exact { pos result ≡ sum_of (λ n. n) numbers.now }
    ensures high { result ≤ 2 ^ 64 }
{
    let mut all = 0;
    'numbers: for number in numbers {
        all += number.unsigned_abs();
    }
    all
}

fn is_none(left: &[i128]) -> bool
    ensures { IsTrue result ↔ IsNone left.now }
{
    left.iter().all(|number| *number == 0)
}

fn is_fraction(path: &PathText, asked: &[i128], left: &[i128]) -> bool
    requires stop { path.now.stop ≤ MOST_STOP }
    requires first { asked.now ≡ first_asked path.now.steps }
    requires asked { AreModest asked.now }
    requires left { AreModest left.now }
    ensures { IsTrue result ↔ IsFraction (start_of path.now) left.now }
{
    let rest = sum(left);
    let first = sum(asked);
    rest * 1_000_000 <= u128::from(path.stop) * first
}

/// Why the path ends with a step at this temperature that leaves so much, if it does. `asked` is what the first step asks.
pub(crate) fn finish_of(path: &PathText, asked: &[i128], t: u32, left: &[i128]) -> Option<Finish>
    requires stop { path.now.stop ≤ MOST_STOP }
    requires floor { path.now.floor ≤ HIGHEST_TEMPERATURE }
    requires descent { path.now.descent ≤ HIGHEST_TEMPERATURE }
    requires first { asked.now ≡ first_asked path.now.steps }
    requires asked { AreModest asked.now }
    requires left { AreModest left.now }
    ensures { FinishIs (start_of path.now) t left.now result }
{
    if is_none(left) {
        return Some(Finish::NoLiquid);
    }
    if is_fraction(path, asked, left) {
        return Some(Finish::Fraction);
    }
    if t < path.floor + path.descent {
        return Some(Finish::Temperature);
    }
    None
}
