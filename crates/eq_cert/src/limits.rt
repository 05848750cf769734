//! Numbers whose products have a limit.

ghost use Rattle.std.specs.Prelude.{ℕ, ◌≤◌, ◌<◌, ◌*◌, unsigned_abs};
ghost use Rattle.std.specs.Bool.{OnTrue, OnFalse};
ghost use Rattle.std.specs.List.{AllByRecursion};
ghost use Rattle.cal_limits.specs.declared.TheConstants.{MOST_BOUNDED as most};
ghost use Rattle.eq_cert.specs.Rules.{AreSmall};

use cal_limits::MOST_BOUNDED;

/// The greatest number whose product with the factor is at most 2^117.
fn limit(factor: u128) -> u128
    requires { 1 ≤ factor }
    ensures yes { (x : ℕ) → x ≤ result → x * factor ≤ most }
    ensures no { (x : ℕ) → result < x → most < x * factor }
{
    MOST_BOUNDED / factor
}

/// Whether each number is at most the limit in its magnitude.
fn are_within(numbers: &[i128], limit: u128) -> bool
    ensures yes { OnTrue result (AllByRecursion (λ x. unsigned_abs x ≤ limit) numbers.now) }
    ensures no { OnFalse result (AllByRecursion (λ x. unsigned_abs x ≤ limit) numbers.now → ⊥) }
{
    match numbers.split_first() {
        None => true,
        Some((number, rest)) => {
            if number.unsigned_abs() <= limit {
                are_within(rest, limit)
            } else {
                false
            }
        }
    }
}

/// Whether the magnitude of each number times the factor is at most 2^117.
#[tactic(auto, using(crate::proofs::Scaled::scaled))]
pub(crate) fn are_small(numbers: &[i128], factor: u128) -> bool
    requires { 1 ≤ factor }
    ensures yes { OnTrue result (AreSmall factor numbers.now) }
    ensures no { OnFalse result (AreSmall factor numbers.now → ⊥) }
{
    are_within(numbers, limit(factor))
}
