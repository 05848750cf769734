//! The divisor of a parameter's value: a power of N times the greatest magnitude of its factor.

ghost use Rattle.std.specs.Prelude.{◌≡◌, ◌≤◌, ◌^◌, ◌*◌};
ghost use Rattle.cef_term.specs.Kept.{factor_most};

use crate::form::Form;

/// The divisor of a parameter's value: a power of N for its counts, times the greatest magnitude
/// of its factor.
pub fn divisor_of(n: u32, count: usize, form: Form) -> u128
    requires some { 1 ≤ n }
    requires room { n ^ count * factor_most n form ≤ 3 * 2 ^ 70 }
    ensures { result ≡ n ^ count * factor_most n form }
{
    power_of_parts(n, count) * most_of(n, form)
}

#[tactic(auto, using(crate::proofs::Rooms::powers))]
fn most_of(n: u32, form: Form) -> u128
    requires some { 1 ≤ n }
    requires room { factor_most n form ≤ 3 * 2 ^ 70 }
    ensures { result ≡ factor_most n form }
{
    match form {
        Form::Plain => 1,
        Form::Binary { order, .. } => power_of_parts(n, usize::from(order)),
        Form::Ternary { .. } => 3 * u128::from(n),
    }
}

/// A power of N.
#[tactic(auto, using(crate::proofs::Rooms::powers))]
fn power_of_parts(n: u32, exponent: usize) -> u128
    requires some { 1 ≤ n }
    requires room { n ^ exponent ≤ 3 * 2 ^ 70 }
    ensures { result ≡ n ^ exponent }
{
    if exponent == 0 {
        return 1;
    }
    power_of_parts(n, exponent - 1) * u128::from(n)
}
