//! The divisor of a parameter's value.

ghost use Rattle.std.specs.Prelude.{◌≡◌, ◌≤◌, ◌^◌, ◌*◌};
ghost use Rattle.cef_minor.specs.Kept.{factor_most};

use crate::form::Form;

/// A power of N.
#[tactic(auto, using(cef_term::proofs::Rooms::powers))]
fn power_of(parts: u32, exponent: usize) -> u128
    requires some { 1 ≤ parts }
    requires room { parts ^ exponent ≤ 2 ^ 70 }
    ensures { result ≡ parts ^ exponent }
{
    if exponent == 0 {
        return 1;
    }
    power_of(parts, exponent - 1) * u128::from(parts)
}

/// The greatest magnitude of the factor.
fn factor_most(parts: u32, form: Form) -> u128
    ensures { result ≡ factor_most parts form }
{
    match form {
        Form::Plain => 1,
        Form::Difference { .. } => u128::from(parts),
        Form::Weighted { .. } => 3 * u128::from(parts),
    }
}

/// A power of N for the counts of an array, times the greatest magnitude of its factor.
pub fn divisor_of(parts: u32, count: usize, form: Form) -> u128
    requires some { 1 ≤ parts }
    requires power { parts ^ count ≤ 2 ^ 70 }
    requires room { parts ^ count * factor_most parts form ≤ 3 * 2 ^ 70 }
    ensures { result ≡ parts ^ count * factor_most parts form }
{
    power_of(parts, count) * factor_most(parts, form)
}
