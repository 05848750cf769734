//! The factor behind the product of the counts, its least and its greatest over a box.

ghost use Rattle.std.specs.Prelude.{◌≡◌, ◌*◌, ◌-◌, ◌+◌, pos, ◌-ℤ◌};
ghost use Rattle.cef_term.specs.Kept.{HasFactor, counts_for};
ghost use Rattle.cef_term.specs.Kept.{factor_at, least_factor_at, greatest_factor_at};

use crate::form::Form;
use crate::power::{difference, greatest_power_of, least_power_of, power_of};

/// N and twice the own count, less the two others.
#[inline(always)]
fn weight(parts: u32, own: u16, second: u16, third: u16) -> i64
    ensures { result ≡ pos (parts + 2 * own) -ℤ pos (second + third) }
{
    let up = u64::from(parts) + 2 * u64::from(own);
    let down = u64::from(second) + u64::from(third);
    up as i64 - down as i64
}

/// The greater of 0 and that.
#[inline(always)]
fn weight_from(parts: u32, own: u16, second: u16, third: u16) -> i64
    ensures { result ≡ pos (parts + 2 * own - (second + third)) }
{
    let up = u64::from(parts) + 2 * u64::from(own);
    let down = u64::from(second) + u64::from(third);
    up.saturating_sub(down) as i64
}

/// The factor behind the product.
#[inline(always)]
#[tactic(auto, using(crate::proofs::Factors::factor_rules))]
pub fn factor_of(form: Form, counts: &[u16]) -> i64
    requires { HasFactor form counts.now counts.now }
    ensures { result ≡ factor_at form counts.now }
{
    match form {
        Form::Plain => 1,
        Form::Binary {
            first,
            second,
            order,
        } => power_of(
            difference(counts[usize::from(first)], counts[usize::from(second)]),
            order,
        ),
        Form::Ternary {
            parts,
            own,
            second,
            third,
        } => weight(
            parts,
            counts[usize::from(own)],
            counts[usize::from(second)],
            counts[usize::from(third)],
        ),
    }
}

/// The least of the factor over a box.
#[inline(always)]
#[tactic(auto, using(crate::proofs::Factors::ends_rules))]
pub fn least_factor_of(form: Form, low: &[u16], high: &[u16]) -> i64
    requires { HasFactor form low.now high.now }
    ensures { result ≡ least_factor_at form low.now high.now }
{
    match form {
        Form::Plain => 1,
        Form::Binary {
            first,
            second,
            order,
        } => least_power_of(
            difference(low[usize::from(first)], high[usize::from(second)]),
            difference(high[usize::from(first)], low[usize::from(second)]),
            order,
        ),
        Form::Ternary {
            parts,
            own,
            second,
            third,
        } => weight_from(
            parts,
            low[usize::from(own)],
            high[usize::from(second)],
            high[usize::from(third)],
        ),
    }
}

/// The greatest of the factor over a box.
#[inline(always)]
#[tactic(auto, using(crate::proofs::Factors::ends_rules))]
pub fn greatest_factor_of(form: Form, low: &[u16], high: &[u16]) -> i64
    requires { HasFactor form low.now high.now }
    ensures { result ≡ greatest_factor_at form low.now high.now }
{
    match form {
        Form::Plain => 1,
        Form::Binary {
            first,
            second,
            order,
        } => greatest_power_of(
            difference(low[usize::from(first)], high[usize::from(second)]),
            difference(high[usize::from(first)], low[usize::from(second)]),
            order,
        ),
        Form::Ternary {
            parts,
            own,
            second,
            third,
        } => weight(
            parts,
            high[usize::from(own)],
            low[usize::from(second)],
            low[usize::from(third)],
        ),
    }
}

/// The counts whose product with a factor is the lesser: the highs where the factor is below 0.
#[inline(always)]
#[tactic(auto, using(crate::proofs::Choosing::counts_for_rules))]
pub fn counts_for<'a>(factor: i64, low: &'a [u16], high: &'a [u16]) -> &'a [u16]
    ensures { result.now ≡ counts_for factor low.now high.now }
{
    if factor < 0 { high } else { low }
}
