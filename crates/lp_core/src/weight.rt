ghost use Rattle.std.specs.Prelude.{◌≡◌, ℕ, ◌<◌, ◌≤◌, ◌^◌, length, ℤ, pos, IfOk, unsigned_abs};
ghost use Rattle.cal_math.specs.Vectors.{at, dot};
ghost use Rattle.lp_core.specs.Weights.{IsLowest, FitsRow, CanWeigh, AreFractions};
ghost use Rattle.lp_core.specs.Weights.{FitsCommon, IsCommon, numerator_over, FitsWeights, AreWeights};

use cal_whole::{gcd, least_common_multiple};
use lp_basis::{Row, product};
use std::alloc::{AllocError, Global};

/// A number of at least 0 in lowest terms.
#[derive(Clone, Copy)]
pub(crate) struct Fraction {
    numerator: u128,
    denominator: u128,
}

/// A ratio in lowest terms.
fn lowest(above: u128, below: u128) -> Fraction
    requires { 1 ≤ below }
    ensures { IsLowest above below result }
{
    let shared = gcd(below, above);
    Fraction {
        numerator: above / shared,
        denominator: below / shared,
    }
}

/// The weight at the place of a row: its product with the target over its own product.
fn fraction_of(row: &Row, target: &[i128]) -> Fraction
    requires { (m : ℕ) × (w : ℕ) × FitsRow m w row.now target.now }
    ensures { IsLowest (unsigned_abs (dot (length row.now.numbers.items) (at row.now.numbers.items) (at target.now)))
        (unsigned_abs row.now.own) result }
{
    let met = product(&row.numbers, target);
    lowest(met as u128, row.own as u128)
}

/// The weights at the places of a basis.
pub(crate) fn fractions_of(
    alloc: Global,
    rows: &[Row],
    target: &[i128],
) -> Result<Vec<Fraction>, AllocError>
    requires { (b : ℕ) × (w : ℕ) × (columns : ℕ → ℕ → ℤ)
        × CanWeigh b w columns rows.now target.now }
    ensures { IfOk result (λ fractions. AreFractions rows.now target.now fractions.items) }
{
    let mut fractions = Vec::new(alloc);
    'rows: for j in 0..rows.len() {
        let fraction = fraction_of(&rows[j], target);
        fractions.push(fraction)?;
    }
    Ok(fractions)
}

/// The least common denominator.
pub(crate) fn parts_of(fractions: &[Fraction]) -> u128
    requires { FitsCommon fractions.now }
    ensures { IsCommon fractions.now (length fractions.now) result }
{
    let mut parts = 1;
    'fractions: for j in 0..fractions.len() {
        parts = least_common_multiple(parts, fractions[j].denominator);
    }
    parts
}

/// A fraction over `parts`.
fn weight_of(fraction: Fraction, parts: u128) -> i128
    requires positive { 1 ≤ fraction.denominator }
    requires small { numerator_over fraction parts ≤ 2 ^ 112 }
    ensures { result ≡ pos (numerator_over fraction parts) }
{
    let weight = fraction.numerator * (parts / fraction.denominator);
    weight as i128
}

/// The known columns of a basis, by their places among all, with their weights over `parts`: without those of weight 0.
pub(crate) fn weights_of(
    alloc: Global,
    places: &[Option<usize>],
    fractions: &[Fraction],
    parts: u128,
) -> Result<Vec<(usize, i128)>, AllocError>
    requires { FitsWeights places.now fractions.now parts }
    ensures { IfOk result (λ weights. AreWeights places.now fractions.now parts (length places.now) weights.items) }
{
    let mut weights = Vec::new(alloc);
    'places: for j in 0..places.len() {
        if let Some(k) = places[j] {
            let weight = weight_of(fractions[j], parts);
            if weight > 0 {
                weights.push((k, weight))?;
            }
        }
    }
    Ok(weights)
}
