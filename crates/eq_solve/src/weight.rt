ghost use Rattle.std.specs.Prelude.{ℕ, ◌≤◌, ◌<◌, ◌≢◌, List, length, slice_index_or, AllPairs, IsPermutation, IfOk};
ghost use Rattle.lp_basis.specs.declared.column.Column.{Column};
ghost use Rattle.std.specs.Prelude.{ℤ};
ghost use Rattle.lp_core.specs.Plans.{IsPlan};
ghost use Rattle.eq_solve.specs.Prices.{IsPlaceAmong};

use lp_core::Plan;
use std::alloc::{AllocError, Global};

/// The place of a column among rising weights.
fn place_among(weights: &[(usize, i128)], column: usize) -> usize
    ensures { IsPlaceAmong weights.now column result }
{
    'weights: for place in 0..weights.len() {
        if column < weights[place].0 {
            return place;
        }
    }
    weights.len()
}

/// The weights in rising order of their columns.
fn rising_weights(
    alloc: Global,
    weights: &[(usize, i128)],
) -> Result<Vec<(usize, i128)>, AllocError>
    ensures permutation { IfOk result (λ rising. IsPermutation weights.now rising.items) }
    ensures rising { IfOk result (λ rising. AllPairs (λ v w. v.0 ≢ w.0) weights.now → AllPairs (λ v w. v.0 < w.0) rising.items) }
{
    let mut rising = Vec::new(alloc);
    'weights: for k in 0..weights.len() {
        let weight = weights[k];
        let place = place_among(&rising, weight.0);
        rising.insert(place, weight)?;
    }
    Ok(rising)
}

/// The plan with its weights in rising order of their columns.
pub(crate) fn rising_plan(alloc: Global, plan: Plan) -> Result<Plan, AllocError>
    ensures plan { IfOk result (λ rising. (columns : List Column) (target : List ℤ) → IsPlan columns target plan → IsPlan columns target rising) }
    ensures rising { IfOk result (λ rising. (columns : List Column) (target : List ℤ) → IsPlan columns target plan → AllPairs (λ v w. v.0 < w.0) rising.weights.items) }
{
    let weights = rising_weights(alloc, &plan.weights)?;
    Ok(Plan {
        weights,
        parts: plan.parts,
        potentials: plan.potentials,
        denominator: plan.denominator,
    })
}
