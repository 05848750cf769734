ghost use Rattle.std.specs.Prelude.{IfOk, IfErr};
ghost use Rattle.lp_core.specs.Fitting.{Fits};
ghost use Rattle.lp_core.specs.Plans.{IsPlan, IsCheapest, IsRefusal};

use crate::fault::LpFault;
use crate::first::{first_end, has_unit};
use crate::plan::{Plan, plan_of};
use crate::second::second_end;
use lp_basis::Column;
use std::alloc::Global;

/// The plan that costs least: weights of at most C columns that give the target, and potentials that prove that no weights cost less.
/// It is found by the simplex method in two phases over exact rows, with the lexicographic rule. Where no weights of at least 0 give the
/// target, the answer is `Infeasible` with its proof. `fits` tells what it takes.
pub fn solve(alloc: Global, columns: &[Column], target: &[i128]) -> Result<Plan, LpFault>
    requires { Fits columns.now target.now }
    ensures plan { IfOk result (λ plan. IsPlan columns.now target.now plan) }

    // No weights that give the target cost less.
    ensures least { IfOk result (λ plan. IsCheapest columns.now target.now plan) }

    // Where there is no plan, no weights of at least 0 give the target.
    ensures infeasible { IfErr result (λ fault. IsRefusal columns.now target.now fault) }
{
    let end = first_end(alloc, columns, target)?;
    if has_unit(&end.places, &end.rows, target) {
        return Err(LpFault::Infeasible(end.potentials.numbers));
    }
    let last = second_end(alloc, columns, target, end)?;
    let plan = plan_of(alloc, target, last)?;
    Ok(plan)
}
