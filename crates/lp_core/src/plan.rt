ghost use Rattle.std.specs.Prelude.{ℕ, List, IfOk};
ghost use Rattle.lp_basis.specs.declared.column.Column.{Column};
ghost use Rattle.lp_core.specs.Plans.{IsPlan};
ghost use Rattle.lp_core.specs.Ends.{IsLast};

use crate::weight::{fractions_of, parts_of, weights_of};
use lp_stage::Stage;
use std::alloc::{AllocError, Global};

/// The weights of at most C columns, each by the column's place among all, over `parts`; and C potentials over `denominator`, one for each
/// component: what a unit of it costs, in the unit of the columns' costs.
#[derive(Drop)]
pub struct Plan {
    pub weights: Vec<(usize, i128)>,
    pub parts: i128,
    pub potentials: Vec<i128>,
    pub denominator: i128,
}

/// The plan of the last stage.
pub(crate) fn plan_of(alloc: Global, target: &[i128], stage: Stage) -> Result<Plan, AllocError>
    requires { (b : ℕ) × (columns : List Column) × IsLast b columns target.now stage }
    ensures { IfOk result (λ plan. (b : ℕ) (columns : List Column) →
        IsLast b columns target.now stage → IsPlan columns target.now plan) }
{
    let fractions = fractions_of(alloc, &stage.rows, target)?;
    let parts = parts_of(&fractions);
    let weights = weights_of(alloc, &stage.places, &fractions, parts)?;
    Ok(Plan {
        weights,
        parts: parts as i128,
        potentials: stage.potentials.numbers,
        denominator: stage.potentials.denominator as i128,
    })
}
