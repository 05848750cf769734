ghost use Rattle.std.specs.Prelude.{◌≡◌, ℕ, ◌<◌, ◌≤◌, ◌^◌, length, ℤ, IfOk};
ghost use Rattle.lp_laws.specs.Bases.{IsUnit};
ghost use Rattle.cal_math.specs.Vectors.{at};
ghost use Rattle.lp_basis.specs.Held.{IsHeld};

use crate::row::Row;
use std::alloc::{AllocError, Global};

/// 1 at the component, 0 at every other.
pub fn unit_row(alloc: Global, size: usize, component: usize) -> Result<Vec<i128>, AllocError>
    requires { component < size }
    ensures sized { IfOk result (λ row. length row.items ≡ size) }
    ensures unit { IfOk result (λ row. IsUnit size component (at row.items)) }
{
    let mut numbers = Vec::new(alloc);
    'fill: for c in 0..size {
        let number = if c == component { 1 } else { 0 };
        numbers.push(number)?;
    }
    Ok(numbers)
}

/// The rows of the basis of unit columns, one for each component.
pub fn units(alloc: Global, size: usize) -> Result<Vec<Row>, AllocError>
    requires { 1 ≤ size }
    ensures { IfOk result (λ rows. (w : ℕ) (columns : ℕ → ℕ → ℤ) → 1 ≤ w → w ^ size ≤ 2 ^ 62 →
        ((j : ℕ) → j < size → IsUnit size j (columns j)) →
        IsHeld size w columns rows.items) }
{
    let mut rows = Vec::new(alloc);
    'units: for k in 0..size {
        let numbers = unit_row(alloc, size, k)?;
        rows.push(Row { numbers, own: 1 })?;
    }
    Ok(rows)
}
