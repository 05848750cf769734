ghost use Rattle.std.specs.Prelude.{◌≡◌, ◌∷◌, [], IfOk};

use cal_list::{Items, one};
use std::alloc::{AllocError, Global};

/// A list of two.
pub fn two<T: Drop>(alloc: Global, first: T, second: T) -> Result<Items<T>, AllocError>
    ensures { IfOk result (λ items. items ≡ first ∷ second ∷ []) }
{
    let mut items = one(alloc, first)?;
    items.push(second)?;
    Ok(items)
}

/// A list of three.
pub fn three<T: Drop>(alloc: Global, first: T, second: T, third: T) -> Result<Items<T>, AllocError>
    ensures { IfOk result (λ items. items ≡ first ∷ second ∷ third ∷ []) }
{
    let mut items = two(alloc, first, second)?;
    items.push(third)?;
    Ok(items)
}
