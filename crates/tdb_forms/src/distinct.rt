ghost use Rattle.std.specs.Prelude.{◌≡◌, IfOk};
ghost use Rattle.tdb_forms.specs.Lists.{is_distinct as distinct};

use cal_scan::Name;
use indexmap::IndexSet;
use std::alloc::{AllocError, Global};

/// Whether no name stands twice.
pub(crate) fn is_distinct(alloc: Global, names: &[Name]) -> Result<bool, AllocError>
    ensures { IfOk result (λ b. b ≡ distinct names.now) }
{
    let mut seen: IndexSet<&[u8]> = IndexSet::new(alloc);
    'names: for i in 0..names.len() {
        let added = seen.insert(names[i].bytes())?;
        if !added {
            return Ok(false);
        }
    }
    Ok(true)
}
