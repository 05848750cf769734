ghost use Rattle.std.specs.Prelude.{◌≡◌, List, ℤ, ◌≤◌, IfOk, IfSome, Some, Ok};
ghost use Rattle.cal_scan.specs.Lines.{texts};
ghost use Rattle.cal_lines.specs.Kinds as kinds;

use crate::number::integer_of;
use cal_limits::MOST_NUMBER;
use cal_list::Items;
use std::alloc::{AllocError, Global};

fn integers_of(
    alloc: Global,
    words: &[&[u8]],
    limit: u128,
) -> Result<Option<Items<i128>>, AllocError>
    requires { limit ≤ MOST_NUMBER }
    ensures { IfOk result (λ o. o ≡ kinds.all_integers limit (texts words.now)) }
{
    let mut all = Items::new(alloc);
    'words: for word in words {
        let Some(value) = integer_of(*word, limit) else {
            return Ok(None);
        };
        all.push(value)?;
    }
    Ok(Some(all))
}

/// Whole numbers of a magnitude of at most the limit, one for each word.
pub fn all_integers(
    alloc: Global,
    words: &[&[u8]],
    limit: u128,
) -> Result<Option<Items<i128>>, AllocError>
    requires { limit ≤ MOST_NUMBER }
    ensures value { IfOk result (λ o. o ≡ kinds.all_integers limit (texts words.now)) }
    // The words are the digits of the numbers.
    ensures found { IfOk result (λ o. IfSome o (kinds.AreIntegers limit (texts words.now))) }
    // All numbers within the limit are read.
    ensures all { IfOk result (λ o. (vs : List ℤ) → kinds.AreIntegers limit (texts words.now) vs → o ≡ Some vs) }
{
    let found = integers_of(alloc, words, limit)?;
    Ok(found)
}
