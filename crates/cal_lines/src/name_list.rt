//! Lines of a key and names.

ghost use Rattle.std.specs.Prelude.{◌≡◌, List, IfSome, Some, IfOk};
ghost use Rattle.cal_scan.specs.Lines.{Word, texts};
ghost use Rattle.cal_lines.specs.Kinds as kinds;

use cal_list::Items;
use cal_scan::{Name, is_word};
use std::alloc::{AllocError, Global};

fn names_behind(
    alloc: Global,
    key: &[u8],
    most: Option<usize>,
    words: &[&[u8]],
) -> Result<Option<Items<Name>>, AllocError>
    ensures { IfOk result (λ o. o ≡ kinds.names_after key.now most (texts words.now)) }
{
    match words {
        [] => Ok(None),
        [word, rest @ ..] => {
            if !is_word(*word, key) {
                return Ok(None);
            }
            let found = cal_scan::names(alloc, most, rest)?;
            Ok(found)
        }
    }
}

/// The names behind a key, one or more and none twice; at most so many, where there is a limit.
pub fn names(
    alloc: Global,
    key: &[u8],
    most: Option<usize>,
    words: &[&[u8]],
) -> Result<Option<Items<Name>>, AllocError>
    ensures value { IfOk result (λ o. o ≡ kinds.names_after key.now most (texts words.now)) }
    // The words are the key and the names.
    ensures found { IfOk result (λ o. IfSome o (kinds.AreNamesBehind key.now most (texts words.now))) }
    // All names within the limit are read.
    ensures all { IfOk result (λ o. (names : List Word) → kinds.AreNamesBehind key.now most (texts words.now) names → o ≡ Some names) }
{
    let found = names_behind(alloc, key, most, words)?;
    Ok(found)
}
