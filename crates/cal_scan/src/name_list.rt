//! Lists of names.

ghost use Rattle.std.specs.Prelude.{◌≡◌, IfOk, IfSome, Some};
ghost use Rattle.cal_scan.specs.Lines.{texts};
ghost use Rattle.cal_scan.specs.Names as spec;

use crate::distinct::are_names;
use crate::name::Name;
use cal_list::Items;
use std::alloc::{AllocError, Global};

/// A name of each word.
fn copies(alloc: Global, words: &[&[u8]]) -> Result<Items<Name>, AllocError>
    ensures { IfOk result (λ names. names ≡ texts words.now) }
{
    let mut names = Items::new(alloc);
    'words: for word in words {
        names.push(Name::from_bytes(alloc, *word)?)?;
    }
    Ok(names)
}

fn is_within(count: usize, most: Option<usize>) -> bool
    ensures { result ≡ spec.is_within most count }
{
    match most {
        None => true,
        Some(most) => count <= most,
    }
}

#[tactic(auto, unfolding(crate::specs::Names::names_of))]
fn names_in(
    alloc: Global,
    most: Option<usize>,
    words: &[&[u8]],
) -> Result<Option<Items<Name>>, AllocError>
    ensures { IfOk result (λ o. o ≡ spec.names_of most (texts words.now)) }
{
    if words.is_empty() || !is_within(words.len(), most) {
        return Ok(None);
    }
    if !are_names(alloc, words)? {
        return Ok(None);
    }
    let names = copies(alloc, words)?;
    Ok(Some(names))
}

/// The names that words are: one or more and none twice, and at most so many where there is a limit.
pub fn names(
    alloc: Global,
    most: Option<usize>,
    words: &[&[u8]],
) -> Result<Option<Items<Name>>, AllocError>
    ensures value { IfOk result (λ o. o ≡ spec.names_of most (texts words.now)) }
    // The words are the names.
    ensures found { IfOk result (λ o. IfSome o (λ names. spec.AreNamesWithin most names × (texts words.now ≡ names))) }
    // All names within the limit are read.
    ensures all { IfOk result (λ o. spec.AreNamesWithin most (texts words.now) → o ≡ Some (texts words.now)) }
{
    let names = names_in(alloc, most, words)?;
    Ok(names)
}
