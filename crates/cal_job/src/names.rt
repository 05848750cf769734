//! Names, in capitals.

ghost use Rattle.std.specs.Prelude.{◌≡◌, IfOk, Err, map, true, false};
ghost use Rattle.std.specs.List.{AllByRecursion, list_all};
ghost use Rattle.cal_scan.specs.Lines.{texts};
ghost use Rattle.cal_scan.specs.Words.{is_name};
ghost use Rattle.cal_job.specs.Forms.{upper, listed_in};

use cal_args::WordsFault;
use cal_list::Items;
use cal_scan::{COMMA, Name, is_name_word, parts_at};
use std::alloc::{AllocError, Global};

/// A text in capitals.
fn capitals(alloc: Global, text: &[u8]) -> Result<Name, AllocError>
    ensures { IfOk result (λ name. name ≡ upper text.now) }
{
    let capitals = text.to_ascii_uppercase(alloc)?;
    let name = Name::from_bytes(alloc, capitals.as_slice())?;
    Ok(name)
}

/// The name that a text is in capitals.
pub fn name(alloc: Global, text: &[u8]) -> Result<Name, WordsFault>
    ensures value { IfOk result (λ name. name ≡ upper text.now) }
    ensures name { IfOk result (λ name. is_name name ≡ true) }
    ensures usage { result ≡ Err WordsFault.Usage → is_name (upper text.now) ≡ false }
{
    let name = capitals(alloc, text)?;
    if !is_name_word(name.bytes()) {
        return Err(WordsFault::Usage);
    }
    Ok(name)
}

/// Each text in capitals.
fn all_capitals(alloc: Global, words: &[&[u8]]) -> Result<Items<Name>, AllocError>
    ensures { IfOk result (λ names. names ≡ map upper (texts words.now)) }
{
    let mut all = Items::new(alloc);
    'texts: for text in words {
        all.push(capitals(alloc, *text)?)?;
    }
    Ok(all)
}

fn are_all_names(names: &[Name]) -> bool
    ensures { result ≡ list_all is_name names.now }
{
    names.iter().all(|name| is_name_word(name.bytes()))
}

/// The names with commas between them.
pub fn listed(alloc: Global, text: &[u8]) -> Result<Items<Name>, WordsFault>
    ensures value { IfOk result (λ names. names ≡ listed_in text.now) }
    ensures names { IfOk result (λ names. AllByRecursion (λ name. is_name name ≡ true) names) }
    ensures usage { result ≡ Err WordsFault.Usage →
        ¬ AllByRecursion (λ name. is_name name ≡ true) (listed_in text.now) }
{
    let parts = parts_at(alloc, text, COMMA)?;
    let names = all_capitals(alloc, parts.as_slice())?;
    if !are_all_names(names.as_slice()) {
        return Err(WordsFault::Usage);
    }
    Ok(names)
}
