//! The lines that name no cause within a system, and what lines are made of.

ghost use Rattle.std.specs.Prelude.{◌≡◌, ◌++◌, ◌∷◌, [], IfOk, codes};
ghost use Rattle.std.specs.Fmt.{decimal};
ghost use Rattle.cal_refusal.specs.Refusals.{database_line, named_line, numbered_line};

use cal_scan::{LINE_FEED, Name};
use cal_words::{Rule, rule_text};
use std::alloc::{AllocError, Global};

/// The words are no command of the program.
pub const USAGE: &[u8] = b"refused usage\n";
/// A file could not be read.
pub const READ: &[u8] = b"refused read\n";
/// A file is longer than its limit.
pub const LONG: &[u8] = b"refused long\n";

/// The line of a database's first fault.
pub fn database(alloc: Global, line: u32, rule: Rule) -> Result<Vec<u8>, AllocError>
    ensures { IfOk result (λ text. text.items ≡ database_line line rule) }
{
    let number = format!(in alloc; "{line}")?;
    let mut text = Vec::from_slice(alloc, b"refused database line ".as_slice())?;
    text.extend_from_slice(number.as_bytes())?;
    text.extend_from_slice(b" rule ")?;
    text.extend_from_slice(rule_text(rule).as_bytes())?;
    text.push(LINE_FEED)?;
    Ok(text)
}

/// The line of a cause with a name.
pub(crate) fn named(alloc: Global, cause: &[u8], name: &Name) -> Result<Vec<u8>, AllocError>
    ensures { IfOk result (λ text. text.items ≡ named_line cause.now name.now) }
{
    let mut text = Vec::from_slice(alloc, b"refused system ".as_slice())?;
    text.extend_from_slice(cause)?;
    text.extend_from_slice(b" ")?;
    text.extend_from_slice(name.bytes())?;
    text.push(LINE_FEED)?;
    Ok(text)
}

/// The line of a cause that stands on a line of the database.
pub(crate) fn numbered(alloc: Global, cause: &[u8], line: u32) -> Result<Vec<u8>, AllocError>
    ensures { IfOk result (λ text. text.items ≡ numbered_line cause.now line) }
{
    let number = format!(in alloc; "{line}")?;
    let mut text = Vec::from_slice(alloc, b"refused system ".as_slice())?;
    text.extend_from_slice(cause)?;
    text.extend_from_slice(b" line ")?;
    text.extend_from_slice(number.as_bytes())?;
    text.push(LINE_FEED)?;
    Ok(text)
}
