//! A line, as its words are read.

ghost use Rattle.std.specs.Prelude.{◌<◌, List, Option, IfOk, length};
ghost use Rattle.cal_scan.specs.Lines.{Word};
ghost use Rattle.cal_lines.specs.Reading.{of_line};
ghost use Rattle.cal_lines.specs.Places.{ReadsAt, Means};

use crate::fault::TextFault;
use crate::place::Place;
use crate::words::words_at;
use std::alloc::{AllocError, Global};

/// What `parse` makes of the words of the line at a place, and the place behind the line. Where it makes nothing of them,
/// the line is at fault.
pub fn read_line<'a, T: Drop, F: FnOnce(&[&[u8]]) -> Result<Option<T>, AllocError>>(
    alloc: Global,
    at: Place<'a>,
    parse: F,
) -> Result<(T, Place<'a>), TextFault>
    requires { F.IsAlwaysCallable parse }
    ensures reads { (meaning : List Word → Option T) → Means (F.post parse) meaning → ReadsAt result (of_line meaning) at.entry }
    ensures shorter { IfOk result (λ x. length x.1.rest.now < length at.entry.rest.now) }
{
    let (words, after) = words_at(alloc, at)?;
    let Some(value) = parse(words.as_slice())? else {
        return Err(TextFault::Line(at.number));
    };
    Ok((value, after))
}
