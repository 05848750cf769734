//! The lines of a path.

ghost use Rattle.std.specs.Prelude.{◌≡◌, IfOk};
ghost use Rattle.cal_scan.specs.Lines.{texts};
ghost use Rattle.cal_lines.specs.Places.{ReadsAt};
ghost use Rattle.cal_lines.specs.Reading.{of_line};
ghost use Rattle.eq_text.specs.Kinds as report_kinds;
ghost use Rattle.path_text.specs.Kinds as kinds;

use cal_limits::{HIGHEST_TEMPERATURE, LOWEST_TEMPERATURE};
use cal_lines::{Place, TextFault, read_line};
use cal_scan::{Name, is_name_word, is_word};
use cef_path::Finish;
use eq_text::natural_after;
use std::alloc::{AllocError, Global};

#[tactic(auto, unfolding(crate::specs::Kinds::name_after))]
fn name_after(alloc: Global, words: &[&[u8]], key: &[u8]) -> Result<Option<Name>, AllocError>
    ensures { IfOk result (λ o. o ≡ kinds.name_after key.now (texts words.now)) }
{
    match words {
        [word, name] => {
            if !is_word(*word, key) {
                return Ok(None);
            }
            if !is_name_word(*name) {
                return Ok(None);
            }
            let found = Name::from_bytes(alloc, *name)?;
            Ok(Some(found))
        }
        _ => Ok(None),
    }
}

/// A key and a number from 0 to the limit.
fn number_after(words: &[&[u8]], key: &[u8], limit: u32) -> Option<u32>
    ensures { result ≡ report_kinds.natural_after key.now limit (texts words.now) }
{
    let number = natural_after(words, key, u128::from(limit))?;
    Some(number as u32)
}

/// A key and a number from 1 to the limit.
#[tactic(auto, unfolding(crate::specs::Kinds::positive_after))]
fn positive_after(words: &[&[u8]], key: &[u8], limit: u32) -> Option<u32>
    ensures { result ≡ kinds.positive_after key.now limit (texts words.now) }
{
    let number = natural_after(words, key, u128::from(limit))?;
    if number > 0 {
        Some(number as u32)
    } else {
        None
    }
}

#[tactic(auto, unfolding(crate::specs::Kinds::floor_of))]
fn floor_of(words: &[&[u8]]) -> Option<u32>
    ensures { result ≡ kinds.floor_of (texts words.now) }
{
    let t = natural_after(words, b"floor", u128::from(HIGHEST_TEMPERATURE))?;
    if t >= u128::from(LOWEST_TEMPERATURE) {
        Some(t as u32)
    } else {
        None
    }
}

#[tactic(auto, unfolding(crate::specs::Kinds::finish_named))]
fn finish_named(word: &[u8]) -> Option<Finish>
    ensures { result ≡ kinds.finish_named word.now }
{
    if is_word(word, b"no-liquid") {
        return Some(Finish::NoLiquid);
    }
    if is_word(word, b"fraction") {
        return Some(Finish::Fraction);
    }
    if is_word(word, b"temperature") {
        Some(Finish::Temperature)
    } else {
        None
    }
}

#[tactic(auto, unfolding(crate::specs::Kinds::finish_of))]
fn finish_of(words: &[&[u8]]) -> Option<Finish>
    ensures { result ≡ kinds.finish_of (texts words.now) }
{
    match words {
        [word, name] => {
            if !is_word(*word, b"finish") {
                return None;
            }
            finish_named(*name)
        }
        _ => None,
    }
}

/// A key and a name.
pub(crate) fn name_line<'a>(
    alloc: Global,
    key: &[u8],
    at: Place<'a>,
) -> Result<(Name, Place<'a>), TextFault>
    ensures { ReadsAt result (of_line (kinds.name_after key.now)) at.entry }
{
    read_line(alloc, at, |words| name_after(alloc, words, key))
}

/// A key and a number from 1 to the limit.
pub(crate) fn positive_line<'a>(
    alloc: Global,
    key: &[u8],
    limit: u32,
    at: Place<'a>,
) -> Result<(u32, Place<'a>), TextFault>
    ensures { ReadsAt result (of_line (kinds.positive_after key.now limit)) at.entry }
{
    read_line(alloc, at, |words| Ok(positive_after(words, key, limit)))
}

/// A key and a number from 0 to the limit.
pub(crate) fn number_line<'a>(
    alloc: Global,
    key: &[u8],
    limit: u32,
    at: Place<'a>,
) -> Result<(u32, Place<'a>), TextFault>
    ensures { ReadsAt result (of_line (report_kinds.natural_after key.now limit)) at.entry }
{
    read_line(alloc, at, |words| Ok(number_after(words, key, limit)))
}

pub(crate) fn floor_line<'a>(alloc: Global, at: Place<'a>) -> Result<(u32, Place<'a>), TextFault>
    ensures { ReadsAt result (of_line kinds.floor_of) at.entry }
{
    read_line(alloc, at, |words| Ok(floor_of(words)))
}

pub(crate) fn finish_line<'a>(
    alloc: Global,
    at: Place<'a>,
) -> Result<(Finish, Place<'a>), TextFault>
    ensures { ReadsAt result (of_line kinds.finish_of) at.entry }
{
    read_line(alloc, at, |words| Ok(finish_of(words)))
}
