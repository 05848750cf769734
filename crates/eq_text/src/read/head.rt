//! The lines above the entries, and the last line.

ghost use Rattle.std.specs.Prelude.{◌≡◌};
ghost use Rattle.cal_scan.specs.Lines.{texts};
ghost use Rattle.cal_lines.specs.Places.{ReadsAt};
ghost use Rattle.cal_lines.specs.Reading.{of_line};
ghost use Rattle.cal_lines.specs.Kinds.{names_after};
ghost use Rattle.eq_text.specs.Kinds as kinds;

use crate::read::numbers::natural_after;
use cal_limits::{HIGHEST_TEMPERATURE, LOWEST_TEMPERATURE, MOST_PARTS};
use cal_lines::{Place, TextFault, names, read_line};
use cal_list::Items;
use cal_scan::is_word;
use cef_core::{Name, is_lattice};
use std::alloc::Global;

fn two_words_of(words: &[&[u8]], first: &[u8], second: &[u8]) -> Option<()>
    ensures { result ≡ kinds.two_words_of first.now second.now (texts words.now) }
{
    match words {
        [word, other] => {
            if !is_word(*word, first) {
                return None;
            }
            if is_word(*other, second) {
                Some(())
            } else {
                None
            }
        }
        _ => None,
    }
}

fn end_of(words: &[&[u8]]) -> Option<()>
    ensures { result ≡ kinds.end_of (texts words.now) }
{
    match words {
        [word] => {
            if is_word(*word, b"end") {
                Some(())
            } else {
                None
            }
        }
        _ => None,
    }
}

#[tactic(auto, unfolding(crate::specs::Kinds::temperature_of))]
fn temperature_of(words: &[&[u8]]) -> Option<u32>
    ensures { result ≡ kinds.temperature_of (texts words.now) }
{
    let t = natural_after(words, b"temperature", u128::from(HIGHEST_TEMPERATURE))?;
    if t >= u128::from(LOWEST_TEMPERATURE) {
        Some(t as u32)
    } else {
        None
    }
}

#[tactic(auto, unfolding(crate::specs::Kinds::lattice_of))]
fn lattice_of(words: &[&[u8]]) -> Option<u32>
    ensures { result ≡ kinds.lattice_of (texts words.now) }
{
    let parts = natural_after(words, b"lattice", u128::from(MOST_PARTS))?;
    let parts = parts as u32;
    if is_lattice(parts) { Some(parts) } else { None }
}

pub fn two_words_line<'a>(
    alloc: Global,
    first: &[u8],
    second: &[u8],
    at: Place<'a>,
) -> Result<((), Place<'a>), TextFault>
    ensures { ReadsAt result (of_line (kinds.two_words_of first.now second.now)) at.entry }
{
    read_line(alloc, at, |words| Ok(two_words_of(words, first, second)))
}

pub(crate) fn end_line<'a>(alloc: Global, at: Place<'a>) -> Result<((), Place<'a>), TextFault>
    ensures { ReadsAt result (of_line kinds.end_of) at.entry }
{
    read_line(alloc, at, |words| Ok(end_of(words)))
}

pub(crate) fn temperature_line<'a>(
    alloc: Global,
    at: Place<'a>,
) -> Result<(u32, Place<'a>), TextFault>
    ensures { ReadsAt result (of_line kinds.temperature_of) at.entry }
{
    read_line(alloc, at, |words| Ok(temperature_of(words)))
}

pub(crate) fn lattice_line<'a>(alloc: Global, at: Place<'a>) -> Result<(u32, Place<'a>), TextFault>
    ensures { ReadsAt result (of_line kinds.lattice_of) at.entry }
{
    read_line(alloc, at, |words| Ok(lattice_of(words)))
}

/// A key and names, at most so many of them where there is a limit.
pub(crate) fn names_line<'a>(
    alloc: Global,
    key: &[u8],
    most: Option<usize>,
    at: Place<'a>,
) -> Result<(Items<Name>, Place<'a>), TextFault>
    ensures { ReadsAt result (of_line (names_after key.now most)) at.entry }
{
    read_line(alloc, at, |words| names(alloc, key, most, words))
}
