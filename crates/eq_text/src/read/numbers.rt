//! Lines of a word and whole numbers.

ghost use Rattle.std.specs.Prelude.{◌≡◌, ◌≤◌, IfSome, IfOk};
ghost use Rattle.cal_scan.specs.Lines.{texts};
ghost use Rattle.std.specs.List.{list_all};
ghost use Rattle.cal_lines.specs.Places.{ReadsAt};
ghost use Rattle.cal_lines.specs.Reading.{of_line};
ghost use Rattle.eq_text.specs.Kinds as kinds;

use cal_limits::{MOST_ASKED, MOST_NUMBER};
use cal_lines::{Place, TextFault, all_integers, integer_of, natural_of, read_line};
use cal_list::Items;
use cal_scan::is_word;
use std::alloc::{AllocError, Global};

/// A key and a number from 0 to the limit.
pub fn natural_after(words: &[&[u8]], key: &[u8], limit: u128) -> Option<u128>
    requires { limit ≤ MOST_NUMBER }
    ensures value { result ≡ kinds.natural_after key.now limit (texts words.now) }
    ensures bound { IfSome result (λ n. n ≤ limit) }
{
    match words {
        [word, number] => {
            if !is_word(*word, key) {
                return None;
            }
            natural_of(*number, limit)
        }
        _ => None,
    }
}

/// A key and a number of a magnitude of at most the limit.
fn integer_after(words: &[&[u8]], key: &[u8], limit: u128) -> Option<i128>
    requires { limit ≤ MOST_NUMBER }
    ensures { result ≡ kinds.integer_after key.now limit (texts words.now) }
{
    match words {
        [word, number] => {
            if !is_word(*word, key) {
                return None;
            }
            integer_of(*number, limit)
        }
        _ => None,
    }
}

fn is_size(value: i128) -> bool
    ensures { result ≡ kinds.is_natural value }
{
    value >= 0
}

fn are_sizes(values: &[i128]) -> bool
    ensures { result ≡ list_all kinds.is_natural values.now }
{
    values.iter().all(|value| is_size(*value))
}

/// A key and a number from 0 to the limit.
#[tactic(auto, unfolding(crate::specs::Kinds::size_after))]
fn size_after(words: &[&[u8]], key: &[u8], limit: u128) -> Option<i128>
    requires { limit ≤ MOST_NUMBER }
    ensures { result ≡ kinds.size_after key.now limit (texts words.now) }
{
    let value = integer_after(words, key, limit)?;
    if is_size(value) { Some(value) } else { None }
}

/// A key and so many numbers, each of a magnitude of at most the limit.
fn integers_after(
    alloc: Global,
    words: &[&[u8]],
    key: &[u8],
    count: usize,
    limit: u128,
) -> Result<Option<Items<i128>>, AllocError>
    requires { limit ≤ MOST_NUMBER }
    ensures { IfOk result (λ o. o ≡ kinds.integers_after key.now count limit (texts words.now)) }
{
    match words {
        [] => Ok(None),
        [word, rest @ ..] => {
            if !is_word(*word, key) {
                return Ok(None);
            }
            if rest.len() != count {
                return Ok(None);
            }
            let found = all_integers(alloc, rest, limit)?;
            Ok(found)
        }
    }
}

#[tactic(auto, unfolding(crate::specs::Kinds::asked_of))]
fn asked_of(alloc: Global, words: &[&[u8]], count: usize) -> Result<Option<Items<i128>>, AllocError>
    ensures { IfOk result (λ o. o ≡ kinds.asked_of count (texts words.now)) }
{
    let found = integers_after(alloc, words, b"asked", count, u128::from(MOST_ASKED))?;
    let Some(values) = found else {
        return Ok(None);
    };
    if are_sizes(values.as_slice()) {
        Ok(Some(values))
    } else {
        Ok(None)
    }
}

pub(crate) fn integer_line<'a>(
    alloc: Global,
    key: &[u8],
    limit: u128,
    at: Place<'a>,
) -> Result<(i128, Place<'a>), TextFault>
    requires { limit ≤ MOST_NUMBER }
    ensures { ReadsAt result (of_line (kinds.integer_after key.now limit)) at.entry }
{
    read_line(alloc, at, |words| Ok(integer_after(words, key, limit)))
}

pub(crate) fn size_line<'a>(
    alloc: Global,
    key: &[u8],
    limit: u128,
    at: Place<'a>,
) -> Result<(i128, Place<'a>), TextFault>
    requires { limit ≤ MOST_NUMBER }
    ensures { ReadsAt result (of_line (kinds.size_after key.now limit)) at.entry }
{
    read_line(alloc, at, |words| Ok(size_after(words, key, limit)))
}

/// A key and so many numbers.
pub fn integers_line<'a>(
    alloc: Global,
    key: &[u8],
    count: usize,
    at: Place<'a>,
) -> Result<(Items<i128>, Place<'a>), TextFault>
    ensures { ReadsAt result (of_line (kinds.integers_after key.now count MOST_NUMBER)) at.entry }
{
    read_line(
        alloc,
        at,
        |words| integers_after(alloc, words, key, count, MOST_NUMBER),
    )
}

pub(crate) fn asked_line<'a>(
    alloc: Global,
    count: usize,
    at: Place<'a>,
) -> Result<(Items<i128>, Place<'a>), TextFault>
    ensures { ReadsAt result (of_line (kinds.asked_of count)) at.entry }
{
    read_line(alloc, at, |words| asked_of(alloc, words, count))
}
