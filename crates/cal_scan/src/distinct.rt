//! Whether names stand once each. They are put in order, so that a long list takes little time.

ghost use Rattle.std.specs.Prelude.{◌≡◌, IfOk, Ok, map, length, false, IsTrue, ◌↔◌};
ghost use Rattle.cal_scan.specs.Lines.{texts};
ghost use Rattle.std.specs.List.{list_all, AllAdjacentBelow, IsDistinct};
ghost use Rattle.cal_scan.specs.Words.{same_word, is_name};
ghost use Rattle.cal_scan.specs.Names as spec;
ghost use Rattle.cal_scan.specs.Keys as keys;

use crate::words::{is_name_word, is_word};
use std::alloc::{AllocError, Global};

pub const FACTOR: u64 = 0x9E3779B97F4A7C15;

/// A number that equal words share, so that most words that differ are told apart without a look at their bytes.
#[tactic(auto, unfolding(crate::specs::Keys::key_of))]
fn key_of(word: &[u8]) -> u64
    ensures { result ≡ keys.key_of word.now }
{
    word.iter().fold(
        0,
        |key, byte| key.wrapping_mul(FACTOR).wrapping_add(u64::from(*byte)),
    )
}

/// Each word behind its key.
fn keyed<'a>(alloc: Global, words: &[&'a [u8]]) -> Result<Vec<(u64, &'a [u8])>, AllocError>
    ensures { IfOk result (λ v. v.items ≡ map (λ w. (keys.key_of w.now, w)) words.now) }
{
    words
        .iter()
        .map(|word| (key_of(*word), *word))
        .collect(alloc)
}

/// Whether no word equals the one before it.
fn do_neighbours_differ(words: &[(u64, &[u8])]) -> bool
    ensures { IsTrue result ↔ AllAdjacentBelow (λ v w. same_word v.1.now w.1.now ≡ false) words.now (length words.now) }
{
    'places: for place in 1..words.len() {
        if is_word(words[place - 1].1, words[place].1) {
            return false;
        }
    }
    true
}

/// Whether no word stands twice.
fn are_distinct(alloc: Global, words: &[&[u8]]) -> Result<bool, AllocError>
    ensures { IfOk result (λ b. IsTrue b ↔ IsDistinct spec.same_name (texts words.now)) }
{
    let mut sorted = keyed(alloc, words)?;
    sorted.sort_unstable();
    let distinct = do_neighbours_differ(sorted.as_slice());
    Ok(distinct)
}

fn are_all_names(words: &[&[u8]]) -> bool
    ensures { result ≡ list_all (λ w. is_name w.now) words.now }
{
    words.iter().all(|word| is_name_word(*word))
}

/// Whether the words are names, none of them twice.
pub(crate) fn are_names(alloc: Global, words: &[&[u8]]) -> Result<bool, AllocError>
    ensures { IfOk result (λ b. b ≡ spec.are_names (texts words.now)) }
{
    if !are_all_names(words) {
        return Ok(false);
    }
    let distinct = are_distinct(alloc, words)?;
    Ok(distinct)
}
