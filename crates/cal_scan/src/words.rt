//! Words, and what stands between, behind and before them.

ghost use Rattle.std.specs.Prelude.{◌≡◌, ◌==◌, IfOk};
ghost use Rattle.cal_scan.specs.Lines.{texts};
ghost use Rattle.std.specs.List.{list_all};
ghost use Rattle.std.specs.Option.{option_map};
ghost use Rattle.cal_scan.specs.Bytes.{is_name_byte};
ghost use Rattle.cal_scan.specs.Words as spec;

use crate::byte::{SPACE, is_letter_byte, may_stand_in_name};
use cal_limits::MOST_NAME_BYTES;
use std::alloc::{AllocError, Global};

/// Whether a text is a word.
#[tactic(auto, unfolding(crate::specs::Words::same_word))]
pub fn is_word(text: &[u8], word: &[u8]) -> bool
    ensures { result ≡ spec.same_word text.now word.now }
{
    text == word
}

fn all_may_stand(text: &[u8]) -> bool
    ensures { result ≡ list_all is_name_byte text.now }
{
    text.iter().all(|byte| may_stand_in_name(*byte))
}

/// Whether a text is a name: a letter and then letters, digits and `_`, at most 40 bytes.
#[tactic(auto, unfolding(crate::specs::Words::is_name))]
pub fn is_name_word(text: &[u8]) -> bool
    ensures { result ≡ spec.is_name text.now }
{
    match text {
        [] => false,
        [first, ..] => {
            if !is_letter_byte(*first) {
                return false;
            }
            if text.len() > MOST_NAME_BYTES {
                return false;
            }
            all_may_stand(text)
        }
    }
}

/// The tokens of a text: its runs of bytes that are no spaces.
#[tactic(auto, unfolding(crate::specs::Words::tokens))]
pub fn tokens(alloc: Global, text: &[u8]) -> Result<Vec<&[u8]>, AllocError>
    ensures { IfOk result (λ v. texts v.items ≡ spec.tokens text.now) }
{
    text.split(|byte| *byte == SPACE)
        .filter(|token| !token.is_empty())
        .collect(alloc)
}

/// What is behind the word, where the text begins with it.
#[tactic(auto, unfolding(crate::specs::Words::behind, crate::specs::Words::same_word))]
pub fn behind<'a>(text: &'a [u8], word: &[u8]) -> Option<&'a [u8]>
    ensures { option_map (λ w. w.now) result ≡ spec.behind word.now text.now }
{
    text.strip_prefix(word)
}

/// What is before the word, where the text ends with it.
#[tactic(auto, unfolding(crate::specs::Words::before, crate::specs::Words::same_word))]
pub fn before<'a>(text: &'a [u8], word: &[u8]) -> Option<&'a [u8]>
    ensures { option_map (λ w. w.now) result ≡ spec.before word.now text.now }
{
    text.strip_suffix(word)
}
