//! The kind of a parameter.

ghost use Rattle.std.specs.Prelude.{◌≡◌, IfOk};
ghost use Rattle.std.specs.List.{list_all};
ghost use Rattle.std.specs.Prelude.{if◌then◌else◌};
ghost use Rattle.tdb_forms.specs.Kinds.{is_kind_byte, is_kind_word as kind_word, is_mobility as mobility, is_volume as volume, kind_name as name_of_kind, plain_kind as kind_of_name, kind_of};

use cal_scan::{Name, cut_at, is_constituent, is_digit_byte, is_letter_byte, is_word};
use cef_kind::Kind;
use std::alloc::{AllocError, Global};

fn all_may_stand(word: &[u8]) -> bool
    ensures { result ≡ list_all is_kind_byte word.now }
{
    word.iter()
        .all(|byte| is_letter_byte(*byte) || is_digit_byte(*byte))
}

/// Whether a word is letters and digits.
#[tactic(auto, unfolding(crate::specs::Kinds::is_kind_word))]
fn is_kind_word(word: &[u8]) -> bool
    ensures { result ≡ kind_word word.now }
{
    !word.is_empty() && all_may_stand(word)
}

/// Whether a kind is a mobility or diffusion data.
fn is_mobility(word: &[u8]) -> bool
    ensures { result ≡ mobility word.now }
{
    is_word(word, b"MQ") || is_word(word, b"MF") || is_word(word, b"DQ") || is_word(word, b"DF")
}

/// Whether a kind is one of volume.
fn is_volume(word: &[u8]) -> bool
    ensures { result ≡ volume word.now }
{
    is_word(word, b"V0") || is_word(word, b"VA") || is_word(word, b"VS")
}

/// The name of a kind in a key: `L` is `G`, and `BMAG` is `BMAGN`.
#[tactic(auto, unfolding(crate::specs::Kinds::kind_name))]
fn kind_name(word: &[u8]) -> &[u8]
    ensures { result.now ≡ name_of_kind word.now }
{
    if is_word(word, b"L") {
        return b"G";
    }
    if is_word(word, b"BMAG") {
        return b"BMAGN";
    }
    word
}

/// What a parameter adds to whose kind has this name.
#[tactic(auto, unfolding(crate::specs::Kinds::plain_kind))]
fn plain_kind(name: &[u8]) -> Kind
    ensures { result ≡ kind_of_name name.now }
{
    if is_word(name, b"G") {
        return Kind::G;
    }
    if is_word(name, b"TC") {
        return Kind::Tc;
    }
    if is_word(name, b"BMAGN") {
        return Kind::Beta;
    }
    if is_mobility(name) || is_volume(name) {
        return Kind::Unread;
    }
    Kind::Other
}

/// What a parameter adds to whose kind is this word and a constituent.
fn kind_of_constituent(word: &[u8]) -> Kind
    ensures { result ≡ (if mobility word.now then Kind.Unread else Kind.Other) }
{
    if is_mobility(word) {
        return Kind::Unread;
    }
    Kind::Other
}

/// The kind that letters and digits name, alone or with `&` and a constituent, and its name in a key.
#[tactic(auto, unfolding(crate::specs::Kinds::kind_of))]
pub fn read_kind(alloc: Global, text: &[u8]) -> Result<Option<(Kind, Name)>, AllocError>
    ensures { IfOk result (λ o. o ≡ kind_of text.now) }
{
    match cut_at(text, b'&') {
        None => {
            if !is_kind_word(text) {
                return Ok(None);
            }
            let name = kind_name(text);
            let copy = Name::from_bytes(alloc, name)?;
            Ok(Some((plain_kind(name), copy)))
        }
        Some((word, constituent)) => {
            if !(is_kind_word(word) && is_constituent(constituent)) {
                return Ok(None);
            }
            let copy = Name::from_bytes(alloc, text)?;
            Ok(Some((kind_of_constituent(word), copy)))
        }
    }
}
