ghost use Rattle.std.specs.Prelude.{◌≡◌};
ghost use Rattle.std.specs.List.{list_all};
ghost use Rattle.cal_scan.specs.Bytes.{is_letter};
ghost use Rattle.cal_scan.specs.Constituents.{is_constituent_byte, is_species_name as species_name, is_constituent as constituent, is_element_name as element_name, is_letters as letters};

use crate::byte::{is_letter_byte, may_stand_in_name};
use crate::words::{is_name_word, is_word};

fn may_stand_in_constituent(byte: u8) -> bool
    ensures { result ≡ is_constituent_byte byte }
{
    may_stand_in_name(byte) || byte == b'+' || byte == b'-' || byte == b'/' || byte == b'.'
}

fn all_may_stand(text: &[u8]) -> bool
    ensures { result ≡ list_all is_constituent_byte text.now }
{
    text.iter().all(|byte| may_stand_in_constituent(*byte))
}

#[tactic(auto, unfolding(crate::specs::Constituents::is_species_name))]
fn is_species_name(text: &[u8]) -> bool
    ensures { result ≡ species_name text.now }
{
    match text {
        [] => false,
        [first, ..] => {
            if !is_letter_byte(*first) {
                return false;
            }
            if text.len() >= 41 {
                return false;
            }
            all_may_stand(text)
        }
    }
}

/// Whether a text is a constituent: a letter and then letters, digits and the bytes `_ + - / .`, at most 40 bytes, or `/-`.
#[tactic(auto, unfolding(crate::specs::Constituents::is_constituent))]
pub fn is_constituent(text: &[u8]) -> bool
    ensures { result ≡ constituent text.now }
{
    is_species_name(text) || is_word(text, b"/-")
}

/// Whether a text is a name of an element: a name, or `/-`.
#[tactic(auto, unfolding(crate::specs::Constituents::is_element_name))]
pub fn is_element_name(text: &[u8]) -> bool
    ensures { result ≡ element_name text.now }
{
    is_name_word(text) || is_word(text, b"/-")
}

fn all_letters(text: &[u8]) -> bool
    ensures { result ≡ list_all is_letter text.now }
{
    text.iter().all(|byte| is_letter_byte(*byte))
}

/// Whether a text is one letter or more.
#[tactic(auto, unfolding(crate::specs::Constituents::is_letters))]
pub fn is_letters(text: &[u8]) -> bool
    ensures { result ≡ letters text.now }
{
    !text.is_empty() && all_letters(text)
}
