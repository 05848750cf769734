ghost use Rattle.std.specs.Prelude.{◌≡◌, ◌<◌, ◌≤◌, ◌∷◌, ◌⊎◌, ◌↔◌, [], ℕ, length, position, ◌==◌, IfSome};
ghost use Rattle.std.specs.Option.{option_map_or};
ghost use Rattle.cal_words.specs.Words.{parts_of, is_abbreviation, fits_entry};
ghost use Rattle.cal_words.specs.Found.{texts_of, FitsOne, FitsTwo, FitsNone, Finds, with_place};

/// A table of words.
pub type Words<const K: usize> = [&'static str; K];

/// What a table has of a word.
#[derive(Clone, Copy, Debug, PartialEq, Eq)]
pub enum Found {
    /// The word fits the entry at this place and no other.
    One(usize),
    /// The word is too short or fits no entry.
    Nothing,
    /// The word fits two entries or more.
    Several,
}

impl Found {
    /// What was found with one more entry that the word fits.
    fn and(self, place: usize) -> Found
        ensures { result ≡ with_place self place }
    {
        match self {
            Found::Nothing => Found::One(place),
            Found::One(_) | Found::Several => Found::Several,
        }
    }
}

/// Finds the entry that a word of at least `least` bytes fits. The rule of abbreviations is this project's own.
pub fn find(entries: &[&'static str], word: &[u8], least: usize) -> Found
    ensures one { (place : ℕ) → (result ≡ Found.One place) ↔ ((least ≤ length word.now) × FitsOne (texts_of entries.now) word.now place) }
    ensures several { (result ≡ Found.Several) ↔ ((least ≤ length word.now) × FitsTwo (texts_of entries.now) word.now) }
    ensures nothing { (result ≡ Found.Nothing) ↔ ((length word.now < least) ⊎ FitsNone (texts_of entries.now) word.now) }
{
    if word.len() < least {
        return Found::Nothing;
    }
    find_fitting(entries, word)
}

#[tactic(auto, using(crate::proofs::Finding::steps))]
fn find_fitting(entries: &[&'static str], word: &[u8]) -> Found
    ensures { Finds (texts_of entries.now) word.now result }
{
    let mut found = Found::Nothing;
    'entries: for (place, entry) in entries.iter().enumerate() {
        if fits(word, entry.as_bytes()) {
            found = found.and(place);
        }
    }
    found
}

/// Whether a word fits an entry. It may abbreviate each part of the entry and leave out the last parts.
#[tactic(auto, using(crate::proofs::Parts::cuts))]
pub fn fits(word: &[u8], entry: &[u8]) -> bool
    ensures { result ≡ fits_entry word.now entry.now }
{
    let (part, parts) = cut(word);
    let (whole, wholes) = cut(entry);
    match (parts, wholes) {
        (None, _) => abbreviates(part, whole),
        (Some(_), None) => false,
        (Some(parts), Some(wholes)) => abbreviates(part, whole) && fits(parts, wholes),
    }
}

/// Where the first part of a text ends, if there is another.
fn end_of_part(text: &[u8]) -> Option<usize>
    ensures { result ≡ position (λ byte. byte == 95) text.now }
{
    text.iter().position(|byte| *byte == b'_')
}

/// The first part of a text, and what stands behind its `_`.
#[tactic(auto, using(crate::proofs::Parts::cuts))]
fn cut(text: &[u8]) -> (&[u8], Option<&[u8]>)
    ensures shorter { IfSome result.1 (λ rest. length rest.now < length text.now) }
    ensures parts { parts_of text.now ≡ result.0.now ∷ option_map_or (λ rest. parts_of rest.now) result.1 [] }
{
    match end_of_part(text) {
        None => (text, None),
        Some(at) => {
            let (part, rest) = text.split_at(at);
            let (_, rest) = rest.split_at(1);
            (part, Some(rest))
        }
    }
}

fn abbreviates(part: &[u8], whole: &[u8]) -> bool
    ensures { result ≡ is_abbreviation part.now whole.now }
{
    !part.is_empty() && whole.starts_with(part)
}
