ghost use Rattle.std.specs.Prelude.{◌≡◌};
ghost use Rattle.std.specs.Option.{option_map};
ghost use Rattle.tdb_forms.specs.Heads.{head_of};

use cal_scan::{cut_at, is_letters, is_name_word};

/// The name and the suffix of a phase as `NAME:LETTERS`, or a name alone, whose suffix is empty.
#[tactic(auto, unfolding(crate::specs::Heads::head_of))]
pub fn split_head(text: &[u8]) -> Option<(&[u8], &[u8])>
    ensures { option_map (λ r. (r.0.now, r.1.now)) result ≡ head_of text.now }
{
    match cut_at(text, b':') {
        None => {
            if !is_name_word(text) {
                return None;
            }
            Some((text, &[]))
        }
        Some((name, suffix)) => {
            if !(is_name_word(name) && is_letters(suffix)) {
                return None;
            }
            Some((name, suffix))
        }
    }
}
