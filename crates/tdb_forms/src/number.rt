ghost use Rattle.std.specs.Prelude.{IfSome, IfNone, List, ℕ};
ghost use Rattle.cal_dec.specs.declared.dec.Dec.{Dec as Number};
ghost use Rattle.tdb_forms.specs.Finding.{Finds};
ghost use Rattle.tdb_forms.specs.Numbers.{IsReadable, BeginsWithNumber};

use cal_dec::{Dec, longest_number, read_dec};

/// What a token is read as, if it is a number of at most 64 bytes with an exponent from -200 to 200.
pub fn readable(token: &[u8]) -> Option<Dec>
    ensures { Finds (IsReadable token.now) result }
{
    match read_dec(token) {
        Ok(number) => Some(number),
        Err(_) => None,
    }
}

/// The longest number at the front of a text, if it is readable, and what stands behind it.
pub(crate) fn number_at(text: &[u8]) -> Option<(Dec, &[u8])>
    ensures found { IfSome result (λ r. BeginsWithNumber text.now r.0 r.1.now) }
    ensures none { IfNone result ((d : Number) (rest : List ℕ) → BeginsWithNumber text.now d rest → ⊥) }
{
    match longest_number(text) {
        None => None,
        Some((front, rest)) => match readable(front) {
            None => None,
            Some(number) => Some((number, rest)),
        },
    }
}
