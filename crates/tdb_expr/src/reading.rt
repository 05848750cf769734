//! The factors of a product.

ghost use Rattle.std.specs.Prelude.{◌≡◌, IfOk, true};
ghost use Rattle.std.specs.Option.{option_map};
ghost use Rattle.cal_dec.specs.Decimals.{decimal_of};
ghost use Rattle.cal_dec.specs.Numerals.{IsNumber};
ghost use Rattle.tdb_expr.specs.Grammar.{is_taken as is_taken_word, is_function_name as is_function_word};
ghost use Rattle.tdb_expr.specs.Parts.{part_of};
ghost use Rattle.tdb_expr.specs.Reading.{behind_hash as text_behind_hash, called_at, named_at, value_in, number_at, is_sign as is_sign_of, factor_at};

use crate::factor::Factor;
use crate::mark::behind_mark;
use crate::power::{logarithm, temperature};
use cal_dec::{Dec, longest_number, read_dec};
use cal_scan::{Name, behind_spaces, is_letter_byte, is_name_word, is_word, name_bytes_at};
use std::alloc::{AllocError, Global};

fn is_taken(word: &[u8]) -> bool
    ensures { result ≡ is_taken_word word.now }
{
    is_word(word, b"T")
        || is_word(word, b"LN")
        || is_word(word, b"P")
        || is_word(word, b"EXP")
        || is_word(word, b"LOG")
}

fn is_function_name(word: &[u8]) -> bool
    ensures { result ≡ is_function_word word.now }
{
    is_name_word(word) && !is_taken(word)
}

/// What is behind a `#`, or the whole text where none stands first.
#[tactic(auto, unfolding(crate::specs::Reading::behind_hash))]
fn behind_hash(text: &[u8]) -> &[u8]
    ensures { result.now ≡ text_behind_hash text.now }
{
    match behind_mark(text, b'#') {
        Some(rest) => rest,
        None => text,
    }
}

/// A function's name, of which what stands behind it is given.
fn called<'a>(
    alloc: Global,
    name: &[u8],
    rest: &'a [u8],
) -> Result<Option<(Factor, &'a [u8])>, AllocError>
    ensures { IfOk result (λ o. option_map (λ r. (part_of r.0, r.1.now)) o ≡ called_at name.now rest.now) }
{
    if !is_function_name(name) {
        return Ok(None);
    }
    let name = Name::from_bytes(alloc, name)?;
    Ok(Some((Factor::Name(name), behind_hash(rest))))
}

/// The factor that begins with a name.
#[tactic(auto, unfolding(crate::specs::Reading::named_at))]
fn named<'a>(
    alloc: Global,
    name: &[u8],
    rest: &'a [u8],
) -> Result<Option<(Factor, &'a [u8])>, AllocError>
    ensures { IfOk result (λ o. option_map (λ r. (part_of r.0, r.1.now)) o ≡ named_at name.now rest.now) }
{
    if is_word(name, b"T") {
        return Ok(temperature(rest));
    }
    if is_word(name, b"LN") {
        return Ok(logarithm(rest));
    }
    let found = called(alloc, name, rest)?;
    Ok(found)
}

/// What a number is read as, if it is not too long.
#[tactic(auto, unfolding(crate::specs::Reading::value_in))]
fn value(number: &[u8]) -> Option<Dec>
    requires { IsNumber number.now }
    ensures { option_map decimal_of result ≡ value_in number.now }
{
    match read_dec(number) {
        Ok(value) => Some(value),
        Err(_) => None,
    }
}

/// The number at the front of a text.
#[tactic(auto, unfolding(crate::specs::Reading::number_at))]
fn number(text: &[u8]) -> Option<(Factor, &[u8])>
    ensures { option_map (λ r. (part_of r.0, r.1.now)) result ≡ number_at text.now }
{
    match longest_number(text) {
        None => None,
        Some((number, rest)) => match value(number) {
            None => None,
            Some(value) => Some((Factor::Number(value), rest)),
        },
    }
}

fn is_sign(byte: u8) -> bool
    ensures { result ≡ is_sign_of byte }
{
    byte == b'+' || byte == b'-'
}

/// The factor at the front of a text, behind any spaces.
#[tactic(auto, unfolding(crate::specs::Reading::factor_at))]
pub fn factor<'a>(alloc: Global, text: &'a [u8]) -> Result<Option<(Factor, &'a [u8])>, AllocError>
    ensures { IfOk result (λ o. option_map (λ r. (part_of r.0, r.1.now)) o ≡ factor_at text.now) }
{
    let text = behind_spaces(text);
    match text.split_first() {
        None => Ok(None),
        Some((first, _)) => {
            if is_letter_byte(*first) {
                let (name, rest) = name_bytes_at(text);
                let found = named(alloc, name, rest)?;
                return Ok(found);
            }
            if is_sign(*first) {
                return Ok(None);
            }
            Ok(number(text))
        }
    }
}
