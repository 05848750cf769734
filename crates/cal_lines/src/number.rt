//! Words that are whole numbers.

ghost use Rattle.std.specs.Prelude.{◌≡◌, ℕ, ℤ, ◌≤◌, IfSome, Some};
ghost use Rattle.cal_lines.specs.Words as words;
ghost use Rattle.cal_lines.specs.Kinds as kinds;

use cal_limits::MOST_NUMBER;
use cal_scan::{MINUS, ZERO, all_digits, capped_value, is_digit_byte};

/// Whether a word is digits with no zero in front, but for the number 0 itself.
fn is_plain(word: &[u8]) -> bool
    ensures { result ≡ words.is_plain word.now }
{
    match word {
        [] => false,
        [digit] => is_digit_byte(*digit),
        [first, _, ..] => {
            if *first == ZERO {
                return false;
            }
            all_digits(word)
        }
    }
}

fn plain_number(word: &[u8], limit: u128) -> Option<u128>
    requires { limit ≤ MOST_NUMBER }
    ensures { result ≡ words.natural_of limit word.now }
{
    if !is_plain(word) {
        return None;
    }
    let value = capped_value(word, limit + 1);
    if value > limit { None } else { Some(value) }
}

/// A whole number from 0 to the limit, in decimal digits with no sign and no leading zero.
pub fn natural_of(word: &[u8], limit: u128) -> Option<u128>
    requires { limit ≤ MOST_NUMBER }
    ensures value { result ≡ words.natural_of limit word.now }
    // The word is the number's digits, and the number within the limit.
    ensures found { IfSome result (kinds.IsNatural limit word.now) }
    // Each number within the limit is read.
    ensures all { (n : ℕ) → kinds.IsNatural limit word.now n → result ≡ Some n }
{
    plain_number(word, limit)
}

fn negative(size: u128) -> Option<i128>
    requires { size ≤ MOST_NUMBER }
    ensures { result ≡ words.as_negative (Some size) }
{
    if size == 0 {
        return None;
    }
    let value = size as i128;
    Some(-value)
}

fn positive(size: u128) -> i128
    requires { size ≤ MOST_NUMBER }
    ensures { Some result ≡ words.as_positive (Some size) }
{
    size as i128
}

#[tactic(auto, unfolding(crate::specs::Words::integer_of))]
fn signed_number(word: &[u8], limit: u128) -> Option<i128>
    requires { limit ≤ MOST_NUMBER }
    ensures { result ≡ words.integer_of limit word.now }
{
    match word {
        [] => None,
        [first, rest @ ..] => {
            if *first == MINUS {
                let size = natural_of(rest, limit)?;
                negative(size)
            } else {
                let size = natural_of(word, limit)?;
                Some(positive(size))
            }
        }
    }
}

/// A whole number of a magnitude of at most the limit, in decimal digits with `-` in front of one below 0 and no leading
/// zero.
pub fn integer_of(word: &[u8], limit: u128) -> Option<i128>
    requires { limit ≤ MOST_NUMBER }
    ensures value { result ≡ words.integer_of limit word.now }
    // The word is the number's digits, and its sign.
    ensures found { IfSome result (kinds.IsInteger limit word.now) }
    // Each number within the limit is read.
    ensures all { (z : ℤ) → kinds.IsInteger limit word.now z → result ≡ Some z }
{
    signed_number(word, limit)
}
