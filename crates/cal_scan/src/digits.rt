//! Whole numbers in decimal digits.

ghost use Rattle.std.specs.Prelude.{◌≡◌, ◌<◌, ◌≤◌, ◌^◌, IfSome, true, min, length};
ghost use Rattle.std.specs.List.{list_all, prefix_len};
ghost use Rattle.cal_scan.specs.Bytes.{is_digit};
ghost use Rattle.cal_scan.specs.Numbers as numbers;

use crate::byte::{ZERO, is_digit_byte};

/// Whether a text has no other bytes than digits.
pub fn all_digits(text: &[u8]) -> bool
    ensures { result ≡ list_all is_digit text.now }
{
    text.iter().all(|byte| is_digit_byte(*byte))
}

/// The value of digits, or the cap where the value is more.
pub fn capped_value(digits: &[u8], cap: u128) -> u128
    requires digits { list_all is_digit digits.now ≡ true }
    requires cap { cap ≤ 2 ^ 124 }
    ensures { result ≡ min cap (numbers.digits_value digits.now) }
{
    let mut value: u128 = 0;
    'digits: for digit in digits {
        value = cap.min(value * 10 + u128::from(*digit - ZERO));
    }
    value
}

/// Whether a text is 1 to `most` digits.
pub fn is_whole_number(text: &[u8], most: usize) -> bool
    requires { most < 100 }
    ensures { result ≡ numbers.is_whole most text.now }
{
    if text.is_empty() {
        return false;
    }
    if text.len() > most {
        return false;
    }
    all_digits(text)
}

/// The value of a text of 1 to `most` digits.
#[tactic(auto, unfolding(crate::specs::Numbers::whole))]
pub fn whole(text: &[u8], most: usize) -> Option<u32>
    requires { most ≤ 9 }
    ensures value { result ≡ numbers.whole most text.now }
    ensures bound { IfSome result (λ n. n < 10 ^ most) }
{
    if !is_whole_number(text, most) {
        return None;
    }
    let value = capped_value(text, 1_000_000_000);
    Some(value as u32)
}

fn digit_count(text: &[u8]) -> usize
    ensures value { result ≡ prefix_len is_digit text.now }
    ensures bound { result ≤ length text.now }
{
    text.iter().take_while(|byte| is_digit_byte(**byte)).count()
}

/// All digits at the front of a text, and what is behind them.
#[tactic(auto, unfolding(crate::specs::Numbers::digits_at))]
pub fn digits_at<'a>(text: &'a [u8]) -> (&'a [u8], &'a [u8])
    ensures front { result.0.now ≡ (numbers.digits_at text.now).0 }
    ensures rest { result.1.now ≡ (numbers.digits_at text.now).1 }
{
    text.split_at(digit_count(text))
}
