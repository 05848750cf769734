ghost use Rattle.std.specs.Prelude.{◌≡◌, ◌≤◌, length, IfSome, IfNone};
ghost use Rattle.std.specs.Option.{option_map};
ghost use Rattle.cal_dec.specs.Fronts.{IsLongestNumber, HasNoNumber};
ghost use Rattle.cal_dec.specs.Scanning.{after_power, after_number};

use crate::numeral::{split_digits, split_fraction, split_sign};

/// The longest front of a text that is a number as `read_dec` takes it, and what stands behind it.
pub fn longest_number(text: &[u8]) -> Option<(&[u8], &[u8])>
    ensures found { IfSome result (λ r. IsLongestNumber text.now r.0.now r.1.now) }
    ensures none { IfNone result (HasNoNumber text.now) }
{
    match behind_number(text) {
        None => None,
        Some(rest) => Some(text.split_at(text.len() - rest.len())),
    }
}

/// What stands behind the longest number.
#[tactic(auto, unfolding(crate::specs::Scanning::after_number))]
fn behind_number(text: &[u8]) -> Option<&[u8]>
    ensures { option_map (λ r. r.now) result ≡ after_number text.now }
{
    let (_, unsigned) = split_sign(text);
    let (whole, rest) = split_digits(unsigned);
    let (fraction, rest) = split_fraction(rest);
    if whole.is_empty() && fraction.is_empty() {
        return None;
    }
    Some(behind_power(rest))
}

/// What stands behind an `E` with a sign and digits, or the whole text where they do not stand first.
#[tactic(auto, unfolding(crate::specs::Scanning::after_power))]
fn behind_power(text: &[u8]) -> &[u8]
    ensures { result.now ≡ after_power text.now }
{
    match text.split_first() {
        Some((b'E', behind)) => {
            let (_, unsigned) = split_sign(behind);
            let (digits, rest) = split_digits(unsigned);
            if digits.is_empty() { text } else { rest }
        }
        _ => text,
    }
}
