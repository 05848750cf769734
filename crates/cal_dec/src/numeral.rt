ghost use Rattle.std.specs.Prelude.{◌≡◌, ◌≤◌, length, min, MatchOption};
ghost use Rattle.std.specs.Str.Parse.{AllDigits, digits_value};
ghost use Rattle.std.specs.List.{list_all, prefix_len};
ghost use Rattle.std.specs.Char.{is_ascii_digit};
ghost use Rattle.cal_dec.specs.Numerals.{is_minus, digits_behind};
ghost use Rattle.cal_dec.specs.Scanning.{sign_in, after_sign, digits_in, after_digits, fraction_in, after_fraction, power_in, capped, numeral_in, IsFound};

/// The parts of a number as it is written. The exponent behind `E` has a magnitude of at most 10000, which is far outside
/// the exponents that are read.
#[derive(Clone, Copy)]
pub struct Numeral<'a> {
    pub negative: bool,
    pub whole: &'a [u8],
    pub fraction: &'a [u8],
    pub exponent: i32,
}

/// The greatest magnitude that is kept of an exponent.
const CAP: u32 = 10000;

/// The parts of a text that is a number.
pub fn scan(text: &[u8]) -> Option<Numeral<'_>>
    ensures { MatchOption result (numeral_in text.now ≡ None) (λ kept. IsFound text.now kept.negative kept.whole.now kept.fraction.now kept.exponent) }
{
    let (negative, unsigned) = split_sign(text);
    let (whole, rest) = split_digits(unsigned);
    let (fraction, rest) = split_fraction(rest);
    let exponent = exponent(rest)?;
    if whole.len() + fraction.len() == 0 {
        return None;
    }
    Some(Numeral {
        negative,
        whole,
        fraction,
        exponent,
    })
}

/// The number behind `E`, or 0 where nothing is left.
#[tactic(auto, unfolding(crate::specs::Scanning::power_in))]
fn exponent(text: &[u8]) -> Option<i32>
    ensures { result ≡ capped (power_in text.now) }
{
    match text.split_first() {
        None => Some(0),
        Some((b'E', rest)) => {
            let (negative, digits) = split_sign(rest);
            if digits.is_empty() || !are_digits(digits) {
                return None;
            }
            let magnitude = capped_value(digits) as i32;
            Some(if negative { -magnitude } else { magnitude })
        }
        Some(_) => None,
    }
}

fn are_digits(text: &[u8]) -> bool
    ensures { result ≡ list_all is_ascii_digit text.now }
{
    text.iter().all(|b| b.is_ascii_digit())
}

/// The number that the digits write, or 10000 if it is above.
pub fn capped_value(digits: &[u8]) -> u32
    requires { AllDigits 10 digits.now }
    ensures value { result ≡ min (digits_value 10 digits.now) 10000 }
    ensures cap { result ≤ 10000 }
{
    let mut value = 0;
    'digits: for &b in digits {
        value = (value * 10 + (b - b'0') as u32).min(CAP);
    }
    value
}

/// Whether a minus stands first, and what stands behind the sign.
#[tactic(auto, unfolding(crate::specs::Scanning::sign_in, crate::specs::Scanning::after_sign))]
pub fn split_sign(text: &[u8]) -> (bool, &[u8])
    ensures negative { result.0 ≡ is_minus (sign_in text.now) }
    ensures rest { result.1.now ≡ after_sign text.now }
{
    match text.split_first() {
        Some((b'+', rest)) => (false, rest),
        Some((b'-', rest)) => (true, rest),
        _ => (false, text),
    }
}

/// The longest front of digits, and what stands behind it.
pub fn split_digits(text: &[u8]) -> (&[u8], &[u8])
    ensures digits { result.0.now ≡ digits_in text.now }
    ensures rest { result.1.now ≡ after_digits text.now }
{
    text.split_at(digit_count(text))
}

/// The digits behind a point, and what stands behind them.
#[tactic(auto, unfolding(crate::specs::Scanning::fraction_in, crate::specs::Scanning::after_fraction))]
pub fn split_fraction(text: &[u8]) -> (&[u8], &[u8])
    ensures digits { result.0.now ≡ digits_behind (fraction_in text.now) }
    ensures rest { result.1.now ≡ after_fraction text.now }
{
    match text.split_first() {
        Some((b'.', rest)) => split_digits(rest),
        _ => text.split_at(0),
    }
}

fn digit_count(text: &[u8]) -> usize
    ensures count { result ≡ prefix_len is_ascii_digit text.now }
    ensures within { result ≤ length text.now }
{
    text.iter().take_while(|b| b.is_ascii_digit()).count()
}
