//! Plain numbers of at most so many decimals.

ghost use Rattle.std.specs.Prelude.{◌≡◌, ◌==◌, ◌+◌, ◌*◌, ◌^◌, ◌≤◌, ◌<◌, true, length, Err, IfOk};
ghost use Rattle.cal_scan.specs.Lines.{texts};
ghost use Rattle.std.specs.Option.{option_map};
ghost use Rattle.std.specs.List.{list_all};
ghost use Rattle.cal_scan.specs.Bytes.{is_digit};
ghost use Rattle.cal_job.specs.Forms as forms;
ghost use Rattle.cal_job.specs.Capped.{capped};
ghost use Rattle.cal_job.specs.Requests.{IsBetween};

use crate::form::NumberForm;
use cal_args::WordsFault;
use cal_scan::{POINT, all_digits, capped_value, is_whole_number, parts_at};
use std::alloc::{AllocError, Global};

/// Above each number that a command line may give: where a number has grown to it, the value is out
/// of range whatever follows.
pub const CAP: u128 = 10_000_000_000_000;

/// Whether a text is one digit or more, and nothing else.
fn are_digits(text: &[u8]) -> bool
    ensures { result ≡ forms.are_digits text.now }
{
    if text.is_empty() {
        return false;
    }
    all_digits(text)
}

/// whole.fraction in units of 10^-places, or the cap.
fn in_units(places: usize, whole: &[u8], fraction: &[u8]) -> u64
    requires whole { list_all is_digit whole.now ≡ true }
    requires fraction { list_all is_digit fraction.now ≡ true }
    requires behind { length fraction.now ≤ places }
    requires places { places ≤ 9 }
    ensures { result ≡ capped (forms.in_units places whole.now fraction.now) }
{
    let behind = places - fraction.len();
    let whole_units = capped_value(whole, CAP) * 10u128.pow(places as u32);
    let fraction_units = capped_value(fraction, CAP) * 10u128.pow(behind as u32);
    CAP.min(whole_units + fraction_units) as u64
}

fn fixed_from(places: usize, parts: &[&[u8]]) -> Option<u64>
    requires { places ≤ 9 }
    ensures { result ≡ option_map capped (forms.fixed_from places (texts parts.now)) }
{
    match parts {
        [whole] => {
            if !are_digits(whole) {
                return None;
            }
            Some(in_units(places, whole, b""))
        }
        [whole, fraction] => {
            if !are_digits(whole) {
                return None;
            }
            if !is_whole_number(fraction, places) {
                return None;
            }
            Some(in_units(places, whole, fraction))
        }
        _ => None,
    }
}

/// The plain number of at most `places` decimals that the text writes, in units of 10^-places, or the
/// cap.
#[tactic(auto, unfolding(crate::specs::Forms::fixed_of))]
fn fixed(alloc: Global, text: &[u8], places: usize) -> Result<Option<u64>, AllocError>
    requires { places ≤ 9 }
    ensures { IfOk result (λ number. number ≡ option_map capped (forms.fixed_of places text.now)) }
{
    let parts = parts_at(alloc, text, POINT)?;
    let number = fixed_from(places, parts.as_slice());
    Ok(number)
}

/// The plain number that the text writes, in units of the last decimal of its form, where it is
/// within the form's range.
#[tactic(auto, unfolding(crate::specs::Forms::number_of))]
pub fn number_within(alloc: Global, text: &[u8], form: NumberForm) -> Result<u64, WordsFault>
    requires decimals { form.decimals ≤ 9 }
    requires most { form.most < CAP }
    ensures value { IfOk result (λ number. forms.number_of form text.now ≡ Some number) }
    ensures range { IfOk result (IsBetween form.least form.most) }
    ensures usage { result ≡ Err WordsFault.Usage → forms.number_of form text.now ≡ None }
{
    let found = fixed(alloc, text, form.decimals)?;
    match found {
        None => Err(WordsFault::Usage),
        Some(number) => {
            if number < form.least {
                return Err(WordsFault::Usage);
            }
            if number > form.most {
                return Err(WordsFault::Usage);
            }
            Ok(number)
        }
    }
}
