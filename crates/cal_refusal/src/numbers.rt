//! Lines that end with numbers: of asked totals that are not feasible, and of a gap that is not closed.

ghost use Rattle.std.specs.Prelude.{◌≡◌, ◌++◌, IfOk, OnOk, string_bytes};
ghost use Rattle.cal_refusal.specs.Refusals.{gap_line, infeasible_line, spaced, spaced_all};

use cal_scan::{LINE_FEED, Name};
use std::alloc::{AllocError, Global};

/// A space and the number.
fn spaced_number(alloc: Global, number: i128) -> Result<String, AllocError>
    ensures { IfOk result (λ text. string_bytes text ≡ spaced number) }
{
    format!(in alloc; " {number}")
}

/// A space and the number, for each.
fn put_numbers(alloc: Global, text: &mut Vec<u8>, numbers: &[i128]) -> Result<(), AllocError>
    ensures { OnOk result (text.new.items ≡ text.old.items ++ spaced_all numbers.now) }
{
    'numbers: for number in numbers {
        let word = spaced_number(alloc, *number)?;
        text.extend_from_slice(word.as_bytes())?;
    }
    Ok(())
}

/// The line of numbers that show that no constitutions give the asked totals.
pub fn infeasible(alloc: Global, numbers: &[i128]) -> Result<Vec<u8>, AllocError>
    ensures { IfOk result (λ text. text.items ≡ infeasible_line numbers.now) }
{
    let mut text = Vec::from_slice(alloc, b"refused system infeasible".as_slice())?;
    put_numbers(alloc, &mut text, numbers)?;
    text.push(LINE_FEED)?;
    Ok(text)
}

/// The line of a phase at which a sweep under these potentials spent its budget of splits.
pub fn gap(
    alloc: Global,
    phase: &Name,
    splits: u64,
    potentials: &[i128],
) -> Result<Vec<u8>, AllocError>
    ensures { IfOk result (λ text. text.items ≡ gap_line phase.now splits potentials.now) }
{
    let number = format!(in alloc; "{splits}")?;
    let mut text = Vec::from_slice(alloc, b"refused gap phase ".as_slice())?;
    text.extend_from_slice(phase.bytes())?;
    text.extend_from_slice(b" splits ")?;
    text.extend_from_slice(number.as_bytes())?;
    text.extend_from_slice(b" potentials")?;
    put_numbers(alloc, &mut text, potentials)?;
    text.push(LINE_FEED)?;
    Ok(text)
}
