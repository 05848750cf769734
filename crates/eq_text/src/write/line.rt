//! Lines of a word and what it is about.

ghost use Rattle.std.specs.Prelude.{◌≡◌, ◌++◌, ◌∷◌, [], OnOk, OnErr, map};
ghost use Rattle.std.specs.List.{flat_map};
ghost use Rattle.std.specs.Fmt.{decimal, signed_decimal};
ghost use Rattle.cal_scan.specs.Lines.{line};
ghost use Rattle.cef_report.specs.Texts.{number_words};
ghost use Rattle.eq_text.specs.Spacing.{spaced};

use cef_core::Name;
use std::alloc::{AllocError, Global};

/// A space and the word.
pub fn put_word(out: &mut Vec<u8>, word: &[u8]) -> Result<(), AllocError>
    ensures { OnOk result (out.new.items ≡ out.old.items ++ spaced word.now) }
{
    out.push(b' ')?;
    out.extend_from_slice(word)?;
    Ok(())
}

/// A space and the whole number.
pub(crate) fn put_number(alloc: Global, out: &mut Vec<u8>, value: i128) -> Result<(), AllocError>
    ensures { OnOk result (out.new.items ≡ out.old.items ++ spaced (signed_decimal value)) }
{
    let text = format!(in alloc; " {value}")?;
    out.extend_from_slice(text.as_bytes())?;
    Ok(())
}

/// A space and the number, which is never below 0.
pub(crate) fn put_count(alloc: Global, out: &mut Vec<u8>, value: u64) -> Result<(), AllocError>
    ensures { OnOk result (out.new.items ≡ out.old.items ++ spaced (decimal value)) }
{
    let text = format!(in alloc; " {value}")?;
    out.extend_from_slice(text.as_bytes())?;
    Ok(())
}

/// The key and the numbers.
pub fn put_numbers_line(
    alloc: Global,
    out: &mut Vec<u8>,
    key: &[u8],
    numbers: &[i128],
) -> Result<(), AllocError>
    ensures { OnOk result (out.new.items ≡ out.old.items ++ line (number_words key.now numbers.now)) }
{
    out.extend_from_slice(key)?;
    'numbers: for number in numbers {
        put_number(alloc, out, *number)?;
    }
    out.push(b'\n')?;
    Ok(())
}

/// The key and the number, which is never below 0.
#[tactic(auto, unfolding(cal_scan::specs::Lines::line))]
pub fn put_count_line(
    alloc: Global,
    out: &mut Vec<u8>,
    key: &[u8],
    value: u64,
) -> Result<(), AllocError>
    ensures { OnOk result (out.new.items ≡ out.old.items ++ line (key.now ∷ decimal value ∷ [])) }
{
    out.extend_from_slice(key)?;
    put_count(alloc, out, value)?;
    out.push(b'\n')?;
    Ok(())
}

/// The key and the names.
pub(crate) fn put_names_line(
    out: &mut Vec<u8>,
    key: &[u8],
    names: &[Name],
) -> Result<(), AllocError>
    ensures { OnOk result (out.new.items ≡ out.old.items ++ line (key.now ∷ names.now)) }
{
    out.extend_from_slice(key)?;
    'names: for name in names {
        put_word(out, name.bytes())?;
    }
    out.push(b'\n')?;
    Ok(())
}
