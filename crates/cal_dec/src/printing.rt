ghost use Rattle.std.specs.Prelude.{◌≡◌, ◌≤◌, ◌++◌, OnOk, OnErr};
ghost use Rattle.std.specs.Fmt.{signed_decimal};
ghost use Rattle.cal_dec.specs.Printed.{last_digits, decimals, fixed_text};

use std::alloc::AllocError;

/// Appends the decimal text of a whole number.
pub fn print_whole(value: i128, out: &mut Vec<u8>) -> Result<(), AllocError>
    ensures ok { OnOk result (out.new.items ≡ out.old.items ++ signed_decimal value) }
    ensures err { OnErr result (out.new.items ≡ out.old.items) }
{
    let text = format!(in *out.allocator(); "{value}")?;
    out.extend_from_slice(text.as_bytes())?;
    Ok(())
}

/// Appends `value / 10^places` with exactly that many decimals, and without a point where there are none.
pub fn print_fixed(value: u64, places: u8, out: &mut Vec<u8>) -> Result<(), AllocError>
    requires { places ≤ 9 }
    ensures ok { OnOk result (out.new.items ≡ out.old.items ++ fixed_text value places) }
    ensures err { OnErr result (out.new.items ≡ out.old.items) }
{
    let whole = value / 10u64.pow(places as u32);
    let mut text = Vec::new(*out.allocator());
    print_whole(whole as i128, &mut text)?;
    push_decimals(value, places, &mut text)?;
    out.extend_from_slice(text.as_slice())?;
    Ok(())
}

/// Appends a point and the last digits, or nothing where there are none.
fn push_decimals(value: u64, places: u8, text: &mut Vec<u8>) -> Result<(), AllocError>
    ensures { OnOk result (text.new.items ≡ text.old.items ++ decimals places value) }
{
    if places == 0 {
        return Ok(());
    }
    text.push(b'.')?;
    push_last_digits(value, places, text)
}

/// Appends the last digits of a number, as many as `places`, with leading zeros.
fn push_last_digits(value: u64, places: u8, text: &mut Vec<u8>) -> Result<(), AllocError>
    ensures { OnOk result (text.new.items ≡ text.old.items ++ last_digits places value) }
{
    if places == 0 {
        return Ok(());
    }
    push_last_digits(value / 10, places - 1, text)?;
    text.push(b'0' + (value % 10) as u8)?;
    Ok(())
}
