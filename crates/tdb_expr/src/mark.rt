ghost use Rattle.std.specs.Prelude.{◌≡◌};
ghost use Rattle.std.specs.Option.{option_map};
ghost use Rattle.tdb_expr.specs.Reading.{byte_at, mark_at, stars_at};

use cal_scan::behind_spaces;

/// What is behind the byte, where the text begins with it.
fn behind_byte(text: &[u8], byte: u8) -> Option<&[u8]>
    ensures { option_map (λ r. r.now) result ≡ byte_at byte text.now }
{
    match text.split_first() {
        Some((first, rest)) if *first == byte => Some(rest),
        _ => None,
    }
}

/// What is behind the byte, where the text begins with any spaces and it.
pub fn behind_mark(text: &[u8], byte: u8) -> Option<&[u8]>
    ensures { option_map (λ r. r.now) result ≡ mark_at byte text.now }
{
    behind_byte(behind_spaces(text), byte)
}

/// What is behind `**`, where the text begins with any spaces and it.
pub fn behind_stars(text: &[u8]) -> Option<&[u8]>
    ensures { option_map (λ r. r.now) result ≡ stars_at text.now }
{
    let rest = behind_mark(text, b'*')?;
    behind_byte(rest, b'*')
}
