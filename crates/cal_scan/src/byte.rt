//! The bytes of a text by name, and their kinds.

ghost use Rattle.std.specs.Prelude.{◌≡◌};
ghost use Rattle.cal_scan.specs.Bytes.{is_letter, is_digit, is_name_byte};

pub const LINE_FEED: u8 = b'\n';

pub const SPACE: u8 = b' ';

pub const PLUS: u8 = b'+';

pub const COMMA: u8 = b',';

pub const MINUS: u8 = b'-';

pub const POINT: u8 = b'.';
/// The digit 0: the digits from 0 to 9 stand one behind the other from here on.
pub const ZERO: u8 = b'0';

pub const COLON: u8 = b':';

pub const EQUALS: u8 = b'=';

pub const UNDERSCORE: u8 = b'_';

/// Whether a byte is one of the capitals from A to Z.
pub fn is_letter_byte(byte: u8) -> bool
    ensures { result ≡ is_letter byte }
{
    byte.is_ascii_uppercase()
}

/// Whether a byte is one of the digits from 0 to 9.
pub fn is_digit_byte(byte: u8) -> bool
    ensures { result ≡ is_digit byte }
{
    byte.is_ascii_digit()
}

/// Whether a byte may stand in a name: a capital, a digit or `_`.
pub fn may_stand_in_name(byte: u8) -> bool
    ensures { result ≡ is_name_byte byte }
{
    is_letter_byte(byte) || is_digit_byte(byte) || byte == UNDERSCORE
}
