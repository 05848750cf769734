ghost use Rattle.std.specs.Prelude.{◌≡◌};
ghost use Rattle.tdb_lex.specs.Commands.{is_space, cleaned, is_comment};

fn is_space_byte(byte: u8) -> bool
    ensures { result ≡ is_space byte }
{
    byte < 33 || byte == 127
}

/// A space byte as byte 32, a letter as its capital, and each other byte as it is.
pub fn clean_byte(byte: u8) -> u8
    ensures { result ≡ cleaned byte }
{
    if is_space_byte(byte) {
        return b' ';
    }
    if byte > 96 && byte < 123 {
        return byte - 32;
    }
    byte
}

/// Whether a dollar sign is the first byte that is no space.
pub fn is_comment_line(line: &[u8]) -> bool
    ensures { result ≡ is_comment line.now }
{
    'bytes: for byte in line {
        if !is_space_byte(*byte) {
            return *byte == b'$';
        }
    }
    false
}
