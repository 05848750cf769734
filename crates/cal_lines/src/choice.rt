//! Which kind of line comes next.

ghost use Rattle.std.specs.Prelude.{◌≡◌, ◌==◌, ◌∷◌, List};
ghost use Rattle.std.specs.List.{position, slice_split};
ghost use Rattle.cal_scan.specs.Lines.{Word};
ghost use Rattle.cal_lines.specs.Choosing.{next_passes, begins_with};
ghost use Rattle.cal_lines.specs.Places.{place};

use crate::place::Place;
use crate::words::line_end;
use cal_scan::{SPACE, is_word};

fn space_in(line: &[u8]) -> Option<usize>
    ensures { result ≡ position (λ b. b == SPACE) line.now }
{
    line.iter().position(|byte| *byte == SPACE)
}

/// The bytes before the first space.
fn first_word(line: &[u8]) -> &[u8]
    ensures { (rest : List Word) × (slice_split (λ b. b == SPACE) line.now ≡ result.now ∷ rest) }
{
    match space_in(line) {
        None => line,
        Some(end) => line.split_at(end).0,
    }
}

/// Whether the next line is a whole one, and its first word is the key.
pub fn next_begins_with(at: Place<'_>, key: &[u8]) -> bool
    ensures { result ≡ next_passes (begins_with key.now) (place at.entry).1 }
{
    match line_end(at.rest) {
        None => false,
        Some(end) => {
            let (line, _) = at.rest.split_at(end);
            is_word(first_word(line), key)
        }
    }
}
