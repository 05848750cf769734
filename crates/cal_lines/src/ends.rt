//! The first place of a text, and the place behind its last line.

ghost use Rattle.std.specs.Prelude.{◌≡◌, ◌≤◌, ◌^◌, length, [], IsTrue, ◌↔◌};
ghost use Rattle.cal_limits.specs.declared.TheConstants.{MOST_REPORT_BYTES};
ghost use Rattle.cal_lines.specs.Reading.{Gives, lines_of, ended};
ghost use Rattle.cal_lines.specs.Places.{place};

use crate::fault::TextFault;
use crate::place::Place;

impl<'a> Place<'a> {
    /// The first line of a text.
    pub fn start(text: &'a [u8]) -> Place<'a>
        requires { length text.now ≤ MOST_REPORT_BYTES }
        ensures lines { place result ≡ (1, lines_of text.now) }
        ensures number { result.number ≡ 1 }
        ensures rest { result.rest.now ≡ text.now }
    {
        Place {
            number: 1,
            rest: text,
        }
    }

    /// Whether nothing is left of the text.
    pub fn is_end(self) -> bool
        ensures { IsTrue result ↔ (self.entry.rest.now ≡ []) }
    {
        self.rest.is_empty()
    }

    /// Nothing may be left of the text.
    pub fn expect_end(self) -> Result<(), TextFault>
        ensures { Gives (λ u. tt) result (ended (place self.entry)) }
    {
        if self.rest.is_empty() {
            Ok(())
        } else {
            Err(TextFault::Line(self.number))
        }
    }
}
