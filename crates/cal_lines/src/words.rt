ghost use Rattle.std.specs.Prelude.{◌≡◌, ◌==◌, IfOk, Ok, ◌<◌, length};
ghost use Rattle.cal_scan.specs.Lines.{texts};
ghost use Rattle.std.specs.List.{position};
ghost use Rattle.cal_lines.specs.Reading.{Gives, line_at};
ghost use Rattle.cal_lines.specs.Places.{place};

use crate::fault::TextFault;
use crate::place::Place;
use cal_scan::{LINE_FEED, SPACE, parts_at};
use std::alloc::Global;

/// The words of the line at a place, and the place behind it. A line without a line feed is at fault.
pub fn words_at<'a>(alloc: Global, at: Place<'a>) -> Result<(Vec<&'a [u8]>, Place<'a>), TextFault>
    ensures reads { Gives (λ x. (texts x.0.items, place x.1)) result (line_at (place at.entry)) }
    ensures shorter { IfOk result (λ x. length x.1.rest.now < length at.entry.rest.now) }
{
    match line_end(at.rest) {
        None => Err(TextFault::Line(at.number)),
        Some(end) => {
            let (line, tail) = at.rest.split_at(end);
            let words = parts_at(alloc, line, SPACE)?;
            let (_, rest) = tail.split_at(1);
            let after = Place {
                number: at.number + 1,
                rest,
            };
            Ok((words, after))
        }
    }
}

pub(crate) fn line_end(bytes: &[u8]) -> Option<usize>
    ensures { result ≡ position (λ b. b == LINE_FEED) bytes.now }
{
    bytes.iter().position(|byte| *byte == LINE_FEED)
}
