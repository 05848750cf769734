//! The totals of the assemblage and the bounds on it.

ghost use Rattle.cal_lines.specs.Places.{ReadsAs};
ghost use Rattle.eq_text.specs.Fields.{bounds_of, sums_of};
ghost use Rattle.eq_text.specs.Parsing.{bounds_at, sums_at};

use crate::read::numbers::{integer_line, integers_line, size_line};
use crate::read::parts::{Bounds, Sums};
use cal_limits::{MOST_NUMBER, MOST_PRINTED_GAP, MOST_TOLERANCE};
use cal_lines::{Place, TextFault};
use std::alloc::Global;

#[tactic(auto, unfolding(crate::specs::Parsing::bounds_at, cal_lines::specs::Reading::both))]
fn bounds<'a>(
    alloc: Global,
    elements: usize,
    at: Place<'a>,
) -> Result<(Bounds, Place<'a>), TextFault>
    ensures { ReadsAs bounds_of result (bounds_at elements) at.entry }
{
    let (tolerance, after) = size_line(alloc, b"tolerance", MOST_TOLERANCE, at)?;
    let (gap, after) = size_line(alloc, b"gap", MOST_PRINTED_GAP, after)?;
    let (potentials, after) = integers_line(alloc, b"potentials", elements, after)?;
    let bounds = Bounds {
        tolerance,
        gap,
        potentials,
    };
    Ok((bounds, after))
}

#[tactic(auto, unfolding(crate::specs::Parsing::sums_at, cal_lines::specs::Reading::both))]
pub(crate) fn sums<'a>(
    alloc: Global,
    elements: usize,
    at: Place<'a>,
) -> Result<(Sums, Place<'a>), TextFault>
    ensures { ReadsAs sums_of result (sums_at elements) at.entry }
{
    let (totals, after) = integers_line(alloc, b"total", elements, at)?;
    let (energy, after) = integer_line(alloc, b"energy", MOST_NUMBER, after)?;
    let (bounds, after) = bounds(alloc, elements, after)?;
    let sums = Sums {
        totals,
        energy,
        bounds,
    };
    Ok((sums, after))
}
