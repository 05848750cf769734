//! The cut of a box at the middle of its widest range.

ghost use Rattle.std.specs.Prelude.{◌≡◌, ◌+◌, ◌/◌, ◌<◌, ◌≤◌, ◌^◌};
ghost use Rattle.cef_core.specs.Shapes.{places};
ghost use Rattle.cef_box.specs.Boxes.{IsSingle};
ghost use Rattle.eq_sweep.specs.Findings.{IsReady, IsMiddle};

use cef_box::{BoxRange, Range};
use cef_core::PhaseAt;

/// A place of a box, and the count up to which its left part goes.
#[derive(Clone, Copy)]
pub(crate) struct Cut {
    pub(crate) place: u16,
    pub(crate) count: u16,
}

fn middle(range: Range) -> u16
    requires { range.low < range.high }
    ensures exact { result ≡ (range.low + range.high) / 2 }
    ensures low { range.low ≤ result }
    ensures high { result < range.high }
{
    ((u32::from(range.low) + u32::from(range.high)) / 2) as u16
}

/// The cut of a box that has several lists of counts: at the middle of the first range of the greatest width.
#[tactic(auto, using(crate::proofs::Middles::middles))]
pub(crate) fn middle_cut(phase: &PhaseAt, range: &BoxRange) -> Cut
    requires few { places range.now < 2 ^ 16 }
    requires ready { IsReady phase.now range.now }
    requires several { IsSingle range.now → ⊥ }
    ensures { IsMiddle range.now result.place result.count }
{
    match range.widest() {
        None => unreachable!(),
        Some(widest) => Cut {
            place: widest.place as u16,
            count: middle(widest.range),
        },
    }
}
