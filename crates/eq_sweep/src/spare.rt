//! Boxes that wait to be visited, and boxes to be written anew.

ghost use Rattle.std.specs.Prelude.{◌≡◌, ◌≤◌, ◌<◌, IfOk, OnOk, replicate};
ghost use Rattle.cef_core.specs.Shapes.{shape};
ghost use Rattle.eq_sweep.specs.Findings.{IsReady, AreShaped, ArePushed, IsMiddle};

use crate::cut::Cut;
use cef_box::{BoxRange, split};
use cef_core::PhaseAt;
use std::alloc::{AllocError, Global};

/// So many copies of a box.
pub(crate) fn copies_of(
    alloc: Global,
    range: &BoxRange,
    number: usize,
) -> Result<Vec<BoxRange>, AllocError>
    ensures { IfOk result (λ boxes. AreShaped (shape range.now) boxes.items) }
{
    let mut boxes = Vec::with_capacity(alloc, number)?;
    'copies: for _ in 0..number {
        boxes.push(range.copy(alloc)?)?;
    }
    Ok(boxes)
}

/// A box of this shape: a spare one, or a new one where none is left.
fn taken(alloc: Global, range: &BoxRange, spare: &mut Vec<BoxRange>) -> Result<BoxRange, AllocError>
    requires { AreShaped (shape range.now) spare.old.items }
    ensures shaped { IfOk result (λ box. shape box ≡ shape range.now) }
    ensures spare { AreShaped (shape range.now) spare.new.items }
{
    match spare.pop() {
        Some(other) => Ok(other),
        None => range.copy(alloc),
    }
}

/// Puts the parts of a box onto the stack, the left one on top. The box is a spare one then.
pub(crate) fn push_parts(
    alloc: Global,
    phase: &PhaseAt,
    range: BoxRange,
    cut: Cut,
    stack: &mut Vec<BoxRange>,
    spare: &mut Vec<BoxRange>,
) -> Result<(), AllocError>
    requires ready { IsReady phase.now range }
    requires cut { IsMiddle range cut.place cut.count }
    requires spare { AreShaped (shape range) spare.old.items }
    ensures pushed { OnOk result (ArePushed phase.now.lattice range cut stack.old.items stack.new.items) }
    ensures spare { OnOk result (AreShaped (shape range) spare.new.items) }
{
    let mut left = taken(alloc, &range, spare)?;
    let mut right = taken(alloc, &range, spare)?;
    split(
        phase,
        &range,
        usize::from(cut.place),
        cut.count,
        &mut left,
        &mut right,
    );
    stack.push(right)?;
    stack.push(left)?;
    spare.push(range)?;
    Ok(())
}
