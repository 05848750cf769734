//! The rules at the end of a path.

ghost use Rattle.std.specs.Prelude.{◌≡◌, ◌<◌, ◌+◌, ◌^◌, length};
ghost use Rattle.std.specs.Bool.{OnTrue, OnFalse};
ghost use Rattle.cef_path.specs.Spelled.{IsSpelledPath};
ghost use Rattle.cal_check.specs.Paths.{Finishes, HasRemains, finish_line};
ghost use Rattle.cal_check.specs.Workings.{CanEnd, IsLineVerdict, KeepsEnd};

use crate::finishing::finish_of;
use crate::same::are_same_numbers;
use crate::summing::{are_lost, are_solids};
use cef_path::PathText;

/// Whether the path has the finish of its last step.
fn finishes(path: &PathText) -> bool
    requires spelled { IsSpelledPath path.now }
    requires can { CanEnd path.now }
    ensures yes { OnTrue result (Finishes path.now) }
    ensures no { OnFalse result (Finishes path.now → ⊥) }
{
    let steps = path.steps.as_slice();
    let last = &steps[steps.len() - 1];
    let asked = steps[0].report.asked.as_slice();
    let found = finish_of(path, asked, last.report.t, last.left.as_slice());
    match found {
        None => false,
        Some(finish) => finish == path.finish,
    }
}

/// Whether the path prints what its last step left.
fn has_remains(path: &PathText) -> bool
    requires some { 0 < length path.now.steps }
    ensures yes { OnTrue result (HasRemains path.now) }
    ensures no { OnFalse result (HasRemains path.now → ⊥) }
{
    let steps = path.steps.as_slice();
    let last = &steps[steps.len() - 1];
    are_same_numbers(path.remains.as_slice(), last.left.as_slice())
}

/// The first of the four lines at the end, from `line` on, at which a rule is broken.
pub(crate) fn broken_end(path: &PathText, line: u32) -> Option<u32>
    requires spelled { IsSpelledPath path.now }
    requires can { CanEnd path.now }
    requires here { line ≡ finish_line path.now }
    requires room { line + 3 < 2 ^ 32 }
    ensures { IsLineVerdict (KeepsEnd path.now) result }
{
    if !finishes(path) {
        return Some(line);
    }
    if !are_solids(path) {
        return Some(line + 1);
    }
    if !has_remains(path) {
        return Some(line + 2);
    }
    if !are_lost(path) {
        return Some(line + 3);
    }
    None
}
