//! The rules of a path on the head of a step's report, and on the line of its number.

ghost use Rattle.std.specs.Prelude.{◌<◌, ◌+◌, ◌^◌, length};
ghost use Rattle.std.specs.Bool.{OnTrue, OnFalse};
ghost use Rattle.cef_path.specs.Spelled.{IsSpelledPath};
ghost use Rattle.cal_check.specs.Paths.{AsksLeft, HasSameElements, HasSameLattice, HasSamePhases, IsLowered, IsNext, OfBefore};
ghost use Rattle.cal_check.specs.Workings.{AtStep, IsLineVerdict, IsModest, KeepsHead};

use crate::finishing::finish_of;
use crate::same::{are_same_names, are_same_numbers};
use cef_path::PathText;

/// The lines of the head of a step's report, counted from the line of the step's number.
const TEMPERATURE_LINE: u32 = 2;

const LATTICE_LINE: u32 = 3;

const ELEMENTS_LINE: u32 = 4;

const PHASES_LINE: u32 = 5;

const ASKED_LINE: u32 = 6;

/// Whether the step has its number, and follows one without a finish.
pub(crate) fn is_next(path: &PathText, i: usize) -> bool
    requires spelled { IsSpelledPath path.now }
    requires within { i < length path.now.steps }
    requires modest { OfBefore IsModest path.now.steps i }
    ensures yes { OnTrue result (AtStep path.now.steps i (IsNext path.now i)) }
    ensures no { OnFalse result (AtStep path.now.steps i (IsNext path.now i) → ⊥) }
{
    let steps = path.steps.as_slice();
    let step = &steps[i];
    if step.number as usize != i + 1 {
        return false;
    }
    if i == 0 {
        return true;
    }
    let before = &steps[i - 1];
    let asked = steps[0].report.asked.as_slice();
    finish_of(path, asked, before.report.t, before.left.as_slice()).is_none()
}

/// Whether the step is one descent below the one before.
fn is_lowered(path: &PathText, i: usize) -> bool
    requires spelled { IsSpelledPath path.now }
    requires within { i < length path.now.steps }
    ensures yes { OnTrue result (AtStep path.now.steps i (IsLowered path.now i)) }
    ensures no { OnFalse result (AtStep path.now.steps i (IsLowered path.now i) → ⊥) }
{
    let steps = path.steps.as_slice();
    let step = &steps[i];
    if i == 0 {
        return true;
    }
    let before = &steps[i - 1];
    step.report.t + path.descent == before.report.t
}

/// Whether the step asks what the one before left.
fn asks_left(path: &PathText, i: usize) -> bool
    requires within { i < length path.now.steps }
    ensures yes { OnTrue result (AtStep path.now.steps i (AsksLeft path.now i)) }
    ensures no { OnFalse result (AtStep path.now.steps i (AsksLeft path.now i) → ⊥) }
{
    let steps = path.steps.as_slice();
    let step = &steps[i];
    if i == 0 {
        return true;
    }
    let before = &steps[i - 1];
    are_same_numbers(step.report.asked.as_slice(), before.left.as_slice())
}

/// Whether the step has the lattice of the first.
fn has_same_lattice(path: &PathText, i: usize) -> bool
    requires within { i < length path.now.steps }
    ensures yes { OnTrue result (AtStep path.now.steps i (HasSameLattice path.now)) }
    ensures no { OnFalse result (AtStep path.now.steps i (HasSameLattice path.now) → ⊥) }
{
    let steps = path.steps.as_slice();
    let step = &steps[i];
    let first = &steps[0];
    step.report.lattice == first.report.lattice
}

/// Whether the step has the elements of the first.
fn has_same_elements(path: &PathText, i: usize) -> bool
    requires within { i < length path.now.steps }
    ensures yes { OnTrue result (AtStep path.now.steps i (HasSameElements path.now)) }
    ensures no { OnFalse result (AtStep path.now.steps i (HasSameElements path.now) → ⊥) }
{
    let steps = path.steps.as_slice();
    let step = &steps[i];
    let first = &steps[0];
    are_same_names(
        step.report.elements.as_slice(),
        first.report.elements.as_slice(),
    )
}

/// Whether the step has the phases of the first.
fn has_same_phases(path: &PathText, i: usize) -> bool
    requires within { i < length path.now.steps }
    ensures yes { OnTrue result (AtStep path.now.steps i (HasSamePhases path.now)) }
    ensures no { OnFalse result (AtStep path.now.steps i (HasSamePhases path.now) → ⊥) }
{
    let steps = path.steps.as_slice();
    let step = &steps[i];
    let first = &steps[0];
    are_same_names(
        step.report.phases.as_slice(),
        first.report.phases.as_slice(),
    )
}

/// The first line of the head of the step's report at which a rule of the path is broken.
pub(crate) fn broken_head(path: &PathText, i: usize) -> Option<u32>
    requires spelled { IsSpelledPath path.now }
    requires within { i < length path.now.steps }
    requires room { AtStep path.now.steps i (λ step. step.line + 6 < 2 ^ 32) }
    ensures { AtStep path.now.steps i (λ step. IsLineVerdict (KeepsHead path.now i step) result) }
{
    let line = path.steps.as_slice()[i].line;
    if !is_lowered(path, i) {
        return Some(line + TEMPERATURE_LINE);
    }
    if !has_same_lattice(path, i) {
        return Some(line + LATTICE_LINE);
    }
    if !has_same_elements(path, i) {
        return Some(line + ELEMENTS_LINE);
    }
    if !has_same_phases(path, i) {
        return Some(line + PHASES_LINE);
    }
    if !asks_left(path, i) {
        return Some(line + ASKED_LINE);
    }
    None
}
