//! The parts of a path one behind the other: its head, its steps and its end.

ghost use Rattle.std.specs.Prelude.{◌≡◌, ◌+◌, ◌<◌, true, false, IfOk, length, codes};
ghost use Rattle.cal_limits.specs.declared.TheConstants.{MOST_NUMBER};
ghost use Rattle.cal_lines.specs.Places.{place, ReadsAt, ReadsAs};
ghost use Rattle.cal_lines.specs.Reading.{of_line};
ghost use Rattle.cal_lines.specs.Choosing.{until, begins_with, next_passes};
ghost use Rattle.eq_text.specs.Kinds.{integers_after};
ghost use Rattle.cef_path.specs.declared.limit.TheConstants.{MOST_STEPS};
ghost use Rattle.cef_path.specs.Texts.{lines_of_step};
ghost use Rattle.cef_path.specs.Spelled.{StandAt};
ghost use Rattle.path_text.specs.Fields.{head_of, ending_of, steps_of};
ghost use Rattle.path_text.specs.Parsing as parsing;
ghost use Rattle.path_text.specs.Parsing.{behind, step_fields, path_fields};

use crate::lines::{finish_line, floor_line, name_line, number_line, positive_line};
use crate::parts::{Ending, Head, Steps};
use cal_limits::HIGHEST_TEMPERATURE;
use cal_lines::{Place, TextFault, next_begins_with};
use cal_list::{Items, one};
use cef_path::{MOST_STEPS, MOST_STOP, PathText, StepText};
use cef_report::Report;
use eq_text::{integers_line, next_report, two_words_line};
use std::alloc::Global;

#[tactic(auto, unfolding(crate::specs::Parsing::head_at, cal_lines::specs::Reading::both))]
fn head<'a>(alloc: Global, at: Place<'a>) -> Result<(Head, Place<'a>), TextFault>
    ensures { ReadsAs head_of result parsing.head_at at.entry }
{
    let ((), after) = two_words_line(alloc, b"path", b"1", at)?;
    let (liquid, after) = name_line(alloc, b"liquid", after)?;
    let (descent, after) = positive_line(alloc, b"descent", HIGHEST_TEMPERATURE, after)?;
    let (floor, after) = floor_line(alloc, after)?;
    let (stop, after) = number_line(alloc, b"stop", MOST_STOP, after)?;
    let head = Head {
        liquid,
        descent,
        floor,
        stop,
    };
    Ok((head, after))
}

/// What is left of each element of a report.
fn left_line<'a>(
    alloc: Global,
    report: &Report,
    at: Place<'a>,
) -> Result<(Items<i128>, Place<'a>), TextFault>
    ensures { ReadsAt result (of_line (integers_after (codes "left") (length report.now.elements) MOST_NUMBER)) at.entry }
{
    let (left, after) = integers_line(alloc, b"left", report.elements.len(), at)?;
    Ok((left, after))
}

#[tactic(auto, unfolding(crate::specs::Parsing::step_at, cal_lines::specs::Reading::both))]
fn step<'a>(alloc: Global, at: Place<'a>) -> Result<(StepText, Place<'a>), TextFault>
    ensures reads { ReadsAs step_fields result parsing.step_at at.entry }
    ensures line { IfOk result (λ x. x.0.line ≡ at.entry.number) }
{
    let (number, after) = positive_line(alloc, b"step", MOST_STEPS as u32, at)?;
    let (report, after) = next_report(alloc, after)?;
    let (left, after) = left_line(alloc, &report, after)?;
    let step = StepText {
        number,
        report,
        left,
        line: at.number,
    };
    Ok((step, after))
}

#[tactic(auto, unfolding(crate::specs::Parsing::ending_at, cal_lines::specs::Reading::both))]
fn ending<'a>(
    alloc: Global,
    elements: usize,
    at: Place<'a>,
) -> Result<(Ending, Place<'a>), TextFault>
    ensures { ReadsAs ending_of result (parsing.ending_at elements) at.entry }
{
    let (finish, after) = finish_line(alloc, at)?;
    let (solids, after) = integers_line(alloc, b"solids", elements, after)?;
    let (remains, after) = integers_line(alloc, b"remains", elements, after)?;
    let (lost, after) = integers_line(alloc, b"lost", elements, after)?;
    let ending = Ending {
        finish,
        solids,
        remains,
        lost,
    };
    Ok((ending, after))
}

/// Whether another step follows so many steps.
fn goes_on(count: usize, at: Place<'_>) -> bool
    ensures yes { result ≡ true → (count < MOST_STEPS) × (next_passes (begins_with (codes "step")) (place at.entry).1 ≡ true) }
    ensures no { result ≡ false → count < MOST_STEPS → next_passes (begins_with (codes "step")) (place at.entry).1 ≡ false }
{
    if count < MOST_STEPS {
        next_begins_with(at, b"step")
    } else {
        false
    }
}

/// The steps behind the first, and the end.
fn others<'a>(
    alloc: Global,
    elements: usize,
    first: StepText,
    at: Place<'a>,
) -> Result<(Steps, Place<'a>), TextFault>
    requires { at.number ≡ first.line + length (lines_of_step first) }
    ensures reads { ReadsAs steps_of result (λ at. behind (step_fields first) (parsing.others_at elements at)) at.entry }
    ensures stand { IfOk result (λ x. StandAt first.line x.0.steps) }
{
    let mut steps = one(alloc, first)?;
    let mut here = at;
    'steps: while goes_on(steps.len(), here) {
        let (step, after) = step(alloc, here)?;
        steps.push(step)?;
        here = after;
    }
    let (ending, after) = ending(alloc, elements, here)?;
    Ok((Steps { steps, ending }, after))
}

/// The steps behind the first, and the end, which is about the elements of the first.
fn others_of<'a>(
    alloc: Global,
    first: StepText,
    at: Place<'a>,
) -> Result<(Steps, Place<'a>), TextFault>
    requires { at.number ≡ first.line + length (lines_of_step first) }
    ensures reads { ReadsAs steps_of result (λ at. behind (step_fields first) (parsing.others_at (length first.report.elements) at)) at.entry }
    ensures stand { IfOk result (λ x. StandAt first.line x.0.steps) }
{
    let elements = first.report.elements.len();
    let (steps, after) = others(alloc, elements, first, at)?;
    Ok((steps, after))
}

#[tactic(auto, unfolding(crate::specs::Parsing::steps_at, cal_lines::specs::Reading::both))]
fn steps<'a>(alloc: Global, at: Place<'a>) -> Result<(Steps, Place<'a>), TextFault>
    ensures reads { ReadsAs steps_of result parsing.steps_at at.entry }
    ensures stand { IfOk result (λ x. StandAt at.entry.number x.0.steps) }
{
    let (first, after) = step(alloc, at)?;
    let (steps, after) = others_of(alloc, first, after)?;
    Ok((steps, after))
}

fn path_of(head: Head, steps: Steps) -> PathText
    ensures fields { path_fields result ≡ (head_of head, steps_of steps) }
    ensures steps { result.steps ≡ steps.steps }
{
    let Head {
        liquid,
        descent,
        floor,
        stop,
    } = head;
    let Steps { steps, ending } = steps;
    let Ending {
        finish,
        solids,
        remains,
        lost,
    } = ending;
    PathText {
        liquid,
        descent,
        floor,
        stop,
        steps,
        finish,
        solids,
        remains,
        lost,
    }
}

#[tactic(auto, unfolding(crate::specs::Parsing::path_at, cal_lines::specs::Reading::both))]
pub(crate) fn path<'a>(alloc: Global, at: Place<'a>) -> Result<(PathText, Place<'a>), TextFault>
    ensures reads { ReadsAs path_fields result parsing.path_at at.entry }
    ensures stand { IfOk result (λ x. StandAt (at.entry.number + 5) x.0.steps) }
{
    let (head, after) = head(alloc, at)?;
    let (steps, after) = steps(alloc, after)?;
    Ok((path_of(head, steps), after))
}
