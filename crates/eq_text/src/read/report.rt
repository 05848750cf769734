//! The parts of a report one behind the other.

ghost use Rattle.std.specs.Prelude.{◌≡◌, ◌≤◌, IfOk, length};
ghost use Rattle.cal_lines.specs.Places.{ReadsAs};
ghost use Rattle.cal_lines.specs.Reading.{Gives, lines_of, OnLine};
ghost use Rattle.cef_report.specs.Texts.{text};
ghost use Rattle.cef_report.specs.Spelled.{IsSpelled};
ghost use Rattle.cef_report.specs.declared.report.Report.{Report};
ghost use Rattle.eq_text.specs.Parsing.{closing_at, body_at, named_at, report_at, all_of, fields};
ghost use Rattle.eq_text.specs.Fields.{closed, body_of, named_of};
ghost use Rattle.eq_text.specs.Faults.{Reads, IsFaultLine};

use crate::read::entry::entries;
use crate::read::head::{end_line, lattice_line, names_line, temperature_line, two_words_line};
use crate::read::numbers::asked_line;
use crate::read::parts::{Body, Named, Sums};
use crate::read::sums::sums;
use crate::read::tree::trees;
use cal_limits::{MOST_ELEMENTS, MOST_REPORT_BYTES};
use cal_lines::{Place, TextFault};
use cal_list::Items;
use cef_core::Name;
use cef_report::Report;
use cef_tree::Tree;
use std::alloc::Global;

#[tactic(auto, unfolding(crate::specs::Parsing::closing_at, cal_lines::specs::Reading::both))]
fn closing<'a>(
    alloc: Global,
    phases: &[Name],
    at: Place<'a>,
) -> Result<(Items<Tree>, Place<'a>), TextFault>
    ensures { ReadsAs closed result (closing_at phases.now) at.entry }
{
    let (trees, after) = trees(alloc, phases, at)?;
    let ((), after) = end_line(alloc, after)?;
    Ok((trees, after))
}

#[tactic(auto, unfolding(crate::specs::Parsing::body_at, cal_lines::specs::Reading::both))]
fn body<'a>(
    alloc: Global,
    elements: usize,
    phases: &[Name],
    at: Place<'a>,
) -> Result<(Body, Place<'a>), TextFault>
    ensures { ReadsAs body_of result (body_at elements phases.now) at.entry }
{
    let (asked, after) = asked_line(alloc, elements, at)?;
    let (entries, after) = entries(alloc, phases, after)?;
    let (sums, after) = sums(alloc, elements, after)?;
    let (trees, after) = closing(alloc, phases, after)?;
    let body = Body {
        asked,
        entries,
        sums,
        trees,
    };
    Ok((body, after))
}

#[tactic(auto, unfolding(crate::specs::Parsing::named_at, crate::specs::Parsing::phases_at, cal_lines::specs::Reading::both))]
fn named<'a>(alloc: Global, at: Place<'a>) -> Result<(Named, Place<'a>), TextFault>
    ensures { ReadsAs named_of result named_at at.entry }
{
    let (elements, after) = names_line(alloc, b"elements", Some(MOST_ELEMENTS), at)?;
    let (phases, after) = names_line(alloc, b"phases", None, after)?;
    let (body, after) = body(alloc, elements.len(), phases.as_slice(), after)?;
    let named = Named {
        elements,
        phases,
        body,
    };
    Ok((named, after))
}

fn report_of(t: u32, lattice: u32, named: Named) -> Report
    ensures { fields result ≡ (tt, (t, (lattice, named_of named))) }
{
    let Named {
        elements,
        phases,
        body,
    } = named;
    let Body {
        asked,
        entries,
        sums,
        trees,
    } = body;
    let Sums {
        totals,
        energy,
        bounds,
    } = sums;
    Report {
        t,
        lattice,
        elements,
        phases,
        asked,
        entries,
        totals,
        energy,
        tolerance: bounds.tolerance,
        gap: bounds.gap,
        potentials: bounds.potentials,
        trees,
    }
}

/// The report whose lines begin at a place, and the place behind it.
#[tactic(auto, unfolding(crate::specs::Parsing::report_at, cal_lines::specs::Reading::both))]
pub fn next_report<'a>(alloc: Global, at: Place<'a>) -> Result<(Report, Place<'a>), TextFault>
    ensures { ReadsAs fields result report_at at.entry }
{
    let ((), after) = two_words_line(alloc, b"equilibrium", b"1", at)?;
    let (t, after) = temperature_line(alloc, after)?;
    let (lattice, after) = lattice_line(alloc, after)?;
    let (named, after) = named(alloc, after)?;
    Ok((report_of(t, lattice, named), after))
}

#[tactic(auto, unfolding(crate::specs::Parsing::all_of))]
fn all(alloc: Global, bytes: &[u8]) -> Result<Report, TextFault>
    requires { length bytes.now ≤ MOST_REPORT_BYTES }
    ensures { Gives fields result (all_of (1, lines_of bytes.now)) }
{
    let (found, after) = next_report(alloc, Place::start(bytes))?;
    after.expect_end()?;
    Ok(found)
}

/// The report that the bytes are the text of; or the number of the first line, counted from 1, at which no text of a
/// report goes on.
pub fn read_report(alloc: Global, bytes: &[u8]) -> Result<Report, TextFault>
    requires { length bytes.now ≤ MOST_REPORT_BYTES }
    // What is read has a text, and the bytes are this text.
    ensures found { IfOk result (λ r. IsSpelled r × (bytes.now ≡ text r)) }
    // The text of a report is read, unless memory runs out.
    ensures only { (r : Report) → IsSpelled r → bytes.now ≡ text r → Reads result r }
    ensures line { OnLine result (λ n. IsFaultLine bytes.now n) }
{
    all(alloc, bytes)
}
