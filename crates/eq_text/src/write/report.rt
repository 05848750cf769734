//! The text of a report, part by part.

ghost use Rattle.std.specs.Prelude.{◌≡◌, ◌<◌, ◌++◌, ◌∷◌, [], OnOk, IfOk, length, All, codes};
ghost use Rattle.std.specs.List.{concat};
ghost use Rattle.cal_scan.specs.Lines.{line};
ghost use Rattle.cef_report.specs.Texts.{text, head_lines, entry_lines, sum_lines, end_lines};
ghost use Rattle.cef_report.specs.Spelled.{IsSpelled};

use crate::write::entry::put_entry;
use crate::write::line::{put_count_line, put_names_line, put_numbers_line};
use crate::write::tree::put_trees;
use cef_core::Name;
use cef_report::{Entry, Report};
use std::alloc::{AllocError, Global};

#[tactic(auto, unfolding(cal_scan::specs::Lines::line))]
fn put_kind(out: &mut Vec<u8>) -> Result<(), AllocError>
    ensures { OnOk result (out.new.items ≡ out.old.items ++ line (codes "equilibrium" ∷ codes "1" ∷ [])) }
{
    out.extend_from_slice(b"equilibrium 1\n")?;
    Ok(())
}

/// The lines from the kind of the text to what is asked.
fn put_head(alloc: Global, out: &mut Vec<u8>, report: &Report) -> Result<(), AllocError>
    ensures { OnOk result (out.new.items ≡ out.old.items ++ concat (head_lines report.now)) }
{
    put_kind(out)?;
    put_count_line(alloc, out, b"temperature", u64::from(report.t))?;
    put_count_line(alloc, out, b"lattice", u64::from(report.lattice))?;
    put_names_line(out, b"elements", report.elements.as_slice())?;
    put_names_line(out, b"phases", report.phases.as_slice())?;
    put_numbers_line(alloc, out, b"asked", report.asked.as_slice())?;
    Ok(())
}

/// The number of entries, and a line for each.
fn put_entries(
    alloc: Global,
    out: &mut Vec<u8>,
    phases: &[Name],
    entries: &[Entry],
) -> Result<(), AllocError>
    requires { All (λ entry. entry.phase < length phases.now) entries.now }
    ensures { OnOk result (out.new.items ≡ out.old.items ++ concat (entry_lines phases.now entries.now)) }
{
    put_count_line(alloc, out, b"entries", entries.len() as u64)?;
    'entries: for entry in entries {
        put_entry(alloc, out, phases, entry)?;
    }
    Ok(())
}

/// The totals of the assemblage and the bounds on it.
fn put_sums(alloc: Global, out: &mut Vec<u8>, report: &Report) -> Result<(), AllocError>
    ensures { OnOk result (out.new.items ≡ out.old.items ++ concat (sum_lines report.now)) }
{
    put_numbers_line(alloc, out, b"total", report.totals.as_slice())?;
    put_numbers_line(alloc, out, b"energy", &[report.energy])?;
    put_numbers_line(alloc, out, b"tolerance", &[report.tolerance])?;
    put_numbers_line(alloc, out, b"gap", &[report.gap])?;
    put_numbers_line(alloc, out, b"potentials", report.potentials.as_slice())?;
    Ok(())
}

#[tactic(auto, unfolding(cef_report::specs::Texts::end_lines, cal_scan::specs::Lines::line))]
fn put_end(out: &mut Vec<u8>) -> Result<(), AllocError>
    ensures { OnOk result (out.new.items ≡ out.old.items ++ concat end_lines) }
{
    out.extend_from_slice(b"end\n")?;
    Ok(())
}

/// The text of a report that keeps to the limits of a text. `read_report` reads it back.
pub fn write_report(alloc: Global, report: &Report) -> Result<Vec<u8>, AllocError>
    requires { IsSpelled report.now }
    ensures { IfOk result (λ bytes. bytes.items ≡ text report.now) }
{
    let mut out = Vec::new(alloc);
    put_head(alloc, &mut out, report)?;
    put_entries(
        alloc,
        &mut out,
        report.phases.as_slice(),
        report.entries.as_slice(),
    )?;
    put_sums(alloc, &mut out, report)?;
    put_trees(
        alloc,
        &mut out,
        report.phases.as_slice(),
        report.trees.as_slice(),
    )?;
    put_end(&mut out)?;
    Ok(out)
}
