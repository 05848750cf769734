//! The records of a document.

ghost use Rattle.std.specs.Prelude.{◌≡◌, ◌++◌, IfOk, OnOk, length, true, All};
ghost use Rattle.std.specs.List.{flat_map, AllByRecursion};
ghost use Rattle.cal_scan.specs.Words.{is_name};
ghost use Rattle.cef_report.specs.Spelled.{IsSpelled, IsSpelledEntry};
ghost use Rattle.cef_path.specs.Spelled.{IsSpelledStep};
ghost use Rattle.path_text.specs.Documents.{IsSpelledDocument};
ghost use Rattle.cal_table.specs.Tables as tables;
ghost use Rattle.cal_table.specs.Records.{text_in, IsBetween};

use crate::field::{constitution, kelvin};
use crate::row::{no_rows, put_row, text_of};
use cef_core::Name;
use cef_path::StepText;
use cef_report::{Entry, Report};
use csv::Writer;
use path_text::Document;
use std::alloc::{AllocError, Global};

fn put_header(rows: &mut Writer<Vec<u8>>) -> Result<(), AllocError>
    requires { IsBetween rows.old }
    ensures between { OnOk result (IsBetween rows.new) }
    ensures text { OnOk result (text_in rows.new ≡ text_in rows.old ++ tables.row tables.header) }
{
    let fields: [&[u8]; 5] = [
        b"step",
        b"temperature",
        b"phase",
        b"amount",
        b"constitution",
    ];
    put_row(rows, &fields)
}

/// The record of an entry of the equilibrium of the step with this number, at t hundredths of a kelvin.
fn put_entry(
    alloc: Global,
    rows: &mut Writer<Vec<u8>>,
    number: u32,
    t: u32,
    phases: &[Name],
    entry: &Entry,
) -> Result<(), AllocError>
    requires between { IsBetween rows.old }
    requires names { AllByRecursion (λ name. is_name name ≡ true) phases.now }
    requires entry { IsSpelledEntry (length phases.now) entry.now }
    ensures between { OnOk result (IsBetween rows.new) }
    ensures text { OnOk result (text_in rows.new ≡ text_in rows.old ++ tables.row (tables.entry_fields number t phases.now entry.now)) }
{
    let amount = entry.amount;
    let step = format!(in alloc; "{number}")?;
    let temperature = kelvin(alloc, t)?;
    let amount = format!(in alloc; "{amount}")?;
    let counts = constitution(alloc, &entry.site)?;
    let fields: [&[u8]; 5] = [
        step.as_bytes(),
        temperature.as_slice(),
        phases[entry.phase].bytes(),
        amount.as_bytes(),
        counts.as_slice(),
    ];
    put_row(rows, &fields)
}

fn put_entries(
    alloc: Global,
    rows: &mut Writer<Vec<u8>>,
    number: u32,
    t: u32,
    phases: &[Name],
    entries: &[Entry],
) -> Result<(), AllocError>
    requires between { IsBetween rows.old }
    requires names { AllByRecursion (λ name. is_name name ≡ true) phases.now }
    requires entries { All (IsSpelledEntry (length phases.now)) entries.now }
    ensures between { OnOk result (IsBetween rows.new) }
    ensures text { OnOk result (text_in rows.new ≡ text_in rows.old ++ tables.entries_text number t phases.now entries.now) }
{
    'entries: for entry in entries {
        put_entry(alloc, rows, number, t, phases, entry)?;
    }
    Ok(())
}

fn put_report(
    alloc: Global,
    rows: &mut Writer<Vec<u8>>,
    number: u32,
    report: &Report,
) -> Result<(), AllocError>
    requires between { IsBetween rows.old }
    requires report { IsSpelled report.now }
    ensures between { OnOk result (IsBetween rows.new) }
    ensures text { OnOk result (text_in rows.new ≡ text_in rows.old ++ tables.report_text number report.now) }
{
    put_entries(
        alloc,
        rows,
        number,
        report.t,
        report.phases.as_slice(),
        report.entries.as_slice(),
    )
}

fn put_steps(
    alloc: Global,
    rows: &mut Writer<Vec<u8>>,
    steps: &[StepText],
) -> Result<(), AllocError>
    requires between { IsBetween rows.old }
    requires steps { All IsSpelledStep steps.now }
    ensures between { OnOk result (IsBetween rows.new) }
    ensures text { OnOk result (text_in rows.new ≡ text_in rows.old ++ flat_map tables.step_text steps.now) }
{
    'steps: for step in steps {
        put_report(alloc, rows, step.number, &step.report)?;
    }
    Ok(())
}

fn put_document(
    alloc: Global,
    rows: &mut Writer<Vec<u8>>,
    document: &Document,
) -> Result<(), AllocError>
    requires between { IsBetween rows.old }
    requires document { IsSpelledDocument document.now }
    ensures { OnOk result (text_in rows.new ≡ text_in rows.old ++ tables.document_rows document.now) }
{
    match document {
        Document::One(report) => put_report(alloc, rows, 1, report),
        Document::Path(path) => put_steps(alloc, rows, path.steps.as_slice()),
    }
}

/// The table of a document that has a text: a record of names, and one for each entry of each equilibrium, in order.
#[tactic(auto, unfolding(crate::specs::Tables::table_of))]
pub fn table(alloc: Global, document: &Document) -> Result<Vec<u8>, AllocError>
    requires { IsSpelledDocument document.now }
    ensures { IfOk result (λ bytes. bytes.items ≡ tables.table_of document.now) }
{
    let mut rows = no_rows(alloc);
    put_header(&mut rows)?;
    put_document(alloc, &mut rows, document)?;
    text_of(rows)
}
