//! The lines of a judged report.

ghost use Rattle.std.specs.Prelude.{◌≡◌, IfOk};
ghost use Rattle.cal_refusal.specs.Reports.{accepted_line, report_line};

use cal_scan::LINE_FEED;
use eq_cert::{CheckRule, check_text};
use std::alloc::{AllocError, Global};

/// The line of the first rule of a report that is broken.
pub fn report(alloc: Global, line: u32, rule: CheckRule) -> Result<Vec<u8>, AllocError>
    ensures { IfOk result (λ text. text.items ≡ report_line line rule) }
{
    let number = format!(in alloc; "{line}")?;
    let mut text = Vec::from_slice(alloc, b"refused report line ".as_slice())?;
    text.extend_from_slice(number.as_bytes())?;
    text.extend_from_slice(b" rule ")?;
    text.extend_from_slice(check_text(rule).as_bytes())?;
    text.push(LINE_FEED)?;
    Ok(text)
}

/// The line of so many accepted reports.
pub fn accepted(alloc: Global, count: u32) -> Result<Vec<u8>, AllocError>
    ensures { IfOk result (λ text. text.items ≡ accepted_line count) }
{
    let number = format!(in alloc; "{count}")?;
    let mut text = Vec::from_slice(alloc, b"accepted ".as_slice())?;
    text.extend_from_slice(number.as_bytes())?;
    text.push(LINE_FEED)?;
    Ok(text)
}
