//! The lines at which texts are no longer a report's.

use crate::reports::ONE_ELEMENT;
use eq_text::{TextFault, read_report};
use std::alloc::{AllocError, Global};
use std::test::Fail;

/// How many lines the text of one element has.
const LINES: usize = 18;

/// The line of a text's fault, or 0.
fn fault_line(alloc: Global, text: &[u8]) -> u32 {
    if text.len() > 10000 {
        return 2000;
    }
    match read_report(alloc, text) {
        Ok(_) => 0,
        Err(TextFault::Line(line)) => line,
        Err(TextFault::Memory) => 1000,
    }
}

fn put_line(out: &mut Vec<u8>, place: usize) -> Result<(), AllocError> {
    if let Some(line) = ONE_ELEMENT.split(|byte| *byte == b'\n').nth(place) {
        out.extend_from_slice(line)?;
        out.push(b'\n')?;
    }
    Ok(())
}

fn put_lines(out: &mut Vec<u8>, from: usize, to: usize) -> Result<(), AllocError> {
    for place in from..to {
        put_line(out, place)?;
    }
    Ok(())
}

/// The text of one element with other lines of it in place of some lines.
fn with_lines(
    alloc: Global,
    from: usize,
    to: usize,
    instead: &[usize],
) -> Result<Vec<u8>, AllocError> {
    let mut out = Vec::new(alloc);
    put_lines(&mut out, 0, from)?;
    for place in instead {
        put_line(&mut out, *place)?;
    }
    put_lines(&mut out, to, LINES)?;
    Ok(out)
}

/// The text of one element with another text in place of a line.
fn with_text(alloc: Global, line: u32, instead: &[u8]) -> Result<Vec<u8>, AllocError> {
    let mut out = Vec::new(alloc);
    put_lines(&mut out, 0, line.saturating_sub(1) as usize)?;
    out.extend_from_slice(instead)?;
    put_lines(&mut out, line as usize, LINES)?;
    Ok(out)
}

#[test]
fn a_line_that_is_missing_doubled_or_exchanged_is_the_fault(rt: HostRuntime) -> Result<(), Fail> {
    for place in 0..LINES {
        let missing = with_lines(rt.alloc(), place, place + 1, &[])?;
        assert_eq!(rt;
            fault_line(rt.alloc(), missing.as_slice()) as usize,
            place + 1,
            "without {place}"
        );
        let doubled = with_lines(rt.alloc(), place, place, &[place])?;
        assert_eq!(rt;
            fault_line(rt.alloc(), doubled.as_slice()) as usize,
            place + 2,
            "twice {place}"
        );
    }
    for place in 0..LINES - 1 {
        let exchanged = with_lines(rt.alloc(), place, place + 2, &[place + 1, place])?;
        assert_eq!(rt;
            fault_line(rt.alloc(), exchanged.as_slice()) as usize,
            place + 1,
            "exchanged {place}"
        );
    }
    assert_eq!(rt; fault_line(rt.alloc(), b""), 1);
    Ok(())
}

/// The line of an entry of so many sublattices with so many counts each, and one more sublattice of so many.
fn entry(alloc: Global, sublattices: u32, counts: u32, more: u32) -> Result<Vec<u8>, AllocError> {
    let mut out = Vec::from_slice(alloc, b"entry BETA 1")?;
    for _ in 0..sublattices {
        for _ in 0..counts {
            out.extend_from_slice(b" 0")?;
        }
        out.extend_from_slice(b" :")?;
    }
    for _ in 0..more {
        out.extend_from_slice(b" 1")?;
    }
    out.push(b'\n')?;
    Ok(out)
}

#[test]
fn an_entry_has_at_most_ten_sublattices_and_ninety_counts(rt: HostRuntime) -> Result<(), Fail> {
    for (sublattices, counts, more, fault) in [
        (0, 0, 90, 0),
        (0, 0, 91, 8),
        (9, 9, 9, 0),
        (9, 9, 10, 8),
        (9, 1, 1, 0),
        (10, 1, 1, 8),
        (60, 1, 1, 8),
    ] {
        let line = entry(rt.alloc(), sublattices, counts, more)?;
        let text = with_text(rt.alloc(), 8, line.as_slice())?;
        assert_eq!(rt;
            fault_line(rt.alloc(), text.as_slice()),
            fault,
            "{sublattices} of {counts}, {more}"
        );
    }
    Ok(())
}
