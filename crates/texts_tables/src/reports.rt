//! The report of one element, with another text in place of one of its lines.

use cal_scan::LINE_FEED;
use eq_text::{TextFault, read_report};
use std::alloc::{AllocError, Global};

const LINES: [&[u8]; 18] = [
    b"equilibrium 1",
    b"temperature 100000",
    b"lattice 10",
    b"elements A",
    b"phases ALPHA BETA",
    b"asked 10000000000",
    b"entries 1",
    b"entry BETA 1000000000 10",
    b"total 10000000000",
    b"energy -1500000000000000000",
    b"tolerance 0",
    b"gap 999999999847413",
    b"potentials -9836953599999",
    b"tree ALPHA",
    b"L 0",
    b"tree BETA",
    b"L 0",
    b"end",
];

fn put_line(out: &mut Vec<u8>, line: &[u8]) -> Result<(), AllocError> {
    out.extend_from_slice(line)?;
    out.push(LINE_FEED)?;
    Ok(())
}

fn put_text(out: &mut Vec<u8>, text: &[u8]) -> Result<(), AllocError> {
    for byte in text {
        match *byte {
            b'/' => out.push(LINE_FEED)?,
            b'~' => out.push(b'\r')?,
            other => out.push(other)?,
        }
    }
    Ok(())
}

fn with_text(alloc: Global, line: u32, text: &[u8]) -> Result<Vec<u8>, AllocError> {
    let mut out = Vec::new(alloc);
    for place in 0..LINES.len() {
        if place + 1 == line as usize {
            put_text(&mut out, text)?;
        } else {
            put_line(&mut out, LINES[place])?;
        }
    }
    Ok(out)
}

/// The line of the fault, or 0.
pub fn fault_line(alloc: Global, line: u32, text: &[u8]) -> Result<u32, AllocError> {
    let report = with_text(alloc, line, text)?;
    if report.len() > 10_000 {
        return Ok(u32::MAX);
    }
    match read_report(alloc, report.as_slice()) {
        Ok(_) => Ok(0),
        Err(TextFault::Line(fault)) => Ok(fault),
        Err(TextFault::Memory) => Err(AllocError),
    }
}
