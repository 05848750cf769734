//! Reads rows of texts, and prints what each is read as: behind `line 08 `, the line of the fault of a report whose line 8 is
//! the rest of the row, or 0 where it has none; behind `words `, what a command line asks for. In a row `/` is a line feed, and
//! `~` is a carriage return.
#![tactic(auto)]

mod commands;
mod reports;

use cal_scan::{behind, whole};
use std::alloc::{AllocError, Global};
use std::io;

fn answer(alloc: Global, row: &str) -> Result<String, AllocError> {
    if let Some([tens, ones, _, text @ ..]) = behind(row.as_bytes(), b"line ") {
        let line = whole(&[*tens, *ones], 2).unwrap_or(0);
        let fault = reports::fault_line(alloc, line, text)?;
        return format!(in alloc; "{fault}");
    }
    commands::order(alloc, row)
}

fn main(rt: HostRuntime) -> io::Result<()> {
    for row in rt.lines(rt.alloc()) {
        let row = row?;
        let text = answer(rt.alloc(), row.as_str())?;
        println!(rt; "{text} <- {row}")?;
    }
    Ok(())
}
