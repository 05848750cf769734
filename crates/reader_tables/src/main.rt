//! Reads rows of database texts, in which `|` is a line feed and `^` a tab, and prints the line and the rule of the first fault
//! of each, or `none`.
#![tactic(auto)]

use cal_scan::LINE_FEED;
use cal_words::rule_text;
use std::alloc::{AllocError, Global};
use std::io;
use tdb_read::{DbFault, read};

/// The text of a row.
fn text(alloc: Global, row: &str) -> Result<Vec<u8>, AllocError> {
    let mut text = Vec::new(alloc);
    for byte in row.as_bytes() {
        match *byte {
            b'|' => text.push(LINE_FEED)?,
            b'^' => text.push(b'\t')?,
            other => text.push(other)?,
        }
    }
    Ok(text)
}

/// The line and the rule of the first fault of a row's text.
fn fault(alloc: Global, row: &str) -> Result<String, AllocError> {
    let text = text(alloc, row)?;
    if text.len() > 10_000 {
        return format!(in alloc; "too long");
    }
    match read(alloc, text.as_slice()) {
        Ok(_) => format!(in alloc; "none"),
        Err(DbFault::Bad { line, rule }) => {
            let rule = rule_text(rule);
            format!(in alloc; "{line} {rule}")
        }
        Err(DbFault::Memory) => Err(AllocError),
    }
}

fn main(rt: HostRuntime) -> io::Result<()> {
    for row in rt.lines(rt.alloc()) {
        let row = row?;
        let fault = fault(rt.alloc(), row.as_str())?;
        println!(rt; "{fault} <- {row}")?;
    }
    Ok(())
}
