//! Runs over files in memory. Between `~` a row has what it shows; a database, the file `DB`; the words; and, where they are wanted,
//! parts of the printed text with `|` between them, and a report or a path, the file `R`. A file is the name of a text and, each behind
//! a `|`, the number of a line of two digits with a space and the line that stands there, or at the end where there is no such line; or
//! with `-`, and the line is taken out. What is printed is what the row shows, the status and the text of the run, in which `/` is a line
//! feed; in a row it is `^`. Where parts of the text are named, it is printed of each whether the text has it, in place of the text.
#![tactic(auto)]

mod texts;

use cal_base::{MemoryLibrary, MemorySink};
use cal_scan::{LINE_FEED, whole};
use cal_top::run;
use std::alloc::{AllocError, Global};
use std::io;
use texts::lines;

/// Puts a line in its place or at the end, or takes one out.
fn put_line<'a>(lines: &mut Vec<&'a [u8]>, line: &'a [u8]) -> Result<(), AllocError> {
    if let [tens, ones, mark, text @ ..] = line {
        let place = whole(&[*tens, *ones], 2).unwrap_or(0) as usize;
        if place == 0 || place > lines.len() {
            lines.push(text)?;
        } else if *mark == b'-' {
            lines.remove(place - 1);
        } else {
            lines[place - 1] = text;
        }
    }
    Ok(())
}

/// The bytes of the lines.
fn file(alloc: Global, lines: &[&[u8]]) -> Result<Vec<u8>, AllocError> {
    let mut bytes = Vec::new(alloc);
    for line in lines {
        for byte in *line {
            bytes.push(if *byte == b'^' { LINE_FEED } else { *byte })?;
        }
        bytes.push(LINE_FEED)?;
    }
    Ok(bytes)
}

/// The bytes of the file that a part of a row names.
fn file_of(alloc: Global, named: &str) -> Result<Vec<u8>, AllocError> {
    let mut parts = named.split('|');
    let mut all = Vec::from_slice(alloc, lines(parts.next().unwrap_or("")))?;
    for line in parts {
        put_line(&mut all, line.as_bytes())?;
    }
    file(alloc, all.as_slice())
}

/// The database, and the report or path where there is one.
fn files_of(
    alloc: Global,
    database: &str,
    report: Option<&str>,
) -> Result<MemoryLibrary, AllocError> {
    let mut files = MemoryLibrary::new(alloc);
    files.add("DB", file_of(alloc, database)?.as_slice())?;
    if let Some(report) = report {
        files.add("R", file_of(alloc, report)?.as_slice())?;
    }
    Ok(files)
}

fn words_of(alloc: Global, written: &str) -> Result<Vec<String>, AllocError> {
    let mut words = Vec::new(alloc);
    for word in written.split(' ') {
        words.push(String::from_str(alloc, word)?)?;
    }
    Ok(words)
}

/// The bytes with a mark for each line feed.
fn marked(alloc: Global, bytes: &[u8]) -> Result<String, AllocError> {
    let mut marked = Vec::new(alloc);
    for byte in bytes {
        marked.push(if *byte == LINE_FEED { b'/' } else { *byte })?;
    }
    String::from_utf8_lossy(alloc, marked.as_slice())
}

/// Of each part, whether the text has it.
fn parts_in(alloc: Global, text: &str, parts: &str) -> Result<String, AllocError> {
    let mut found = String::new(alloc);
    for part in parts.split('|') {
        if !found.is_empty() {
            found.push(' ')?;
        }
        found.push_str(if text.contains(part) { "has" } else { "lacks" })?;
    }
    Ok(found)
}

/// What a row shows, with the status and the text of its run, or which parts the text has.
fn answer(alloc: Global, row: &str) -> Result<String, AllocError> {
    let mut parts = row.split('~');
    let shown = parts.next().unwrap_or("");
    let database = parts.next().unwrap_or("");
    let words = words_of(alloc, parts.next().unwrap_or(""))?;
    let wanted = parts.next().unwrap_or("");
    let mut files = files_of(alloc, database, parts.next())?;
    let mut out = MemorySink::new(alloc, 4096, 1 << 22)?;
    let status = run(alloc, words.as_slice(), &mut files, &mut out).number();
    let text = marked(alloc, out.written())?;
    if wanted.is_empty() {
        return format!(in alloc; "{shown}: {status} {text}");
    }
    let found = parts_in(alloc, text.as_str(), wanted)?;
    format!(in alloc; "{shown}: {status} {found}")
}

fn main(rt: HostRuntime) -> io::Result<()> {
    for row in rt.lines(rt.alloc()) {
        let row = row?;
        let text = answer(rt.alloc(), row.as_str())?;
        println!(rt; "{text}")?;
    }
    Ok(())
}
