//! A path of one element whose liquid becomes solid in the third step, and documents that are made of its parts.

use cal_lines::TextFault;
use cal_scan::LINE_FEED;
use path_text::read_document;
use std::alloc::{AllocError, Global};

pub(crate) const HEAD: &[u8] = b"path 1
liquid LIQUID
descent 100
floor 99000
stop 0
";

pub(crate) const FIRST: &[u8] = b"step 1
equilibrium 1
temperature 100150
lattice 10
elements A
phases LIQUID SOLID
asked 10000000000
entries 1
entry LIQUID 1000000000 10
total 10000000000
energy -1500000000000000
tolerance 0
gap 99999999847413
potentials -10485759999
tree LIQUID
L 0
tree SOLID
L 0
end
left 10000000000
";

pub(crate) const SECOND: &[u8] = b"step 2
equilibrium 1
temperature 100050
lattice 10
elements A
phases LIQUID SOLID
asked 10000000000
entries 1
entry LIQUID 1000000000 10
total 10000000000
energy -500000000000000
tolerance 0
gap 99999999847413
potentials -3932159999
tree LIQUID
L 0
tree SOLID
L 0
end
left 10000000000
";

pub(crate) const THIRD: &[u8] = b"step 3
equilibrium 1
temperature 99950
lattice 10
elements A
phases LIQUID SOLID
asked 10000000000
entries 1
entry SOLID 1000000000 10
total 10000000000
energy 0
tolerance 0
gap 99999999847413
potentials -655359999
tree LIQUID
L 0
tree SOLID
L 0
end
left 0
";

pub(crate) const ENDING: &[u8] = b"finish no-liquid
solids 10000000000
remains 0
lost 0
";

pub(crate) const PAIR: &[u8] = b"equilibrium 1
temperature 100000
lattice 100
elements A B
phases A2B AB_2
asked 100000000000 100000000000
entries 3
entry A2B 7 100 : 100
entry AB_2 8 30 70 : 100
entry AB_2 1125899906842624 31 69 : 0
total 100000000000 100000000000
energy 0
tolerance 0
gap 0
potentials 0 0
tree A2B
L 0 0
tree AB_2
L 0 0
end
";

/// The number of lines of the whole path.
pub(crate) const LINES: usize = 69;

/// The whole path.
pub(crate) fn whole(alloc: Global) -> Result<Vec<u8>, AllocError> {
    let mut text = Vec::from_slice(alloc, HEAD)?;
    text.extend_from_slice(FIRST)?;
    text.extend_from_slice(SECOND)?;
    text.extend_from_slice(THIRD)?;
    text.extend_from_slice(ENDING)?;
    Ok(text)
}

fn put_line(out: &mut Vec<u8>, line: &[u8]) -> Result<(), AllocError> {
    out.extend_from_slice(line)?;
    out.push(LINE_FEED)?;
    Ok(())
}

/// The text with another text in place of one of its lines, which are counted from 1.
pub(crate) fn with_line(
    alloc: Global,
    text: &[u8],
    line: usize,
    instead: &[u8],
) -> Result<Vec<u8>, AllocError> {
    let mut out = Vec::new(alloc);
    for (place, found) in text.split(|byte| *byte == LINE_FEED).enumerate() {
        if place == line.saturating_sub(1) {
            put_line(&mut out, instead)?;
        } else if !found.is_empty() {
            put_line(&mut out, found)?;
        }
    }
    Ok(out)
}

/// The first lines of the text.
pub(crate) fn first_lines(alloc: Global, text: &[u8], count: usize) -> Result<Vec<u8>, AllocError> {
    let mut out = Vec::new(alloc);
    for (place, found) in text.split(|byte| *byte == LINE_FEED).enumerate() {
        if place < count {
            put_line(&mut out, found)?;
        }
    }
    Ok(out)
}

/// The path with its first step so many times.
pub(crate) fn with_steps(alloc: Global, count: usize) -> Result<Vec<u8>, AllocError> {
    let mut out = Vec::from_slice(alloc, HEAD)?;
    for _ in 0..count {
        out.extend_from_slice(FIRST)?;
    }
    out.extend_from_slice(ENDING)?;
    Ok(out)
}

/// The longest text that the tests read.
pub(crate) const MOST: usize = 10_000_000;

/// The line of the fault of a document, or 0.
pub(crate) fn fault_line(alloc: Global, text: &[u8]) -> Result<u32, AllocError> {
    if text.len() > MOST {
        return Ok(u32::MAX);
    }
    match read_document(alloc, text) {
        Ok(_) => Ok(0),
        Err(TextFault::Line(line)) => Ok(line),
        Err(TextFault::Memory) => Err(AllocError),
    }
}
