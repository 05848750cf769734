//! Reads a text a line and prints the parts of the expression that it is, or `none` where it is none of the grammar.
#![tactic(auto)]

mod rendering;

use rendering::rendered;
use std::io::{self, BufRead, BufReader, BufWriter, Write};
use tdb_expr::read_expr;

fn main(rt: HostRuntime) -> io::Result<()> {
    let mut out = BufWriter::new(rt.alloc(), io::writer(&rt))?;
    for line in BufReader::new(rt.alloc(), rt.reader())?.lines(rt.alloc()) {
        let line = line?;
        let expr = read_expr(rt.alloc(), line.as_bytes())?;
        let mut parts = rendered(rt.alloc(), &expr)?;
        parts.push(b'\n')?;
        out.write_all(parts.as_slice())?;
    }
    out.flush()
}
