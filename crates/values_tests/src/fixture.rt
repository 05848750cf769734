ghost use Rattle.std.specs.Prelude.{◌≡◌, ◌<◌, length, IfOk};
ghost use Rattle.tdb_expr.specs.Forms.{IsPiece, IsRanged};
ghost use Rattle.temp_fun.specs.Functions.{AreFunctions};

use cal_dec::Dec;
use cal_list::Items;
use cal_scan::Name;
use indexmap::IndexMap;
use std::alloc::{AllocError, Global};
use tdb_expr::{Piece, Ranged, read_expr};

/// The line of the ranged texts whose values are asked.
pub const ROOT: u32 = 1000000;

fn piece(alloc: Global, high: u32, text: &[u8]) -> Result<Piece, AllocError>
    ensures { IfOk result IsPiece }
{
    let expr = read_expr(alloc, text)?;
    Ok(Piece {
        high: Dec {
            mantissa: high as i64,
            exponent: -2,
        },
        expr,
    })
}

/// Pieces, each with its high limit in hundredths of a kelvin.
pub fn ranged(alloc: Global, line: u32, texts: &[(u32, &[u8])]) -> Result<Ranged, AllocError>
    requires { 0 < length texts.now }
    ensures { IfOk result IsRanged }
{
    let mut pieces = Items::new(alloc);
    'pieces: for k in 0..texts.len() {
        let (high, text) = texts[k];
        let piece = piece(alloc, high, text)?;
        pieces.push(piece)?;
    }
    Ok(Ranged { line, pieces })
}

/// No functions.
pub fn nothing(alloc: Global) -> IndexMap<Name, Ranged>
    ensures { AreFunctions result.entries }
{
    IndexMap::new(alloc)
}

/// The functions and one more.
pub fn with(
    alloc: Global,
    mut functions: IndexMap<Name, Ranged>,
    name: &[u8],
    ranged: Ranged,
) -> Result<IndexMap<Name, Ranged>, AllocError>
    requires functions { AreFunctions functions.entries }
    requires ranged { IsRanged ranged }
    ensures { IfOk result (λ all. AreFunctions all.entries) }
{
    let name = Name::from_bytes(alloc, name)?;
    functions.insert(name, ranged)?;
    Ok(functions)
}

/// The functions of these texts, the first at line 1. Each holds at all temperatures.
pub fn functions(
    alloc: Global,
    texts: &[(&[u8], &[u8])],
) -> Result<IndexMap<Name, Ranged>, AllocError>
    ensures { IfOk result (λ all. AreFunctions all.entries) }
{
    let mut all = nothing(alloc);
    let mut line = 0u32;
    'texts: for k in 0..texts.len() {
        line = line.saturating_add(1);
        let (name, text) = texts[k];
        let ranged = ranged(alloc, line, &[(600000, text)])?;
        all = with(alloc, all, name, ranged)?;
    }
    Ok(all)
}
