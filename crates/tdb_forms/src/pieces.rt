//! Ranged texts: expressions with the limits of the temperatures at which they hold.

ghost use Rattle.std.specs.Prelude.{◌≡◌, ◌<◌, ◌≤◌, IfOk, IfSome, IfNone, length, pos, List, ℕ};
ghost use Rattle.std.specs.List.{prefix_len};
ghost use Rattle.cal_dec.specs.Decimals.{decimal_of, whole_number};
ghost use Rattle.cal_dec.specs.declared.dec.Dec.{Dec as Number};
ghost use Rattle.tdb_expr.specs.declared.ranged.Piece.{Piece as PieceOf};
ghost use Rattle.tdb_expr.specs.Forms.{IsPiece as IsFinePiece, IsRanged};
ghost use Rattle.tdb_forms.specs.Finding.{Finds};
ghost use Rattle.tdb_forms.specs.Ranges.{is_separator, behind_separators as text_behind_separators, IsHigh, IsPiece, ArePieces, IsRangedText};
ghost use Rattle.tdb_forms.specs.Following.{GoesOn, EachIsFine};

use crate::number::number_at;
use cal_dec::{Dec, longest_number};
use cal_list::Items;
use cal_scan::{behind_spaces, cut_at};
use std::alloc::{AllocError, Global};
use tdb_expr::{Piece, Ranged, read_expr};

fn separator_count(text: &[u8]) -> usize
    ensures value { result ≡ prefix_len is_separator text.now }
    ensures bound { result ≤ length text.now }
{
    text.iter()
        .take_while(|byte| **byte == b' ' || **byte == b',')
        .count()
}

/// What stands behind all spaces and commas at the front of a text.
#[tactic(auto, unfolding(crate::specs::Ranges::behind_separators))]
fn behind_separators(text: &[u8]) -> &[u8]
    ensures { result.now ≡ text_behind_separators text.now }
{
    let (_, rest) = text.split_at(separator_count(text));
    rest
}

/// The limit of 6000 K, where none is written.
fn highest() -> Dec
    ensures value { decimal_of result ≡ whole_number (pos 6000) }
{
    Dec {
        mantissa: 6000,
        exponent: 0,
    }
}

/// The high limit at the front of a text, and what stands behind it.
fn high_limit(text: &[u8]) -> Option<(Dec, &[u8])>
    ensures found { IfSome result (λ r. IsHigh text.now r.0 r.1.now) }
    ensures none { IfNone result ((high : Number) (rest : List ℕ) → IsHigh text.now high rest → ⊥) }
{
    match longest_number(text) {
        None => Some((highest(), text)),
        Some(_) => number_at(text),
    }
}

/// One expression with its high limit, and what stands behind them.
fn piece<'a>(alloc: Global, text: &'a [u8]) -> Result<Option<(Piece, &'a [u8])>, AllocError>
    ensures found { IfOk result (λ o. IfSome o (λ r. IsPiece text.now r.0 r.1.now)) }
    ensures none { IfOk result (λ o. IfNone o ((piece : PieceOf) (rest : List ℕ) → IsPiece text.now piece rest → ⊥)) }
    ensures fine { IfOk result (λ o. IfSome o (λ r. IsFinePiece r.0)) }
    ensures shorter { IfOk result (λ o. IfSome o (λ r. length r.1.now < length text.now)) }
{
    match cut_at(text, b';') {
        None => Ok(None),
        Some((expression, limit)) => match high_limit(behind_separators(limit)) {
            None => Ok(None),
            Some((high, after)) => {
                let expr = read_expr(alloc, expression)?;
                Ok(Some((Piece { high, expr }, behind_separators(after))))
            }
        },
    }
}

/// How a ranged text goes on behind a piece.
enum Behind<'a> {
    /// It ends.
    End,
    /// The next piece stands there.
    Next(&'a [u8]),
    Other,
}

fn behind_piece(text: &[u8]) -> Behind<'_>
    ensures { GoesOn text.now result }
{
    match text.split_first() {
        None => Behind::End,
        Some((b'N', _)) => Behind::End,
        Some((b'Y', rest)) => Behind::Next(rest),
        Some(_) => Behind::Other,
    }
}

/// The pieces of a ranged text, up to `N` or the end of the text.
fn pieces(alloc: Global, text: &[u8]) -> Result<Option<Items<Piece>>, AllocError>
    ensures value { IfOk result (λ o. Finds (ArePieces text.now) o) }
    ensures fine { IfOk result (λ o. IfSome o (λ pieces. EachIsFine pieces)) }
{
    let mut all = Items::new(alloc);
    let mut rest = text;
    'pieces: loop {
        let found = piece(alloc, rest)?;
        match found {
            None => return Ok(None),
            Some((piece, behind)) => {
                all.push(piece)?;
                match behind_piece(behind) {
                    Behind::End => return Ok(Some(all)),
                    Behind::Next(next) => rest = next,
                    Behind::Other => return Ok(None),
                }
            }
        }
    }
}

/// The ranged text of a command at a line.
pub fn read_ranged(alloc: Global, line: u32, text: &[u8]) -> Result<Option<Ranged>, AllocError>
    ensures value { IfOk result (λ o. Finds (IsRangedText line text.now) o) }
    ensures fine { IfOk result (λ o. IfSome o IsRanged) }
{
    match number_at(behind_spaces(text)) {
        None => Ok(None),
        Some((_, behind)) => {
            let found = pieces(alloc, behind)?;
            match found {
                None => Ok(None),
                Some(pieces) => Ok(Some(Ranged { line, pieces })),
            }
        }
    }
}
