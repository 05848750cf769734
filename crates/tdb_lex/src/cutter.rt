ghost use Rattle.std.specs.Prelude.{◌≡◌, ◌==◌, ◌++◌, ◌∷◌, [], ◌≤◌, ◌^◌, List, IfOk, map, length};
ghost use Rattle.cal_limits.specs.declared.TheConstants.{MOST_DATABASE_BYTES};
ghost use Rattle.std.specs.List.{slice_split};
ghost use Rattle.tdb_lex.specs.Commands.{Cell, cell, visible, made, or_else, solid_line, cells, cells_of_lines, finished, unfinished, parts};
ghost use Rattle.tdb_lex.specs.Outcome.{outcome, cut_of};

use crate::command::{Command, CommandList};
use crate::line::{clean_byte, is_comment_line};
use cal_list::Items;
use std::alloc::{AllocError, Global};

/// The commands so far, the text behind the last `!`, and the line of its first byte that is no space.
#[derive(Drop)]
struct Cutter {
    list: Items<Command>,
    text: Items<u8>,
    first: Option<u32>,
}

fn with_command(
    list: Items<Command>,
    text: Items<u8>,
    first: Option<u32>,
) -> Result<Items<Command>, AllocError>
    ensures { IfOk result (λ v. v ≡ list ++ made first text) }
{
    match first {
        None => Ok(list),
        Some(line) => {
            let mut list = list;
            list.push(Command { line, text })?;
            Ok(list)
        }
    }
}

fn first_line(first: Option<u32>, line: u32, byte: u8) -> Option<u32>
    ensures { result ≡ or_else first (solid_line (cell line byte)) }
{
    match first {
        Some(line) => Some(line),
        None => {
            if byte == b' ' {
                return None;
            }
            Some(line)
        }
    }
}

fn put(alloc: Global, cutter: Cutter, line: u32, byte: u8) -> Result<Cutter, AllocError>
    ensures { IfOk result (λ s. (rest : List Cell) → outcome s rest ≡ outcome cutter (cell line byte ∷ rest)) }
{
    let Cutter { list, text, first } = cutter;
    if byte == b'!' {
        let list = with_command(list, text, first)?;
        let next = Cutter {
            list,
            text: Items::new(alloc),
            first: None,
        };
        return Ok(next);
    }
    let mut text = text;
    text.push(byte)?;
    let first = first_line(first, line, byte);
    let next = Cutter { list, text, first };
    Ok(next)
}

fn put_all(alloc: Global, cutter: Cutter, line: u32, bytes: &[u8]) -> Result<Cutter, AllocError>
    ensures { IfOk result (λ s. (rest : List Cell) → outcome s rest ≡ outcome cutter (cells line bytes.now ++ rest)) }
{
    let mut now = cutter;
    'bytes: for byte in bytes {
        now = put(alloc, now, line, clean_byte(*byte))?;
    }
    Ok(now)
}

fn put_line(alloc: Global, cutter: Cutter, number: u32, line: &[u8]) -> Result<Cutter, AllocError>
    ensures { IfOk result (λ s. (rest : List Cell) → outcome s rest ≡ outcome cutter (cells number (visible line.now) ++ (cell number 32 ∷ rest))) }
{
    if is_comment_line(line) {
        let next = put(alloc, cutter, number, b' ')?;
        return Ok(next);
    }
    let shown = put_all(alloc, cutter, number, line)?;
    let next = put(alloc, shown, number, b' ')?;
    Ok(next)
}

fn put_lines(alloc: Global, lines: &[&[u8]]) -> Result<Cutter, AllocError>
    requires { length lines.now ≤ 2 ^ 25 }
    ensures { IfOk result (λ s. outcome s [] ≡ cut_of (cells_of_lines 1 (map (λ l. l.now) lines.now))) }
{
    let mut now = Cutter {
        list: Items::new(alloc),
        text: Items::new(alloc),
        first: None,
    };
    'lines: for i in 0..lines.len() {
        now = put_line(alloc, now, i as u32 + 1, lines[i])?;
    }
    Ok(now)
}

fn split_lines(alloc: Global, bytes: &[u8]) -> Result<Vec<&[u8]>, AllocError>
    ensures { IfOk result (λ v. map (λ w. w.now) v.items ≡ slice_split (λ b. b == 10) bytes.now) }
{
    bytes.split(|byte| *byte == b'\n').collect(alloc)
}

/// The commands of a text, and the line of unfinished text behind them.
pub fn commands(alloc: Global, bytes: &[u8]) -> Result<CommandList, AllocError>
    requires { length bytes.now ≤ MOST_DATABASE_BYTES }
    ensures list { IfOk result (λ r. r.list ≡ finished (parts bytes.now)) }
    ensures unfinished { IfOk result (λ r. r.unfinished ≡ unfinished (parts bytes.now)) }
{
    let lines = split_lines(alloc, bytes)?;
    let cutter = put_lines(alloc, lines.as_slice())?;
    let Cutter {
        list,
        text: _,
        first,
    } = cutter;
    let all = CommandList {
        list,
        unfinished: first,
    };
    Ok(all)
}
