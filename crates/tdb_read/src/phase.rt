//! `PHASE name:suffix codes number ratio ratio ..`.

ghost use Rattle.std.specs.Prelude.{◌≡◌, IfOk, length, pos, ◌<ℤ◌, []};
ghost use Rattle.cal_words.specs.declared.rules.Rule.TheVariants as rules;
ghost use Rattle.tdb_forms.specs.Finding.{Finds};
ghost use Rattle.tdb_forms.specs.Numbers.{IsReadable};
ghost use Rattle.tdb_read.specs.Database.{with_phase};
ghost use Rattle.tdb_read.specs.Entering.{Enters, Answers};
ghost use Rattle.tdb_read.specs.Phase.{IsCount, AreRatios, IsPhase};

use crate::db::Db;
use crate::fault::DbFault;
use cal_dec::Dec;
use cal_list::Items;
use cal_scan::{Name, all_digits, capped_value, split_token};
use cal_words::Rule;
use std::alloc::{AllocError, Global};
use tdb_forms::{readable, split_head};

/// A phase as its PHASE command at the line gives it: the suffix of its name, which may be empty, the codes of its type definitions,
/// and the sites for a mole of formula units on each sublattice. `sites` is a list of constituents for each sublattice
/// once a CONSTITUENT command was read, and empty before.
#[derive(Drop)]
pub struct PhaseText {
    pub line: u32,
    pub suffix: Name,
    pub codes: Name,
    pub ratios: Items<Dec>,
    pub sites: Items<Items<Name>>,
}

/// The most sublattices of a phase.
const SUBLATTICES: usize = 10;

/// A whole number from 1 to 10.
fn count(token: &[u8]) -> Option<usize>
    ensures { Finds (IsCount token.now) result }
{
    if !all_digits(token) {
        return None;
    }
    let value = capped_value(token, SUBLATTICES as u128 + 1);
    if value == 0 {
        return None;
    }
    if value > SUBLATTICES as u128 {
        return None;
    }
    Some(value as usize)
}

/// A number above 0.
fn ratio(token: &[u8]) -> Option<Dec>
    ensures { Finds (λ d. IsReadable token.now d × (pos 0 <ℤ d.mantissa)) result }
{
    match readable(token) {
        None => None,
        Some(ratio) => {
            if ratio.mantissa > 0 {
                return Some(ratio);
            }
            None
        }
    }
}

/// The ratios of `n` sublattices, which are the first tokens of a text.
fn ratios(alloc: Global, n: usize, text: &[u8]) -> Result<Option<Items<Dec>>, AllocError>
    ensures { IfOk result (λ o. Finds (λ ds. (length ds ≡ n) × AreRatios text.now ds) o) }
{
    let mut all = Items::new(alloc);
    let mut rest = text;
    'ratios: for _i in 0..n {
        let (token, behind) = split_token(rest);
        match ratio(token) {
            None => return Ok(None),
            Some(ratio) => all.push(ratio)?,
        }
        rest = behind;
    }
    Ok(Some(all))
}

/// The name and the text of the phase.
fn phase(alloc: Global, line: u32, text: &[u8]) -> Result<Option<(Name, PhaseText)>, AllocError>
    ensures { IfOk result (λ o. Finds (IsPhase line text.now) o) }
{
    let (head, rest) = split_token(text);
    let (codes, rest) = split_token(rest);
    let (number, rest) = split_token(rest);
    match split_head(head) {
        None => Ok(None),
        Some((name, suffix)) => match count(number) {
            None => Ok(None),
            Some(count) => {
                let found = ratios(alloc, count, rest)?;
                match found {
                    None => Ok(None),
                    Some(ratios) => {
                        let name = Name::from_bytes(alloc, name)?;
                        let text = unsited(alloc, line, suffix, codes, ratios)?;
                        Ok(Some((name, text)))
                    }
                }
            }
        },
    }
}

/// A phase without constituents.
fn unsited(
    alloc: Global,
    line: u32,
    suffix: &[u8],
    codes: &[u8],
    ratios: Items<Dec>,
) -> Result<PhaseText, AllocError>
    ensures { IfOk result (λ p. p ≡ record { line = line; suffix = suffix.now; codes = codes.now; ratios = ratios; sites = [] }) }
{
    Ok(PhaseText {
        line,
        suffix: Name::from_bytes(alloc, suffix)?,
        codes: Name::from_bytes(alloc, codes)?,
        ratios,
        sites: Items::new(alloc),
    })
}

/// Enters the phase of the command at the line. A repeated phase loses its constituents.
pub(crate) fn enter_phase(alloc: Global, db: Db, line: u32, text: &[u8]) -> Result<Db, DbFault>
    ensures { Answers line (Enters (IsPhase line text.now) (λ p. with_phase db p.0 p.1) rules.Phase) result }
{
    let found = phase(alloc, line, text)?;
    match found {
        None => Err(DbFault::Bad {
            line,
            rule: Rule::Phase,
        }),
        Some((name, text)) => {
            let next = db.enter_phase(name, text)?;
            Ok(next)
        }
    }
}
