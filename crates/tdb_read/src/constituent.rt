//! `CONSTITUENT name :list:list:`.

ghost use Rattle.std.specs.Prelude.{◌≡◌, IfOk, Some};
ghost use Rattle.cal_words.specs.declared.rules.Rule.TheVariants as rules;
ghost use Rattle.tdb_read.specs.Database.{with_phase};
ghost use Rattle.tdb_read.specs.Entering.{Enters, Answers};
ghost use Rattle.tdb_read.specs.Constituent.{before_mark as text_before_mark, read_part as part_read, is_direct as direct, sited_phase, constituent_of, Sites};

use crate::db::Db;
use crate::fault::DbFault;
use cal_list::Items;
use cal_scan::{Name, before, cut_at, without_spaces};
use cal_words::Rule;
use std::alloc::{AllocError, Global};
use tdb_forms::read_sites;

/// What stands before the first such byte, or the whole text.
fn before_mark(text: &[u8], mark: u8) -> &[u8]
    ensures { result.now ≡ text_before_mark mark text.now }
{
    match cut_at(text, mark) {
        None => text,
        Some((front, _)) => front,
    }
}

/// The text before the first `>`.
#[tactic(auto, unfolding(crate::specs::Constituent::read_part))]
fn read_part(text: &[u8]) -> &[u8]
    ensures { result.now ≡ part_read text.now }
{
    before_mark(text, b'>')
}

/// Whether the first `:` stands directly behind the name.
#[tactic(auto, unfolding(crate::specs::Constituent::is_direct))]
fn is_direct(text: &[u8]) -> bool
    ensures { result ≡ direct text.now }
{
    !before(before_mark(text, b':'), b" ").is_some()
}

/// The constituents of the phase of the name.
fn sites(
    alloc: Global,
    db: &Db,
    direct: bool,
    name: &[u8],
    lists: &[u8],
) -> Result<Option<(Name, Items<Items<Name>>)>, AllocError>
    ensures { IfOk result (λ o. Sites db.now (sited_phase db.now direct name.now lists.now) o) }
{
    let name = Name::from_bytes(alloc, name)?;
    match db.phase(&name) {
        None => Ok(None),
        Some(text) => {
            let found = read_sites(alloc, text.ratios.len(), direct, lists)?;
            match found {
                None => Ok(None),
                Some(sites) => Ok(Some((name, sites))),
            }
        }
    }
}

/// The phase, and its constituents.
#[tactic(auto, unfolding(crate::specs::Constituent::constituent_of))]
fn constituent(
    alloc: Global,
    db: &Db,
    text: &[u8],
) -> Result<Option<(Name, Items<Items<Name>>)>, AllocError>
    ensures { IfOk result (λ o. Sites db.now (constituent_of db.now text.now) o) }
{
    let read = read_part(text);
    let solid = without_spaces(alloc, read)?;
    match cut_at(solid.as_slice(), b':') {
        None => Ok(None),
        Some((name, lists)) => {
            let found = sites(alloc, db, is_direct(read), name, lists)?;
            Ok(found)
        }
    }
}

/// Enters the constituents of the command at the line.
pub(crate) fn enter_constituent(
    alloc: Global,
    db: Db,
    line: u32,
    text: &[u8],
) -> Result<Db, DbFault>
    ensures { Answers line (Enters (λ p. constituent_of db text.now ≡ Some p) (λ p. with_phase db p.0 p.1) rules.Constituent) result }
{
    let found = constituent(alloc, &db, text)?;
    match found {
        None => Err(DbFault::Bad {
            line,
            rule: Rule::Constituent,
        }),
        Some((name, sites)) => Ok(db.enter_sites(name, sites)),
    }
}
