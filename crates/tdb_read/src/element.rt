//! `ELEMENT name`.

ghost use Rattle.std.specs.Prelude.{◌≡◌, IfOk};
ghost use Rattle.cal_words.specs.declared.rules.Rule.TheVariants as rules;
ghost use Rattle.tdb_forms.specs.Finding.{Finds};
ghost use Rattle.tdb_read.specs.Database.{with_element};
ghost use Rattle.tdb_read.specs.Entering.{Enters, Answers};
ghost use Rattle.tdb_read.specs.Element.{IsElement};

use crate::db::Db;
use crate::fault::DbFault;
use cal_scan::{Name, is_element_name, split_token};
use cal_words::Rule;
use std::alloc::{AllocError, Global};

/// The name of the element.
fn element(alloc: Global, text: &[u8]) -> Result<Option<Name>, AllocError>
    ensures { IfOk result (λ o. Finds (IsElement text.now) o) }
{
    let (token, _) = split_token(text);
    if !is_element_name(token) {
        return Ok(None);
    }
    let name = Name::from_bytes(alloc, token)?;
    Ok(Some(name))
}

/// Enters the element of the command at the line.
pub(crate) fn enter_element(alloc: Global, db: Db, line: u32, text: &[u8]) -> Result<Db, DbFault>
    ensures { Answers line (Enters (IsElement text.now) (λ name. with_element db name line) rules.Element) result }
{
    let found = element(alloc, text)?;
    match found {
        None => Err(DbFault::Bad {
            line,
            rule: Rule::Element,
        }),
        Some(name) => {
            let next = db.enter_element(name, line)?;
            Ok(next)
        }
    }
}
