//! `FUNCTION name ranged-text`.

ghost use Rattle.std.specs.Prelude.{◌≡◌, IfOk, IfSome};
ghost use Rattle.cal_words.specs.declared.rules.Rule.TheVariants as rules;
ghost use Rattle.tdb_expr.specs.Forms.{IsRanged};
ghost use Rattle.tdb_forms.specs.Finding.{Finds};
ghost use Rattle.tdb_read.specs.Database.{with_function};
ghost use Rattle.tdb_read.specs.Entering.{Enters, Answers};
ghost use Rattle.tdb_read.specs.Function.{IsFunction};

use crate::db::Db;
use crate::fault::DbFault;
use cal_scan::{Name, is_name_word, split_token};
use cal_words::Rule;
use std::alloc::{AllocError, Global};
use tdb_expr::Ranged;
use tdb_forms::read_ranged;

/// The name and the ranged text of the function.
fn function(alloc: Global, line: u32, text: &[u8]) -> Result<Option<(Name, Ranged)>, AllocError>
    ensures value { IfOk result (λ o. Finds (IsFunction line text.now) o) }
    ensures form { IfOk result (λ o. IfSome o (λ f. IsRanged f.1)) }
{
    let (token, rest) = split_token(text);
    if !is_name_word(token) {
        return Ok(None);
    }
    let found = read_ranged(alloc, line, rest)?;
    match found {
        None => Ok(None),
        Some(ranged) => {
            let name = Name::from_bytes(alloc, token)?;
            Ok(Some((name, ranged)))
        }
    }
}

/// Enters the function of the command at the line.
pub(crate) fn enter_function(alloc: Global, db: Db, line: u32, text: &[u8]) -> Result<Db, DbFault>
    ensures { Answers line (Enters (IsFunction line text.now) (λ f. with_function db f.0 f.1) rules.Function) result }
{
    let found = function(alloc, line, text)?;
    match found {
        None => Err(DbFault::Bad {
            line,
            rule: Rule::Function,
        }),
        Some((name, ranged)) => {
            let next = db.enter_function(name, ranged)?;
            Ok(next)
        }
    }
}
