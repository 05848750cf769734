//! The database or the document of which bytes are the text, or the refusal of the text.

ghost use Rattle.std.specs.Prelude.{◌≤◌, IfOk, length};
ghost use Rattle.cal_limits.specs.declared.TheConstants.{MOST_DATABASE_BYTES, MOST_REPORT_BYTES};
ghost use Rattle.cal_top.specs.Opening.{IsOpened, IsRead};

use crate::reply::Reply;
use cal_base::Status;
use cal_lines::TextFault;
use cal_refusal::{database, report};
use eq_cert::CheckRule;
use path_text::{Document, read_document};
use std::alloc::{AllocError, Global};
use tdb_read::{Db, DbFault, read};

/// What the bytes of a database come to.
#[derive(Drop)]
pub(crate) enum Opened {
    Database(Db),
    /// The text has a fault.
    Refused(Reply),
}

/// What the bytes of a document come to.
#[derive(Drop)]
pub(crate) enum ReadText {
    Document(Document),
    /// They are the text of none.
    Refused(Reply),
}

/// The database of the bytes.
pub(crate) fn database_in(alloc: Global, bytes: &[u8]) -> Result<Opened, AllocError>
    requires { length bytes.now ≤ MOST_DATABASE_BYTES }
    ensures { IfOk result (λ opened. IsOpened bytes.now opened) }
{
    let found = read(alloc, bytes);
    match found {
        Ok(db) => Ok(Opened::Database(db)),
        Err(DbFault::Bad { line, rule }) => {
            let text = database(alloc, line, rule)?;
            Ok(Opened::Refused(Reply {
                status: Status::BadDatabase,
                text,
            }))
        }
        Err(DbFault::Memory) => Err(AllocError),
    }
}

/// The document of the bytes.
pub(crate) fn document_in(alloc: Global, bytes: &[u8]) -> Result<ReadText, AllocError>
    requires { length bytes.now ≤ MOST_REPORT_BYTES }
    ensures { IfOk result (λ text. IsRead bytes.now text) }
{
    let found = read_document(alloc, bytes);
    match found {
        Ok(document) => Ok(ReadText::Document(document)),
        Err(TextFault::Line(line)) => {
            let text = report(alloc, line, CheckRule::Text)?;
            Ok(ReadText::Refused(Reply {
                status: Status::Rejected,
                text,
            }))
        }
        Err(TextFault::Memory) => Err(AllocError),
    }
}
