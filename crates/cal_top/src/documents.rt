//! The replies to a document: what is judged of it over a database, and its table.

ghost use Rattle.std.specs.Prelude.{◌≤◌, IfOk, length};
ghost use Rattle.cal_limits.specs.declared.TheConstants.{MOST_DATABASE_BYTES, MOST_REPORT_BYTES};
ghost use Rattle.temp_fun.specs.Functions.{AreFunctions};
ghost use Rattle.path_text.specs.Documents.{document_text, IsSpelledDocument};
ghost use Rattle.cal_top.specs.Texts.{OverDatabase, OverDocument};
ghost use Rattle.cal_top.specs.Documents.{Checked, Tabled};

use crate::equilibria::refused;
use crate::reply::Reply;
use crate::texts::{Opened, ReadText, database_in, document_in};
use cal_base::Status;
use cal_check::{DocumentFault, check_document};
use cal_limits::HIGHEST_TEMPERATURE;
use cal_log::Logs;
use cal_refusal::{accepted, report};
use cal_table::table;
use path_text::Document;
use std::alloc::{AllocError, Global};
use tdb_read::Db;

/// What is judged of a document over a database.
fn judged(alloc: Global, db: &Db, document: &Document) -> Result<Reply, AllocError>
    requires functions { AreFunctions db.now.functions }
    requires spelled { IsSpelledDocument document.now }
    requires short { length (document_text document.now) ≤ MOST_REPORT_BYTES }
    ensures { IfOk result (λ reply. Checked db.now document.now reply.status reply.text.items) }
{
    let logs = Logs::build(alloc, HIGHEST_TEMPERATURE)?;
    let found = check_document(alloc, db, &logs, document);
    match found {
        Ok(count) => {
            let text = accepted(alloc, count)?;
            Ok(Reply {
                status: Status::Done,
                text,
            })
        }
        Err(DocumentFault::Broken { rule, line }) => {
            let text = report(alloc, line, rule)?;
            Ok(Reply {
                status: Status::Rejected,
                text,
            })
        }
        Err(DocumentFault::System(fault)) => {
            let reply = refused(alloc, &fault)?;
            Ok(reply)
        }
        Err(DocumentFault::Memory) => Err(AllocError),
    }
}

/// What is judged of the document of bytes.
fn over_report(alloc: Global, db: &Db, report: &[u8]) -> Result<Reply, AllocError>
    requires functions { AreFunctions db.now.functions }
    requires limit { length report.now ≤ MOST_REPORT_BYTES }
    ensures { IfOk result (λ reply. OverDocument report.now (Checked db.now) reply.status reply.text.items) }
{
    let text = document_in(alloc, report)?;
    match text {
        ReadText::Refused(reply) => Ok(reply),
        ReadText::Document(document) => {
            let reply = judged(alloc, db, &document)?;
            Ok(reply)
        }
    }
}

/// The reply of `check` over the bytes of a database and of a document.
pub(crate) fn checked(alloc: Global, database: &[u8], report: &[u8]) -> Result<Reply, AllocError>
    requires database { length database.now ≤ MOST_DATABASE_BYTES }
    requires report { length report.now ≤ MOST_REPORT_BYTES }
    ensures { IfOk result (λ reply.
        OverDatabase database.now (λ db. OverDocument report.now (Checked db)) reply.status reply.text.items) }
{
    let opened = database_in(alloc, database)?;
    match opened {
        Opened::Refused(reply) => Ok(reply),
        Opened::Database(db) => {
            let reply = over_report(alloc, &db, report)?;
            Ok(reply)
        }
    }
}

/// The reply of `table` over the bytes of a document.
pub(crate) fn tabled(alloc: Global, report: &[u8]) -> Result<Reply, AllocError>
    requires { length report.now ≤ MOST_REPORT_BYTES }
    ensures { IfOk result (λ reply. OverDocument report.now Tabled reply.status reply.text.items) }
{
    let text = document_in(alloc, report)?;
    match text {
        ReadText::Refused(reply) => Ok(reply),
        ReadText::Document(document) => {
            let text = table(alloc, &document)?;
            Ok(Reply {
                status: Status::Done,
                text,
            })
        }
    }
}
