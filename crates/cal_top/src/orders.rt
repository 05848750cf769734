//! The reply to each order: the files that it names, and what their bytes come to.

ghost use Rattle.std.specs.Prelude.{◌≡◌, ◌≤◌, IfOk, length, string_bytes};
ghost use Rattle.cal_limits.specs.declared.TheConstants.{MOST_DATABASE_BYTES};
ghost use Rattle.cal_job.specs.Requests.{IsPathRequest, IsRequest};
ghost use Rattle.cal_job.specs.declared.order.Order.TheVariants as order;
ghost use Rattle.cal_top.specs.Seen.{seen};
ghost use Rattle.cal_top.specs.Answers.{IsPathReply, IsSecond};
ghost use Rattle.cal_top.specs.Replies.{FromOrder};

use crate::answer::Answer;
use crate::documents::{checked, tabled};
use crate::equilibria::over_bytes;
use crate::loaded::{Loaded, load_file};
use crate::paths::begun;
use crate::reply::Reply;
use cal_base::Library;
use cal_job::{CheckRequest, PathRequest, Request, TableRequest};
use cal_limits::{MOST_DATABASE_BYTES, MOST_REPORT_BYTES};
use std::alloc::{AllocError, Global};

/// The reply to a request of an equilibrium.
pub(crate) fn solve<L: Library>(
    alloc: Global,
    files: &mut L,
    asked: &Request,
) -> Result<Reply, AllocError>
    requires { IsRequest asked.now }
    ensures told { L.told files.new ≡ L.told files.old }
    ensures reply { IfOk result (λ reply.
        FromOrder
        (seen (L.told files.old) (L.faults files.old) (L.faults files.new) (L.given files.old) (L.given files.new))
        (order.Equilibrium asked.now) reply.status reply.text.items) }
{
    let found = load_file(alloc, files, asked.database.as_str(), MOST_DATABASE_BYTES)?;
    match found {
        Loaded::Refused(reply) => Ok(reply),
        Loaded::Bytes(bytes) => {
            let reply = over_bytes(alloc, asked, bytes.as_slice())?;
            Ok(reply)
        }
    }
}

/// The path that is asked for, or the refusal of its database.
pub(crate) fn follow<L: Library>(
    alloc: Global,
    files: &mut L,
    asked: PathRequest,
) -> Result<Answer, AllocError>
    requires { IsPathRequest asked }
    ensures told { L.told files.new ≡ L.told files.old }
    ensures reply { IfOk result (λ answer.
        IsPathReply
        (seen (L.told files.old) (L.faults files.old) (L.faults files.new) (L.given files.old) (L.given files.new))
        asked answer) }
{
    let found = load_file(
        alloc,
        files,
        asked.request.database.as_str(),
        MOST_DATABASE_BYTES,
    )?;
    match found {
        Loaded::Refused(reply) => Ok(Answer::Reply(reply)),
        Loaded::Bytes(bytes) => {
            let answer = begun(alloc, asked, bytes.as_slice())?;
            Ok(answer)
        }
    }
}

/// The reply to a check, of whose files the database was read.
fn check_over<L: Library>(
    alloc: Global,
    files: &mut L,
    asked: &CheckRequest,
    database: &[u8],
) -> Result<Reply, AllocError>
    requires { length database.now ≤ MOST_DATABASE_BYTES }
    ensures told { L.told files.new ≡ L.told files.old }
    ensures later { L.faults files.old ≤ L.faults files.new }
    ensures second { IfOk result (λ reply.
        IsSecond
        (seen (L.told files.old) (L.faults files.old) (L.faults files.new) (L.given files.old) (L.given files.new))
        (string_bytes asked.now.report) database.now reply) }
{
    let found = load_file(alloc, files, asked.report.as_str(), MOST_REPORT_BYTES)?;
    match found {
        Loaded::Refused(reply) => Ok(reply),
        Loaded::Bytes(report) => {
            let reply = checked(alloc, database, report.as_slice())?;
            Ok(reply)
        }
    }
}

/// The reply to a check.
pub(crate) fn check<L: Library>(
    alloc: Global,
    files: &mut L,
    asked: &CheckRequest,
) -> Result<Reply, AllocError>
    ensures told { L.told files.new ≡ L.told files.old }
    ensures reply { IfOk result (λ reply.
        FromOrder
        (seen (L.told files.old) (L.faults files.old) (L.faults files.new) (L.given files.old) (L.given files.new))
        (order.Check asked.now) reply.status reply.text.items) }
{
    let found = load_file(alloc, files, asked.database.as_str(), MOST_DATABASE_BYTES)?;
    match found {
        Loaded::Refused(reply) => Ok(reply),
        Loaded::Bytes(database) => {
            let reply = check_over(alloc, files, asked, database.as_slice())?;
            Ok(reply)
        }
    }
}

/// The reply to a table.
pub(crate) fn tabulate<L: Library>(
    alloc: Global,
    files: &mut L,
    asked: &TableRequest,
) -> Result<Reply, AllocError>
    ensures told { L.told files.new ≡ L.told files.old }
    ensures reply { IfOk result (λ reply.
        FromOrder
        (seen (L.told files.old) (L.faults files.old) (L.faults files.new) (L.given files.old) (L.given files.new))
        (order.Table asked.now) reply.status reply.text.items) }
{
    let found = load_file(alloc, files, asked.report.as_str(), MOST_REPORT_BYTES)?;
    match found {
        Loaded::Refused(reply) => Ok(reply),
        Loaded::Bytes(report) => {
            let reply = tabled(alloc, report.as_slice())?;
            Ok(reply)
        }
    }
}
