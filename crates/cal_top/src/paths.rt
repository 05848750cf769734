//! What a path is asked for, over the bytes of its database.

ghost use Rattle.std.specs.Prelude.{◌≡◌, ◌*◌, ◌≤◌, IfOk, length, map, pos};
ghost use Rattle.cal_limits.specs.declared.TheConstants.{MOST_DATABASE_BYTES, MOST_NANOMOLES, MOST_PARTS};
ghost use Rattle.std.specs.Prelude.{All};
ghost use Rattle.cal_job.specs.Requests.{IsPathRequest};
ghost use Rattle.cal_scheil.specs.Walks.{IsPathJob};
ghost use Rattle.cal_top.specs.Answers.{Begins};
ghost use Rattle.cal_top.specs.Paths as spec;

use crate::answer::{Answer, PathAsked};
use crate::texts::{Opened, database_in};
use cal_job::{PathRequest, Request};
use cal_limits::HIGHEST_TEMPERATURE;
use cal_list::Items;
use cal_log::Logs;
use cal_scheil::PathJob;
use std::alloc::{AllocError, Global};

/// What is asked of each element, in units of 1/N nmol.
fn totals(alloc: Global, amounts: &[u64], lattice: u32) -> Result<Vec<i128>, AllocError>
    requires amounts { All (λ amount. amount ≤ MOST_NANOMOLES) amounts.now }
    requires lattice { lattice ≤ MOST_PARTS }
    ensures { IfOk result (λ totals. totals.items ≡ map (λ amount. pos (amount * lattice)) amounts.now) }
{
    let mut totals = Vec::new(alloc);
    'amounts: for amount in amounts {
        totals.push(i128::from(*amount * u64::from(lattice)))?;
    }
    Ok(totals)
}

/// What is asked of a path.
fn path_job(alloc: Global, path: PathRequest) -> Result<PathJob, AllocError>
    requires { IsPathRequest path }
    ensures value { IfOk result (λ job. job ≡ spec.path_job path) }
    ensures keeps { IfOk result (λ job. IsPathJob job) }
{
    let PathRequest {
        request,
        descent,
        floor,
        stop,
        liquid,
    } = path;
    let Request {
        database: _database,
        job,
        amounts,
        gap,
        budget,
    } = request;
    let asked = totals(alloc, amounts.as_slice(), job.lattice)?;
    Ok(PathJob {
        job,
        asked: Items::from_vec(asked),
        descent,
        floor,
        stop,
        liquid,
        gap,
        budget,
    })
}

/// The path over the database of the bytes, or the refusal of their text.
pub(crate) fn begun(alloc: Global, path: PathRequest, bytes: &[u8]) -> Result<Answer, AllocError>
    requires path { IsPathRequest path }
    requires limit { length bytes.now ≤ MOST_DATABASE_BYTES }
    ensures { IfOk result (λ answer. Begins bytes.now path answer) }
{
    let opened = database_in(alloc, bytes)?;
    match opened {
        Opened::Refused(reply) => Ok(Answer::Reply(reply)),
        Opened::Database(db) => {
            let job = path_job(alloc, path)?;
            let logs = Logs::build(alloc, HIGHEST_TEMPERATURE)?;
            Ok(Answer::Path(PathAsked { db, logs, job }))
        }
    }
}
