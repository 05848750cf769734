use crate::reply::Reply;
use cal_log::Logs;
use cal_scheil::PathJob;
use tdb_read::Db;

/// A path that is to be followed over a database.
#[derive(Drop)]
pub(crate) struct PathAsked {
    pub(crate) db: Db,
    pub(crate) logs: Logs,
    pub(crate) job: PathJob,
}

/// What the words of a run come to.
#[derive(Drop)]
pub(crate) enum Answer {
    Reply(Reply),
    Path(PathAsked),
}
