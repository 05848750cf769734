//! The bytes of a file, or its refusal.

ghost use Rattle.std.specs.Prelude.{◌≡◌, ◌≤◌, IfOk, string_bytes};
ghost use Rattle.cal_limits.specs.declared.TheConstants.{MOST_REPORT_BYTES};
ghost use Rattle.cal_top.specs.Seen.{seen};
ghost use Rattle.cal_top.specs.Loading.{IsLoaded};

use crate::reply::Reply;
use cal_base::{Library, LoadFault, Status, load};
use cal_refusal::{LONG, READ};
use std::alloc::{AllocError, Global};

/// What loading a file comes to.
#[derive(Drop)]
pub(crate) enum Loaded {
    Bytes(Vec<u8>),
    /// It could not be read, or is too long.
    Refused(Reply),
}

/// The bytes of a file, of which there may be so many.
pub(crate) fn load_file<L: Library>(
    alloc: Global,
    files: &mut L,
    name: &str,
    limit: u64,
) -> Result<Loaded, AllocError>
    requires { limit ≤ MOST_REPORT_BYTES }
    ensures told { L.told files.new ≡ L.told files.old }
    ensures later { L.faults files.old ≤ L.faults files.new }
    ensures loaded { IfOk result (λ loaded.
        IsLoaded
        (seen (L.told files.old) (L.faults files.old) (L.faults files.new) (L.given files.old) (L.given files.new))
        (record { name = name.now; limit = limit }) loaded) }
{
    let found = load(alloc, files, name, limit);
    match found {
        Err(LoadFault::Failed) => {
            let reply = Reply::refusal(alloc, Status::ReadFault, READ)?;
            Ok(Loaded::Refused(reply))
        }
        Err(LoadFault::TooLong) => {
            let reply = Reply::refusal(alloc, Status::TooLong, LONG)?;
            Ok(Loaded::Refused(reply))
        }
        Err(LoadFault::Memory) => Err(AllocError),
        Ok(bytes) => Ok(Loaded::Bytes(bytes)),
    }
}
