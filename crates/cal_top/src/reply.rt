ghost use Rattle.std.specs.Prelude.{◌≡◌, [], IfOk};

use cal_base::Status;
use std::alloc::{AllocError, Global};

/// What a run writes, and the status that it then ends with.
#[derive(Drop)]
pub(crate) struct Reply {
    pub(crate) status: Status,
    pub(crate) text: Vec<u8>,
}

impl Reply {
    /// Nothing is written any more.
    pub(crate) fn out_of_memory(alloc: Global) -> Reply
        ensures status { result.status ≡ Status.Memory }
        ensures text { result.text.items ≡ [] }
    {
        Reply {
            status: Status::Memory,
            text: Vec::new(alloc),
        }
    }

    /// A refusal with its line.
    pub(crate) fn refusal(alloc: Global, status: Status, line: &[u8]) -> Result<Reply, AllocError>
        ensures status { IfOk result (λ reply. reply.status ≡ status) }
        ensures text { IfOk result (λ reply. reply.text.items ≡ line.now) }
    {
        let text = Vec::from_slice(alloc, line)?;
        Ok(Reply { status, text })
    }
}
