ghost use Rattle.std.specs.Prelude.{◌≡◌};
ghost use Rattle.cal_base.specs.declared.fault.LoadFault.TheVariants as load_fault;

use std::alloc::AllocError;
use thiserror::Error;

/// A call of the outside failed.
#[derive(Clone, Copy, Debug, PartialEq, Eq, Error)]
#[error("the outside failed")]
pub struct Failed;

/// Why a file was not loaded.
#[derive(Clone, Copy, Debug, PartialEq, Eq, Error)]
pub enum LoadFault {
    /// Reading failed, or there is no such file.
    #[error("reading failed")]
    Failed,
    /// The file is longer than its limit.
    #[error("the file is too long")]
    TooLong,
    /// There was no memory for the file.
    #[error("out of memory")]
    Memory,
}

impl From<Failed> for LoadFault {
    ghost from_gives = { λ _ e. e ≡ load_fault.Failed };

    fn from(_fault: Failed) -> LoadFault {
        LoadFault::Failed
    }
}

impl From<AllocError> for LoadFault {
    ghost from_gives = { λ _ e. e ≡ load_fault.Memory };

    fn from(_fault: AllocError) -> LoadFault {
        LoadFault::Memory
    }
}
