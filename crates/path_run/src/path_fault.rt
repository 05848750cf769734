ghost use Rattle.std.specs.Prelude.{◌≡◌};
ghost use Rattle.path_run.specs.declared.path_fault.PathFault.TheVariants as path_fault;

use cal_scheil::StepFault;
use std::alloc::AllocError;

/// Why the printing of a path ended early.
#[derive(Drop)]
pub(crate) enum PathFault {
    /// There is no next step.
    Stopped(StepFault),
    /// A write failed.
    Write,
    /// There was no memory.
    Memory,
}

impl From<AllocError> for PathFault {
    ghost from_gives = { λ _ e. e ≡ path_fault.Memory };

    fn from(_e: AllocError) -> PathFault {
        PathFault::Memory
    }
}
