ghost use Rattle.std.specs.Prelude.{◌≡◌};
ghost use Rattle.lp_core.specs.declared.fault.LpFault.TheVariants.{Memory};

use std::alloc::AllocError;
use thiserror::Error;

/// Why there is no plan.
#[derive(Debug, Drop, Error)]
pub enum LpFault {
    /// No weights of at least 0 give the target: these numbers are at most 0 at every column and above 0 at the target.
    #[error("no weights of at least 0 give the target")]
    Infeasible(Vec<i128>),
    #[error("out of memory")]
    Memory,
}

impl From<AllocError> for LpFault {
    ghost from_gives = { λ _ e. e ≡ Memory };

    fn from(_e: AllocError) -> LpFault {
        LpFault::Memory
    }
}
