ghost use Rattle.std.specs.Prelude.{◌≡◌};
ghost use Rattle.temp_fun.specs.declared.fault.EvalFault.TheVariants.{Memory};

use std::alloc::AllocError;
use thiserror::Error;

/// Why an expression has no value. The line is that of the command that holds the expression at which
/// the reading stops.
#[derive(Debug, Drop, PartialEq, Eq, Error)]
pub enum EvalFault {
    #[error("a name at line {0} is no function")]
    Missing(u32),
    #[error("a function named at line {0} names itself in the end")]
    Cycle(u32),
    #[error("the expression at line {0} is not supported")]
    Unsupported(u32),
    #[error("a product or sum at line {0} is too large")]
    TooLarge(u32),
    #[error("out of memory")]
    Memory,
}

impl From<AllocError> for EvalFault {
    ghost from_gives = { λ _ e. e ≡ Memory };

    fn from(_e: AllocError) -> EvalFault {
        EvalFault::Memory
    }
}
