ghost use Rattle.std.specs.Prelude.{◌≡◌};
ghost use Rattle.cal_args.specs.declared.fault.WordsFault.TheVariants.{Memory};

use std::alloc::AllocError;
use thiserror::Error;

/// Why words give no command.
#[derive(Debug, Drop, Error)]
pub enum WordsFault {
    /// The words are no command of the program.
    #[error("no command of the program")]
    Usage,
    #[error("out of memory")]
    Memory,
}

impl From<AllocError> for WordsFault {
    ghost from_gives = { λ _ e. e ≡ Memory };

    fn from(_e: AllocError) -> WordsFault {
        WordsFault::Memory
    }
}
