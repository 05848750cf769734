ghost use Rattle.std.specs.Prelude.{◌≡◌};
ghost use Rattle.cal_lines.specs.declared.fault.TextFault.TheVariants.{Memory};

use std::alloc::{AllocError, AllocFailed};
use thiserror::Error;

/// Why a text could not be read: the number of the first line at which no text of its format goes on, counted from 1; or
/// want of memory.
#[derive(Debug, Drop, Error)]
pub enum TextFault {
    #[error("line {0} is at fault")]
    Line(u32),
    #[error("out of memory")]
    Memory,
}

impl From<AllocError> for TextFault {
    ghost from_gives = { λ _ e. e ≡ Memory };

    fn from(_e: AllocError) -> TextFault {
        TextFault::Memory
    }
}

impl<T: Drop> From<AllocFailed<T>> for TextFault {
    ghost from_gives = { λ _ e. e ≡ Memory };

    fn from(_e: AllocFailed<T>) -> TextFault {
        TextFault::Memory
    }
}
