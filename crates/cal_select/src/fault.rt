ghost use Rattle.std.specs.Prelude.{◌≡◌};
ghost use Rattle.cal_select.specs.declared.fault.SystemFault.TheVariants.{Memory};

use cef_core::Name;
use std::alloc::AllocError;
use thiserror::Error;

/// Why there is no system. A number is the line of a command of the database.
#[derive(Debug, Drop, Error)]
pub enum SystemFault {
    /// The asked name is that of no element, or of the vacancy or the electron.
    #[error("an asked element is not in the database")]
    UnknownElement(Name),
    #[error("a listed phase is not in the database")]
    UnknownPhase(Name),
    #[error("no phase qualifies for the asked elements")]
    NoPhase,
    #[error("the phase at line {0} is an ionic liquid")]
    Ionic(u32),
    /// A ratio has more than 5 decimals, or the whole ratios add to more than 100000.
    #[error("the ratios of the phase at line {0} are too wide")]
    RatiosTooWide(u32),
    #[error("a name at line {0} is no function")]
    Missing(u32),
    #[error("a function named at line {0} names itself in the end")]
    Cycle(u32),
    #[error("the command at line {0} has a form that is not supported")]
    Unsupported(u32),
    #[error("a product or sum at line {0} is too large")]
    TooLarge(u32),
    #[error("the energies of a phase are too large")]
    EnergyTooLarge(Name),
    #[error("the phases have too many lists of counts")]
    LatticeTooLarge,
    #[error("the contents are too fine")]
    TooFine,
    #[error("out of memory")]
    Memory,
}

impl From<AllocError> for SystemFault {
    ghost from_gives = { λ _ e. e ≡ Memory };

    fn from(_e: AllocError) -> SystemFault {
        SystemFault::Memory
    }
}
