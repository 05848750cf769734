ghost use Rattle.std.specs.Prelude.{◌≡◌};
ghost use Rattle.tdb_read.specs.declared.fault.DbFault.TheVariants.{Memory};

use cal_words::Rule;
use std::alloc::AllocError;
use thiserror::Error;

/// Why a text gives no database.
#[derive(Debug, Drop, PartialEq, Eq, Error)]
pub enum DbFault {
    /// The first fault of the text: its line, and the rule that is broken there.
    #[error("the database has a fault at line {line}")]
    Bad { line: u32, rule: Rule },
    #[error("out of memory")]
    Memory,
}

impl From<AllocError> for DbFault {
    ghost from_gives = { λ _ e. e ≡ Memory };

    fn from(_e: AllocError) -> DbFault {
        DbFault::Memory
    }
}
