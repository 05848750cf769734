ghost use Rattle.std.specs.Prelude.{◌≡◌};
ghost use Rattle.cal_check.specs.declared.fault.DocumentFault.TheVariants.{Memory};

use cal_select::SystemFault;
use eq_cert::CheckRule;
use std::alloc::AllocError;
use thiserror::Error;

/// Why a document is not accepted.
#[derive(Debug, Drop, Error)]
pub enum DocumentFault {
    /// The first line at which a rule is broken, counted from 1, and the rule.
    #[error("line {line} breaks a rule")]
    Broken { rule: CheckRule, line: u32 },
    /// The database gives no system for a report. It is never `SystemFault::Memory`.
    #[error("the database gives no system for a report")]
    System(SystemFault),
    #[error("out of memory")]
    Memory,
}

impl From<AllocError> for DocumentFault {
    ghost from_gives = { λ _ e. e ≡ Memory };

    fn from(_e: AllocError) -> DocumentFault {
        DocumentFault::Memory
    }
}
