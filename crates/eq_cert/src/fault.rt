use crate::rule::CheckRule;
use thiserror::Error;

/// Why a report is not accepted.
#[derive(Clone, Copy, Debug, PartialEq, Eq, Error)]
pub enum CertFault {
    /// The first line at which a rule is broken, and the rule.
    #[error("line {line} breaks a rule")]
    Broken { rule: CheckRule, line: u32 },
    #[error("out of memory")]
    Memory,
}
