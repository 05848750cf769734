//! The checker of one report: whether it meets the rules of a report for a system, so that nobody has
//! to believe the solver.
#![tactic(auto)]

mod blank;
mod broken;
mod checking;
mod entries;
mod fault;
mod gap;
mod head;
mod law;
mod limits;
mod names;
mod node;
mod rule;
mod sums;
mod tree;
mod trees;
mod void;
mod waiting;

pub use checking::check;
pub use fault::CertFault;
pub use law::{one_rule_is_first, rules_have_lines};
pub use rule::{CheckRule, check_text};
