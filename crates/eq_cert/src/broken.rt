use crate::rule::CheckRule;

/// The first line of a report at which a rule is broken, counted from 0.
#[derive(Clone, Copy, Debug)]
pub(crate) struct BrokenRule {
    pub(crate) rule: CheckRule,
    pub(crate) line: usize,
}
