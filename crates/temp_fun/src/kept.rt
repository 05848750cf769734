use crate::mark::Mark;

/// The functions that were read at a temperature, each with its value.
#[derive(Drop)]
pub struct Kept {
    pub(crate) marks: Vec<Mark>,
}

/// A value in units of 10^-9, and what was read for it and before.
#[derive(Drop)]
pub struct Valued {
    pub value: i128,
    pub kept: Kept,
}
