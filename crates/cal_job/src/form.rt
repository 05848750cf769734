//! The forms of the numbers of a command line.

use cal_limits::{
    FEWEST_PARTS, HIGHEST_TEMPERATURE, LEAST_GAP, LOWEST_TEMPERATURE, MOST_BUDGET, MOST_GAP,
    MOST_NANOMOLES, MOST_PARTS,
};
use cef_path::MOST_STOP;

/// A number's form: the most decimals that it may have, and its range in units of the last of them.
#[derive(Clone, Copy)]
pub struct NumberForm {
    pub decimals: usize,
    pub least: u64,
    pub most: u64,
}

/// A temperature: in kelvins, read as hundredths.
pub const TEMPERATURE_FORM: NumberForm = NumberForm {
    decimals: 2,
    least: LOWEST_TEMPERATURE as u64,
    most: HIGHEST_TEMPERATURE as u64,
};

/// By how much each step of a path lowers the temperature: in kelvins, read as hundredths.
pub const STEP_FORM: NumberForm = NumberForm {
    decimals: 2,
    least: 1,
    most: HIGHEST_TEMPERATURE as u64,
};

/// The fraction of liquid at which a path ends, read as millionths.
pub const STOP_FORM: NumberForm = NumberForm {
    decimals: 6,
    least: 0,
    most: MOST_STOP as u64,
};

/// The amount of an element: in mol, read as nanomoles.
pub const AMOUNT_FORM: NumberForm = NumberForm {
    decimals: 9,
    least: 1,
    most: MOST_NANOMOLES,
};

/// The number of parts of each sublattice.
pub const LATTICE_FORM: NumberForm = NumberForm {
    decimals: 0,
    least: FEWEST_PARTS as u64,
    most: MOST_PARTS as u64,
};

/// The gap: in J per mol of components, read as microjoules.
pub const GAP_FORM: NumberForm = NumberForm {
    decimals: 6,
    least: LEAST_GAP,
    most: MOST_GAP,
};

/// The most splits of boxes.
pub const BUDGET_FORM: NumberForm = NumberForm {
    decimals: 0,
    least: 0,
    most: MOST_BUDGET,
};
