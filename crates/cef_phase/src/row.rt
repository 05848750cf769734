//! One sublattice of a phase, with what its part of a bound is computed from.

use cef_mix::Mix;

/// A sublattice of a box: the tables of mixing and its place among them, and for each of its sites how much one count is
/// worth and its range.
#[derive(Clone, Copy)]
pub struct Row<'a> {
    pub mix: &'a Mix,
    pub place: usize,
    pub slopes: &'a [i128],
    pub low: &'a [u16],
    pub high: &'a [u16],
}
