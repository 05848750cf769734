//! The parts of a report, on the way to the whole.

use cal_list::Items;
use cef_core::Name;
use cef_report::Entry;
use cef_tree::Tree;

#[derive(Drop)]
pub(crate) struct Bounds {
    pub tolerance: i128,
    pub gap: i128,
    pub potentials: Items<i128>,
}

#[derive(Drop)]
pub(crate) struct Sums {
    pub totals: Items<i128>,
    pub energy: i128,
    pub bounds: Bounds,
}

/// What is about the elements and phases that are named.
#[derive(Drop)]
pub(crate) struct Body {
    pub asked: Items<i128>,
    pub entries: Items<Entry>,
    pub sums: Sums,
    pub trees: Items<Tree>,
}

#[derive(Drop)]
pub(crate) struct Named {
    pub elements: Items<Name>,
    pub phases: Items<Name>,
    pub body: Body,
}
