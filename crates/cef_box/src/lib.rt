//! Boxes of a phase: a range of counts for each site; and parts of an energy, with their bounds over boxes.
#![tactic(auto)]

mod box_range;
mod corner;
mod flat;
mod law;
mod range;
mod row;
mod splitting;
mod term;
mod tight_row;
mod tightening;
mod whole;
mod widths;

pub use box_range::{BoxRange, RowRange, member};
pub use corner::corner_point;
pub use law::{
    a_single_box_has_its_corner, a_tight_box_fits, boxes_have_members, members_are_lists,
    the_widest_range_is_wide,
};
pub use range::Range;
pub use splitting::split;
pub use term::Term;
pub use tightening::tighten;
pub use whole::full;
pub use widths::Widest;
