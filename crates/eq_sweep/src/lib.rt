//! The sweep of phases under potentials: whether all their constitutions lie on or above a plane, shown by trees of boxes.
#![tactic(auto)]

mod blank;
mod cut;
mod examining;
mod spare;
mod sweeping;
mod swept;
mod visiting;
mod worth;

pub use sweeping::sweep;
pub use swept::Swept;
