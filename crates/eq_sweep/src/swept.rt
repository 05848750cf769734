use cal_list::Items;
use cef_core::Site;
use cef_tree::Tree;

/// The answer of a sweep.
#[derive(Drop)]
pub enum Swept {
    /// All constitutions lie on or above the plane. One tree for each phase shows it.
    Closed(Items<Tree>),
    /// This constitution of the phase lies below it.
    Below { phase: usize, site: Site },
    /// The budget was spent at this phase.
    Out { phase: usize },
}
