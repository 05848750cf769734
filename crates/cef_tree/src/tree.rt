use cal_list::Items;

/// A node of a tree of boxes.
#[derive(Drop)]
pub enum Node {
    /// The box is cut at a place, above this count.
    Split { place: u16, cut: u16 },
    /// The box lies on or above the plane of the potentials, as these multipliers show, one for each sublattice.
    Leaf { multipliers: Items<i128> },
    /// The same, with planes below the parameters of the energy in place of their lows.
    Affine { multipliers: Items<i128> },
    /// The box is one list without content.
    Empty,
}

/// The boxes of a phase, in preorder.
#[derive(Drop)]
pub struct Tree {
    pub nodes: Items<Node>,
}
