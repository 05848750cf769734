//! What is known of boxes, for proofs of other crates. The calls do nothing: each stands for the lemmas that its clauses
//! name.

ghost use Rattle.std.specs.Prelude.{List, ℕ, ◌≡◌, ◌<◌};
ghost use Rattle.cef_core.specs.declared.phase.PhaseAt.{PhaseAt as Phase};
ghost use Rattle.cef_core.specs.Constitutions.{HasShape};
ghost use Rattle.cef_core.specs.Shapes.{shape};
ghost use Rattle.cef_box.specs.declared.range.Range.{Range};
ghost use Rattle.cef_box.specs.Boxes.{IsMember, IsSingle};
ghost use Rattle.cef_box.specs.Corners.{corner_site};
ghost use Rattle.cef_box.specs.Cuts.{IsWidest};
ghost use Rattle.cef_box.specs.Terms.{FitsBox, shape_of_phase};
ghost use Rattle.cef_box.specs.Tight.{HasSite, IsTightBox};

/// A box is not empty exactly where it has a member; its corner point is one.
pub fn boxes_have_members()
    ensures corner { (n : ℕ) (box : List (List Range)) → HasSite n box → IsMember n box (corner_site n box) }
    ensures has_site { (n : ℕ) (box : List (List Range)) (site : List (List ℕ)) → IsMember n box site → HasSite n box }
{}

/// Where the lows are the highs, the corner point is the one member.
pub fn a_single_box_has_its_corner()
    ensures { (n : ℕ) (box : List (List Range)) (site : List (List ℕ)) → IsSingle box → IsMember n box site → site ≡ corner_site n box }
{}

/// Where some low is not its high, the widest range of a box with a member has several values.
pub fn the_widest_range_is_wide()
    ensures { (n : ℕ) (box : List (List Range)) (place : ℕ) (range : Range) → HasSite n box → (IsSingle box → ⊥) → IsWidest box place range → range.low < range.high }
{}

/// Terms and bounds can be asked of a tight box of the phase's shape that has a member.
pub fn a_tight_box_fits()
    ensures { (phase : Phase) (box : List (List Range)) → HasSite phase.lattice box → IsTightBox phase.lattice box → shape box ≡ shape phase.sites → FitsBox (shape_of_phase phase) box }
{}

/// The members of a box of the phase's shape are lists of the phase.
pub fn members_are_lists()
    ensures { (phase : Phase) (box : List (List Range)) (site : List (List ℕ)) → shape box ≡ shape phase.sites → IsMember phase.lattice box site → HasShape phase.lattice phase.sites site }
{}
