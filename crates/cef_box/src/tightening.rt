//! Boxes whose ranges are cut to the values that members take there.

ghost use Rattle.std.specs.Prelude.{◌≡◌, List, ℕ};
ghost use Rattle.std.specs.Bool.{OnTrue, OnFalse};
ghost use Rattle.cef_core.specs.Shapes.{shape};
ghost use Rattle.cef_box.specs.Boxes.{IsMember};
ghost use Rattle.cef_box.specs.Terms.{FitsBox, shape_of_phase};
ghost use Rattle.cef_box.specs.Tight.{IsTightened, tightened_box};

use crate::box_range::BoxRange;
use cef_core::PhaseAt;

/// False exactly where the box has no member, and then it is as it was. Otherwise each range becomes the set of values
/// that members take there.
#[tactic(auto, using(crate::proofs::Tightened::tightening, crate::proofs::Kept::keeping))]
pub fn tighten(phase: &PhaseAt, range: &mut BoxRange) -> bool
    ensures exact { OnTrue result (range.new ≡ tightened_box phase.now.lattice range.old) }
    ensures tight { OnTrue result (IsTightened phase.now.lattice range.old range.new) }
    ensures none { OnFalse result ((site : List (List ℕ)) → IsMember phase.now.lattice range.old site → ⊥) }
    ensures unchanged { OnFalse result (range.new ≡ range.old) }
    ensures shaped { shape range.new ≡ shape range.old }
    ensures fits { OnTrue result (shape range.old ≡ shape phase.now.sites → FitsBox (shape_of_phase phase.now) range.new) }
{
    if range.has_lists(phase.lattice) {
        range.tighten_lists(phase.lattice);
        true
    } else {
        false
    }
}
