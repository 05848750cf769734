//! The two parts of a box that is cut at a place.

ghost use Rattle.std.specs.Prelude.{◌≡◌};
ghost use Rattle.cef_core.specs.Shapes.{shape};
ghost use Rattle.cef_box.specs.Cuts.{IsCut, IsCuttable, ArePartsOf};
ghost use Rattle.cef_box.specs.Terms.{FitsBox, shape_of_phase};
ghost use Rattle.cef_box.specs.Tight.{HasSite, IsTightBox};

use crate::box_range::BoxRange;
use crate::range::Range;
use cef_core::PhaseAt;

/// The two tightened parts of a tightened box: up to a count at a place, and above it. Neither is empty, and together they
/// have the members of the box, none in common.
#[tactic(auto, using(crate::proofs::Parted::parts, crate::proofs::Kept::keeping))]
pub fn split(
    phase: &PhaseAt,
    range: &BoxRange,
    place: usize,
    cut: u16,
    left: &mut BoxRange,
    right: &mut BoxRange,
)
    requires tight { IsTightBox phase.now.lattice range.now }
    requires has_site { HasSite phase.now.lattice range.now }
    requires cuttable { IsCuttable range.now place cut }
    requires left_shape { shape left.old ≡ shape range.now }
    requires right_shape { shape right.old ≡ shape range.now }
    ensures exact { IsCut phase.now.lattice range.now place cut left.new right.new }
    ensures parts { ArePartsOf phase.now.lattice range.now left.new right.new }
    ensures left_tight { IsTightBox phase.now.lattice left.new }
    ensures right_tight { IsTightBox phase.now.lattice right.new }
    ensures left_shaped { shape left.new ≡ shape range.now }
    ensures right_shaped { shape right.new ≡ shape range.now }
    ensures left_fits { FitsBox (shape_of_phase phase.now) range.now → FitsBox (shape_of_phase phase.now) left.new }
    ensures right_fits { FitsBox (shape_of_phase phase.now) range.now → FitsBox (shape_of_phase phase.now) right.new }
{
    let whole = range.range_at(place);
    left.copy_from(range);
    right.copy_from(range);
    let lower = Range {
        low: whole.low,
        high: cut,
    };
    let upper = Range {
        low: cut + 1,
        high: whole.high,
    };
    left.narrow(phase.lattice, place, lower);
    right.narrow(phase.lattice, place, upper);
}
