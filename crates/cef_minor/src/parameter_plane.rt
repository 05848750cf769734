//! The affine minorant of a parameter on a box.

ghost use Rattle.std.specs.Prelude.{◌≡◌, ◌^◌, ◌<◌, ◌≤◌, Some, length, slice_get, true, unsigned_abs};
ghost use Rattle.cef_core.specs.declared.phase.ParamAt.{ParamAt as Parameter};
ghost use Rattle.cef_core.specs.Phases.{IsFine};
ghost use Rattle.cef_core.specs.Shapes.{places};
ghost use Rattle.cef_box.specs.Terms.{FitsBox, shape_of_phase};
ghost use Rattle.cef_minor.specs.Forms.{is_affine, constant_of, slope_at};
ghost use Rattle.cef_minor.specs.Laws.{HasMinorant};
ghost use Rattle.cef_minor.specs.Raised.{AreRaised, AreWithin};

use crate::divisor::divisor_of;
use crate::frame::Frame;
use crate::plane::raise_plane;
use crate::site_list::{form_of, place_array};
use cef_box::BoxRange;
use cef_core::{ParamAt, PhaseAt};

/// The most sites of an array and an added one: N is at least 10, and its power in a divisor at most 2^70.
const MOST_PLACES: usize = 22;

/// The same for a parameter of the phase.
fn raise_parameter(
    phase: &PhaseAt,
    parameter: &ParamAt,
    range: &BoxRange,
    slopes: &mut [i128],
) -> i128
    requires has { HasMinorant phase.now parameter.now range.now }
    requires micro { unsigned_abs parameter.now.micro ≤ 2 ^ 55 }
    requires sites { length slopes.old ≡ places phase.now.sites }
    requires room { AreWithin (2 ^ 100) slopes.old }
    ensures constant { result ≡ constant_of phase.now parameter.now range.now }
    ensures slopes { AreRaised (slope_at phase.now parameter.now range.now) slopes.old slopes.new }
{
    let mut sites = [0u16; MOST_PLACES];
    let count = place_array(
        phase.sites.as_slice(),
        parameter.array.as_slice(),
        &mut sites,
    );
    let form = form_of(
        parameter.order,
        parameter.weighted,
        phase.sites.as_slice(),
        parameter.array.as_slice(),
    );
    let frame = Frame {
        parts: phase.lattice,
        micro: parameter.micro,
        den: divisor_of(phase.lattice, count, form),
        low: range.lows(),
        high: range.highs(),
    };
    raise_plane(frame, form, &mut sites, count, slopes)
}

/// Adds the slopes of a parameter's affine minorant on a box to those of the sites, in 2^-16 µJ per mol of formula
/// units and count, and answers its constant, in 2^-16 µJ per mol of formula units. The constant and the sum over all
/// sites of slope times count are at most 2^16 times the parameter's value, for every member of the box.
pub fn minorant(phase: &PhaseAt, index: usize, range: &BoxRange, slopes: &mut [i128]) -> i128
    requires fine { IsFine phase.now }
    requires index { index < length phase.now.parameters }
    requires affine { (p : Parameter) → slice_get phase.now.parameters index ≡ Some p → is_affine p ≡ true }
    requires fits { FitsBox (shape_of_phase phase.now) range.now }
    requires sites { length slopes.old ≡ places phase.now.sites }
    requires room { AreWithin (2 ^ 100) slopes.old }
    ensures constant { (p : Parameter) → slice_get phase.now.parameters index ≡ Some p → result ≡ constant_of phase.now p range.now }
    ensures slopes { (p : Parameter) → slice_get phase.now.parameters index ≡ Some p → AreRaised (slope_at phase.now p range.now) slopes.old slopes.new }
{
    raise_parameter(phase, &phase.parameters()[index], range, slopes)
}
