//! The planes below the affine parameters of a phase, all together.

ghost use Rattle.std.specs.Prelude.{◌≡◌, ℕ, ◌^◌, ◌<◌, ◌≤◌, IfOk, Some};
ghost use Rattle.std.specs.Prelude.{length, pos, slice_get, slice_index_or, unsigned_abs};
ghost use Rattle.cal_math.specs.Sums.{sum_of};
ghost use Rattle.cef_core.specs.declared.phase.ParamAt.{ParamAt as Parameter};
ghost use Rattle.cef_core.specs.Phases.{IsFine};
ghost use Rattle.cef_core.specs.Shapes.{places};
ghost use Rattle.cef_box.specs.Terms.{FitsBox, shape_of_phase};
ghost use Rattle.cef_minor.specs.Forms.{constant_of};
ghost use Rattle.cef_phase.specs.Affine.{affine_of, constants_over, has_no_plane, rise_at};
ghost use Rattle.cef_phase.specs.Planes.{affine_places, AreOthers, HasPlanes};

use crate::magnetism::sum_of_lows;
use cal_whole::{plus, times};
use cef_box::BoxRange;
use cef_core::{Kind, PhaseAt};
use cef_mag::MagTerm;
use cef_minor::{affine, minorant};
use cef_term::ParamTerm;
use std::alloc::{AllocError, Global};

/// The places among all parameters of those that have a plane below them.
pub fn affine_places(alloc: Global, phase: &PhaseAt) -> Result<Vec<usize>, AllocError>
    ensures { IfOk result (λ affine. affine.items ≡ affine_places phase.now) }
{
    let mut places = Vec::new(alloc);
    'each: for index in 0..phase.parameters().len() {
        if affine(phase, index) {
            places.push(index)?;
        }
    }
    Ok(places)
}

/// Whether a parameter adds to the energy and has no plane below it.
fn has_no_plane(phase: &PhaseAt, index: usize) -> bool
    requires { index < length phase.now.parameters }
    ensures { (p : Parameter) → slice_get phase.now.parameters index ≡ Some p → result ≡ has_no_plane p }
{
    match phase.parameters()[index].kind {
        Kind::G => !affine(phase, index),
        _ => false,
    }
}

/// The terms of the parameters of the energy that have none.
pub fn other_terms<'a>(alloc: Global, phase: &'a PhaseAt) -> Result<Vec<ParamTerm<'a>>, AllocError>
    requires { IsFine phase.now }
    ensures { IfOk result (λ terms. AreOthers phase.now terms.items) }
{
    let mut terms = Vec::new(alloc);
    'each: for index in 0..phase.parameters().len() {
        if has_no_plane(phase, index) {
            terms.push(ParamTerm::new(alloc, phase, index)?)?;
        }
    }
    Ok(terms)
}

/// Adds the slopes of all planes to those of the sites, and answers the sum of their constants.
fn raise_all(phase: &PhaseAt, affine: &[usize], range: &BoxRange, slopes: &mut [i128]) -> i128
    requires fine { IsFine phase.now }
    requires places { affine.now ≡ affine_places phase.now }
    requires fits { FitsBox (shape_of_phase phase.now) range.now }
    requires sites { length slopes.old ≡ places phase.now.sites }
    requires flat { (site : ℕ) → slice_index_or slopes.old site (pos 0) ≡ pos 0 }
    ensures constants { result ≡ sum_of (λ p. constant_of phase.now p range.now) (affine_of phase.now) }
    ensures slopes { (site : ℕ) → slice_index_or slopes.new site (pos 0) ≡ rise_at phase.now range.now site }
    ensures each { length slopes.new ≡ length slopes.old }
    ensures size { unsigned_abs result ≤ 2 ^ 99 }
    ensures small { (site : ℕ) → unsigned_abs (slice_index_or slopes.new site (pos 0)) ≤ 2 ^ 75 }
{
    let mut total = 0;
    'each: for index in affine {
        total = plus(total, minorant(phase, *index, range, slopes));
    }
    total
}

/// Adds the slopes of all planes to those of the sites, which are 0, and answers the constants: those of the planes,
/// and 2^16 times the lows of the other parameters and of magnetism. Both are in the unit of the bound.
pub fn raise_planes(
    phase: &PhaseAt,
    affine: &[usize],
    others: &[ParamTerm<'_>],
    magnetism: &Option<MagTerm<'_, ParamTerm<'_>>>,
    range: &BoxRange,
    slopes: &mut [i128],
) -> i128
    requires has { HasPlanes phase.now affine.now others.now magnetism.now }
    requires fits { FitsBox (shape_of_phase phase.now) range.now }
    requires sites { length slopes.old ≡ places phase.now.sites }
    requires flat { (site : ℕ) → slice_index_or slopes.old site (pos 0) ≡ pos 0 }
    ensures constants { result ≡ constants_over phase.now range.now }
    ensures slopes { (site : ℕ) → slice_index_or slopes.new site (pos 0) ≡ rise_at phase.now range.now site }
    ensures each { length slopes.new ≡ length slopes.old }
    ensures size { unsigned_abs result ≤ 2 ^ 100 }
    ensures small { (site : ℕ) → unsigned_abs (slice_index_or slopes.new site (pos 0)) ≤ 2 ^ 75 }
{
    let lows = sum_of_lows(others, magnetism, range);
    plus(raise_all(phase, affine, range, slopes), times(65536, lows))
}
