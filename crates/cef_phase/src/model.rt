ghost use Rattle.std.specs.Prelude.{◌≡◌, ◌≤◌, ◌^◌, List, ℕ, ℤ, pos, length, ◌-ℤ◌, ◌*ℤ◌, ◌≤ℤ◌, unsigned_abs};
ghost use Rattle.cef_core.specs.declared.phase.PhaseAt.{PhaseAt as Phase};
ghost use Rattle.cef_core.specs.Constitutions.{HasShape, content};
ghost use Rattle.cef_core.specs.Energies.{energy};
ghost use Rattle.cef_core.specs.Phases.{sigma};
ghost use Rattle.cef_core.specs.Worth.{worth};
ghost use Rattle.cef_box.specs.declared.range.Range.{Range};
ghost use Rattle.cef_box.specs.Boxes.{IsMember, IsSingle};
ghost use Rattle.cef_box.specs.Terms.{FitsBox, shape_of_phase};
ghost use Rattle.cef_phase.specs.Bounds.{bound_of, IsPlane, AreMultipliers};
ghost use Rattle.cef_phase.specs.Affine.{affine_bound_of, AreChosenAffine};
ghost use Rattle.cef_phase.specs.Choosing.{AreChosen};

use cef_box::BoxRange;
use cef_core::{PhaseAt, Site};

/// A phase with what the energies of its constitutions are computed from. Only `phase` hands out what is kept, and no call
/// takes memory.
pub trait PhaseModel {
    ghost phase_of: { Self → Phase };

    /// The phase.
    fn phase(&self) -> &PhaseAt
        ensures { result.now ≡ phase_of self.now };

    /// The energy of a list of counts, in µJ per mol of formula units.
    fn value(&self, site: &Site) -> i128
        requires { HasShape (phase_of self.now).lattice (phase_of self.now).sites site.now }
        ensures exact { result ≡ energy (phase_of self.now) site.now }
        ensures size { unsigned_abs result ≤ sigma (phase_of self.now) };

    /// The bound of a box under potentials and multipliers, in 2^-16 µJ per mol of formula units: by the laws below no
    /// member is nearer to the plane of the potentials. Potentials are in 2^-16 µJ for each of N parts of a mol.
    fn bound(&self, range: &BoxRange, potentials: &[i128], multipliers: &[i128]) -> i128
        requires fits { FitsBox (shape_of_phase (phase_of self.now)) range.now }
        requires plane { IsPlane (2 ^ 117) (phase_of self.now) potentials.now }
        requires multipliers { AreMultipliers (phase_of self.now) multipliers.now }
        ensures { result ≡ bound_of (phase_of self.now) potentials.now range.now multipliers.now };

    /// Writes the chosen multipliers of a box into `out`, one for each sublattice, in the unit of the potentials, and answers
    /// the bound under them.
    fn choose(&self, range: &BoxRange, potentials: &[i128], out: &mut [i128]) -> i128
        requires fits { FitsBox (shape_of_phase (phase_of self.now)) range.now }
        requires plane { IsPlane (2 ^ 116) (phase_of self.now) potentials.now }
        requires places { length out.old ≡ length (phase_of self.now).sites }
        ensures chosen { AreChosen (phase_of self.now) potentials.now range.now out.new }
        ensures multipliers { AreMultipliers (phase_of self.now) out.new }
        ensures bound { result ≡ bound_of (phase_of self.now) potentials.now range.now out.new };

    /// The affine bound of a box, with planes below the parameters of the energy in place of their lows: in the unit of the
    /// bound, and no member is nearer to the plane of the potentials.
    fn affine_bound(&self, range: &BoxRange, potentials: &[i128], multipliers: &[i128]) -> i128
        requires fits { FitsBox (shape_of_phase (phase_of self.now)) range.now }
        requires plane { IsPlane (2 ^ 117) (phase_of self.now) potentials.now }
        requires multipliers { AreMultipliers (phase_of self.now) multipliers.now }
        ensures { result ≡ affine_bound_of (phase_of self.now) potentials.now range.now multipliers.now };

    /// Writes the multipliers of a box that are chosen for its affine bound, and answers the affine bound under them.
    fn choose_affine(&self, range: &BoxRange, potentials: &[i128], out: &mut [i128]) -> i128
        requires fits { FitsBox (shape_of_phase (phase_of self.now)) range.now }
        requires plane { IsPlane (2 ^ 116) (phase_of self.now) potentials.now }
        requires places { length out.old ≡ length (phase_of self.now).sites }
        ensures chosen { AreChosenAffine (phase_of self.now) potentials.now range.now out.new }
        ensures multipliers { AreMultipliers (phase_of self.now) out.new }
        ensures bound { result ≡ affine_bound_of (phase_of self.now) potentials.now range.now out.new };

    /// No member of a box is lower above the plane than its bound.
    ghost below: { (m : Self) (potentials : List ℤ) (box : List (List Range)) (multipliers : List ℤ) (site : List (List ℕ)) → FitsBox (shape_of_phase (phase_of m)) box → IsMember (phase_of m).lattice box site → bound_of (phase_of m) potentials box multipliers ≤ℤ (pos 65536 *ℤ energy (phase_of m) site -ℤ worth potentials (content (phase_of m) site)) };

    /// The bound of a box of one list is its height above the plane.
    ghost exactly: { (m : Self) (potentials : List ℤ) (box : List (List Range)) (multipliers : List ℤ) (site : List (List ℕ)) → FitsBox (shape_of_phase (phase_of m)) box → IsMember (phase_of m).lattice box site → IsSingle box → bound_of (phase_of m) potentials box multipliers ≡ pos 65536 *ℤ energy (phase_of m) site -ℤ worth potentials (content (phase_of m) site) };

    /// No member of a box is lower above the plane than its affine bound.
    ghost affine_below: { (m : Self) (potentials : List ℤ) (box : List (List Range)) (multipliers : List ℤ) (site : List (List ℕ)) → FitsBox (shape_of_phase (phase_of m)) box → IsMember (phase_of m).lattice box site → affine_bound_of (phase_of m) potentials box multipliers ≤ℤ (pos 65536 *ℤ energy (phase_of m) site -ℤ worth potentials (content (phase_of m) site)) };

    /// The affine bound of a box of one list is its height above the plane.
    ghost affine_exactly: { (m : Self) (potentials : List ℤ) (box : List (List Range)) (multipliers : List ℤ) (site : List (List ℕ)) → FitsBox (shape_of_phase (phase_of m)) box → IsMember (phase_of m).lattice box site → IsSingle box → affine_bound_of (phase_of m) potentials box multipliers ≡ pos 65536 *ℤ energy (phase_of m) site -ℤ worth potentials (content (phase_of m) site) };
}
