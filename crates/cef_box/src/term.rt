ghost use Rattle.std.specs.Prelude.{◌≡◌, ◌≤◌, List, ℕ, ℤ, unsigned_abs};
ghost use Rattle.cef_box.specs.declared.range.Range.{Range};
ghost use Rattle.cef_box.specs.Boxes.{IsMember, IsSingle};
ghost use Rattle.cef_box.specs.Terms.{Shape, FitsSite, FitsBox, IsBetween, AreOne};

use crate::box_range::BoxRange;
use cef_core::Site;

/// A part of an energy, in µJ per mol of formula units, of a Curie temperature, in µK, or of a moment, in millionths,
/// with its bounds over boxes.
pub trait Term {
    /// The lattice and the numbers of sites that its sites and boxes have.
    ghost shape: { Self → Shape };

    ghost value_at: { Self → List (List ℕ) → ℤ };

    ghost low_over: { Self → List (List Range) → ℤ };

    ghost high_over: { Self → List (List Range) → ℤ };

    /// The greatest magnitude of its values and bounds.
    ghost most: { Self → ℕ };

    /// The value at a constitution.
    fn value(&self, site: &Site) -> i128
        requires { FitsSite (shape self.now) site.now }
        ensures exact { result ≡ value_at self.now site.now }
        ensures size { unsigned_abs result ≤ most self.now };

    /// A number that no member of the box has a value below.
    fn low(&self, range: &BoxRange) -> i128
        requires { FitsBox (shape self.now) range.now }
        ensures exact { result ≡ low_over self.now range.now }
        ensures size { unsigned_abs result ≤ most self.now };

    /// A number that no member of the box has a value above.
    fn high(&self, range: &BoxRange) -> i128
        requires { FitsBox (shape self.now) range.now }
        ensures exact { result ≡ high_over self.now range.now }
        ensures size { unsigned_abs result ≤ most self.now };

    /// Each member of a box has a value from the low to the high.
    ghost between: { (t : Self) (box : List (List Range)) (site : List (List ℕ)) → FitsBox (shape t) box → IsMember (shape t).lattice box site → IsBetween (low_over t box) (value_at t site) (high_over t box) };

    /// All three are one where the lows are the highs.
    ghost same: { (t : Self) (box : List (List Range)) (site : List (List ℕ)) → FitsBox (shape t) box → IsMember (shape t).lattice box site → IsSingle box → AreOne (low_over t box) (value_at t site) (high_over t box) };
}
