//! Sums of the values, the lows and the highs of terms.

ghost use Rattle.std.specs.Prelude.{◌≡◌, ◌≤◌, ℕ, Some, slice_get, unsigned_abs};
ghost use Rattle.cal_limits.specs.declared.TheConstants.{MOST_CURIE};
ghost use Rattle.cal_math.specs.Sums.{sum_of};
ghost use Rattle.cef_box.specs.Terms.{FitsBox, FitsSite};
ghost use Rattle.cef_mag.specs.Sums.{most_of};

use crate::moment::Sums;
use cal_whole::plus;
use cef_box::{BoxRange, Term};
use cef_core::Site;

/// The sum of the values of terms.
pub fn sum_of_values<T: Term>(terms: &[T], site: &Site) -> i128
    requires fits { (k : ℕ) (t : T) → slice_get terms.now k ≡ Some t → FitsSite (T.shape t) site.now }
    requires small { most_of T.most terms.now ≤ MOST_CURIE }
    ensures exact { result ≡ sum_of (λ t. T.value_at t site.now) terms.now }
    ensures size { unsigned_abs result ≤ most_of T.most terms.now }
{
    let mut total = 0;
    'each: for term in terms {
        total = plus(total, term.value(site));
    }
    total
}

/// The sum of their lows over a box.
pub fn sum_of_lows<T: Term>(terms: &[T], range: &BoxRange) -> i128
    requires fits { (k : ℕ) (t : T) → slice_get terms.now k ≡ Some t → FitsBox (T.shape t) range.now }
    requires small { most_of T.most terms.now ≤ MOST_CURIE }
    ensures exact { result ≡ sum_of (λ t. T.low_over t range.now) terms.now }
    ensures size { unsigned_abs result ≤ most_of T.most terms.now }
{
    let mut total = 0;
    'each: for term in terms {
        total = plus(total, term.low(range));
    }
    total
}

/// The sum of their highs over a box.
pub fn sum_of_highs<T: Term>(terms: &[T], range: &BoxRange) -> i128
    requires fits { (k : ℕ) (t : T) → slice_get terms.now k ≡ Some t → FitsBox (T.shape t) range.now }
    requires small { most_of T.most terms.now ≤ MOST_CURIE }
    ensures exact { result ≡ sum_of (λ t. T.high_over t range.now) terms.now }
    ensures size { unsigned_abs result ≤ most_of T.most terms.now }
{
    let mut total = 0;
    'each: for term in terms {
        total = plus(total, term.high(range));
    }
    total
}

/// The sum of the lows of terms, and that of their highs.
pub fn sums_over<T: Term>(terms: &[T], range: &BoxRange) -> Sums
    requires fits { (k : ℕ) (t : T) → slice_get terms.now k ≡ Some t → FitsBox (T.shape t) range.now }
    requires small { most_of T.most terms.now ≤ MOST_CURIE }
    ensures low { result.low ≡ sum_of (λ t. T.low_over t range.now) terms.now }
    ensures high { result.high ≡ sum_of (λ t. T.high_over t range.now) terms.now }
    ensures low_size { unsigned_abs result.low ≤ most_of T.most terms.now }
    ensures high_size { unsigned_abs result.high ≤ most_of T.most terms.now }
{
    let low = sum_of_lows(terms, range);
    let high = sum_of_highs(terms, range);
    Sums { low, high }
}
