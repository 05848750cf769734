//! The values of a term for the least and the greatest product of the counts and the factor.

ghost use Rattle.std.specs.Prelude.{◌≡◌, ◌≤◌, unsigned_abs};
ghost use Rattle.cef_term.specs.Counted.{AreCountsOf, least_value, greatest_value};

use crate::factor::{counts_for, greatest_factor_of, least_factor_of};
use crate::param_term::ParamTerm;
use crate::share::share_value;

impl<'a> ParamTerm<'a> {
    /// The value for the least product of the counts and the factor over a box.
    #[inline(always)]
    #[tactic(auto, using(crate::proofs::Terms::least_rules))]
    pub(crate) fn at_least(&self, low: &[u16], high: &[u16]) -> i128
        requires low { AreCountsOf self.now low.now }
        requires high { AreCountsOf self.now high.now }
        ensures exact { result ≡ least_value self.now low.now high.now }
        ensures size { unsigned_abs result ≤ unsigned_abs self.now.parameter.now.micro }
    {
        let factor = least_factor_of(self.form, low, high);
        let counts = counts_for(factor, low, high);
        share_value(self.share, counts, self.places.as_slice(), factor)
    }

    /// The value for the greatest product of the counts and the factor over a box.
    #[inline(always)]
    #[tactic(auto, using(crate::proofs::Terms::greatest_rules))]
    pub(crate) fn at_greatest(&self, low: &[u16], high: &[u16]) -> i128
        requires low { AreCountsOf self.now low.now }
        requires high { AreCountsOf self.now high.now }
        ensures exact { result ≡ greatest_value self.now low.now high.now }
        ensures size { unsigned_abs result ≤ unsigned_abs self.now.parameter.now.micro }
    {
        let factor = greatest_factor_of(self.form, low, high);
        let counts = counts_for(factor, high, low);
        share_value(self.share, counts, self.places.as_slice(), factor)
    }
}
