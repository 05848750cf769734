ghost use Rattle.std.specs.Prelude.{◌≡◌, ◌<◌, ◌≤◌, List, ℕ, ℤ, IfOk, Some};
ghost use Rattle.std.specs.Prelude.{length, slice_get, unsigned_abs};
ghost use Rattle.cef_core.specs.Parameters.{parameter_value};
ghost use Rattle.cef_core.specs.Phases.{IsFine};
ghost use Rattle.cef_box.specs.Terms.{shape_of_phase};
ghost use Rattle.cef_term.specs.Bounds.{parameter_low, parameter_high};
ghost use Rattle.cef_term.specs.Kept.{IsKept};

use crate::divisor::divisor_of;
use crate::factor::factor_of;
use crate::form::Form;
use crate::placing::{form_of, place_array};
use crate::share::{Share, share_of, share_value};
use cef_box::{BoxRange, Term};
use cef_core::{ParamAt, PhaseAt, Site};
use smallvec::SmallVec;
use std::alloc::{AllocError, Global};

/// A parameter of a phase, with its value at constitutions and its low and its high over boxes.
#[derive(Drop)]
pub struct ParamTerm<'a> {
    phase: &'a PhaseAt,
    parameter: &'a ParamAt,
    /// The places of the constituents of its array, which count on over the sublattices.
    pub(crate) places: SmallVec<u16, 8>,
    pub(crate) form: Form,
    pub(crate) share: Share,
    ghost valid: { IsKept phase.now parameter.now places.items form share },
}

impl<'a> ParamTerm<'a> {
    /// The term of a parameter of a phase.
    pub fn new(alloc: Global, phase: &'a PhaseAt, index: usize) -> Result<ParamTerm<'a>, AllocError>
        requires fine { IsFine phase.now }
        requires index { index < length phase.now.parameters }
        ensures { IfOk result (λ t. (t.phase.now ≡ phase.now) × (slice_get phase.now.parameters index ≡ Some t.parameter.now)) }
    {
        let parameter = &phase.parameters.as_slice()[index];
        let placed = place_array(alloc, phase.sites.as_slice(), parameter.array.as_slice())?;
        let mixed = placed.mixed;
        let places = placed.places;
        let form = form_of(
            phase.lattice,
            parameter.order,
            parameter.weighted,
            mixed.as_slice(),
        );
        let divisor = divisor_of(phase.lattice, places.len(), form);
        let share = share_of(parameter.micro, divisor);
        Ok(ParamTerm {
            phase,
            parameter,
            places,
            form,
            share,
        })
    }
}

impl<'a> Term for ParamTerm<'a> {
    ghost shape = { λ t. shape_of_phase t.phase.now };

    ghost value_at = { λ t site. parameter_value t.phase.now.lattice t.parameter.now site };

    ghost low_over = { λ t box. parameter_low t.phase.now.lattice t.parameter.now box };

    ghost high_over = { λ t box. parameter_high t.phase.now.lattice t.parameter.now box };

    ghost most = { λ t. unsigned_abs t.parameter.now.micro };

    #[inline]
    #[tactic(auto, using(crate::proofs::Terms::value_rules))]
    fn value(&self, site: &Site) -> i128 {
        let counts = site.counts();
        let factor = factor_of(self.form, counts);
        share_value(self.share, counts, self.places.as_slice(), factor)
    }

    #[inline]
    #[tactic(auto, using(crate::proofs::Terms::low_rules))]
    fn low(&self, range: &BoxRange) -> i128 {
        if self.parameter.micro < 0 {
            self.at_greatest(range.lows(), range.highs())
        } else {
            self.at_least(range.lows(), range.highs())
        }
    }

    #[inline]
    #[tactic(auto, using(crate::proofs::Terms::high_rules))]
    fn high(&self, range: &BoxRange) -> i128 {
        if self.parameter.micro < 0 {
            self.at_least(range.lows(), range.highs())
        } else {
            self.at_greatest(range.lows(), range.highs())
        }
    }

    ghost between = { λ t box site fits member. t.valid.between box site fits member };

    ghost same = { λ t box site fits member single. t.valid.same box site fits member single };
}
