ghost use Rattle.std.specs.Prelude.{◌≡◌, ◌≤◌, IfOk};
ghost use Rattle.cef_core.specs.Phases.{IsFine};
ghost use Rattle.cef_phase.specs.Planes.{HasPlanes};
ghost use Rattle.cef_phase.specs.Sums.{IsSum};
ghost use Rattle.std.proofs.Props.{props};

use crate::magnetism::{magnetic_value, magnetism_of, sum_of_lows};
use crate::mixing::mixing_from;
use crate::model::PhaseModel;
use crate::planes::{affine_places, other_terms, raise_planes};
use crate::terms::{sum_of_terms, terms_of};
use crate::walk::{all_parts, choose_all};
use cal_limits::MOST_SITES;
use cal_log::Logs;
use cal_whole::{plus, times};
use cef_box::BoxRange;
use cef_core::{Kind, PhaseAt, Site};
use cef_mag::MagTerm;
use cef_mix::Mix;
use cef_term::ParamTerm;
use std::alloc::{AllocError, Global};

/// A phase whose energies are the sum of its parts: its parameters, magnetism and ideal mixing.
#[derive(Drop)]
pub struct SumPhase<'a> {
    phase: &'a PhaseAt,
    /// Those of the parameters that are energies.
    terms: Vec<ParamTerm<'a>>,
    /// The places of those that have a plane below them, and the others.
    affine: Vec<usize>,
    others: Vec<ParamTerm<'a>>,
    magnetism: Option<MagTerm<'a, ParamTerm<'a>>>,
    mix: Mix,
    ghost valid: { IsSum phase.now terms.items magnetism mix } by { Prim.hlevel props },
    ghost planes: { HasPlanes phase.now affine.items others.items magnetism } by { Prim.hlevel props },
}

impl<'a> SumPhase<'a> {
    /// The model of a phase.
    pub fn build(
        alloc: Global,
        phase: &'a PhaseAt,
        logs: &'a Logs,
    ) -> Result<SumPhase<'a>, AllocError>
        requires fine { IsFine phase.now }
        requires reach { 501001 ≤ logs.now }
        ensures { IfOk result (λ model. model.phase.now ≡ phase.now) }
    {
        let terms = terms_of(alloc, phase, Kind::G)?;
        let affine = affine_places(alloc, phase)?;
        let others = other_terms(alloc, phase)?;
        let magnetism = magnetism_of(alloc, phase, logs)?;
        let mix = Mix::build(alloc, phase, logs)?;
        Ok(SumPhase {
            phase,
            terms,
            affine,
            others,
            magnetism,
            mix,
        })
    }
}

impl<'a> PhaseModel for SumPhase<'a> {
    ghost phase_of = { λ m. m.phase.now };

    fn phase(&self) -> &PhaseAt {
        self.phase
    }

    fn value(&self, site: &Site) -> i128 {
        let parameters = sum_of_terms(self.terms.as_slice(), site);
        let magnetism = magnetic_value(&self.magnetism, site);
        let mixing = mixing_from(&self.mix, site, 0);
        let others = plus(mixing, magnetism);
        plus(parameters, others)
    }

    fn bound(&self, range: &BoxRange, potentials: &[i128], multipliers: &[i128]) -> i128 {
        let lows = sum_of_lows(self.terms.as_slice(), &self.magnetism, range);
        let mut slopes = [0i128; MOST_SITES];
        let parts = all_parts(
            &self.mix,
            self.phase,
            range,
            potentials,
            multipliers,
            &mut slopes[..range.places()],
        );
        plus(times(65536, lows), parts)
    }

    fn choose(&self, range: &BoxRange, potentials: &[i128], out: &mut [i128]) -> i128 {
        let lows = sum_of_lows(self.terms.as_slice(), &self.magnetism, range);
        let mut slopes = [0i128; MOST_SITES];
        let parts = choose_all(
            &self.mix,
            self.phase,
            range,
            potentials,
            &mut slopes[..range.places()],
            out,
        );
        plus(times(65536, lows), parts)
    }

    fn affine_bound(&self, range: &BoxRange, potentials: &[i128], multipliers: &[i128]) -> i128 {
        let mut room = [0i128; MOST_SITES];
        let slopes = &mut room[..range.places()];
        let constants = raise_planes(
            self.phase,
            self.affine.as_slice(),
            self.others.as_slice(),
            &self.magnetism,
            range,
            slopes,
        );
        let parts = all_parts(
            &self.mix,
            self.phase,
            range,
            potentials,
            multipliers,
            slopes,
        );
        plus(constants, parts)
    }

    fn choose_affine(&self, range: &BoxRange, potentials: &[i128], out: &mut [i128]) -> i128 {
        let mut room = [0i128; MOST_SITES];
        let slopes = &mut room[..range.places()];
        let constants = raise_planes(
            self.phase,
            self.affine.as_slice(),
            self.others.as_slice(),
            &self.magnetism,
            range,
            slopes,
        );
        let parts = choose_all(&self.mix, self.phase, range, potentials, slopes, out);
        plus(constants, parts)
    }

    ghost below = { λ m potentials box multipliers site fits member. m.valid.below potentials box multipliers site fits member };

    ghost exactly = { λ m potentials box multipliers site fits member single. m.valid.exactly potentials box multipliers site fits member single };

    ghost affine_below = { λ m potentials box multipliers site fits member. m.planes.below potentials box multipliers site fits member };

    ghost affine_exactly = { λ m potentials box multipliers site fits member single. m.planes.exactly potentials box multipliers site fits member single };
}
