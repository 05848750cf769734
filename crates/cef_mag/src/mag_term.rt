ghost use Rattle.std.specs.Prelude.{◌≡◌, ◌≤◌, ◌+◌, ◌*◌, IsSome, Some, unsigned_abs};
ghost use Rattle.cal_limits.specs.declared.TheConstants.{MOST_CURIE, MOST_MOMENT};
ghost use Rattle.cef_core.specs.Phases.{IsFine};
ghost use Rattle.cef_box.specs.Terms.{shape_of_phase};
ghost use Rattle.cef_mag.specs.Sums.{AreSummands, value_of_terms, low_of_terms, high_of_terms};
ghost use Rattle.cef_mag.specs.Summing.{HasMagnetism, terms_between, terms_same};

use crate::magnet::Magnet;
use crate::sums::{sum_of_values, sums_over};
use cal_log::Logs;
use cef_box::{BoxRange, Term};
use cef_core::{MagneticAt, PhaseAt, Site};

/// The magnetic energy of a phase, for terms that add to its Curie temperature and to its moment.
#[derive(Drop)]
pub struct MagTerm<'a, T: Term> {
    phase: &'a PhaseAt,
    magnetic: &'a MagneticAt,
    magnet: Magnet<'a>,
    /// The terms of the Curie temperature, in µK.
    curie: Vec<T>,
    /// Those of the moment, in millionths.
    moment: Vec<T>,
    ghost of_phase: { phase.now.magnetic ≡ Some magnetic.now },
    ghost has: { HasMagnetism phase.now magnetic.now },
    ghost t_is: { magnet.branches.t ≡ phase.now.t },
    ghost scale_is: { magnet.scale ≡ phase.now.scale },
    ghost factor_is: { magnet.factor ≡ magnetic.now.factor },
    ghost p_is: { magnet.branches.p4 ≡ magnetic.now.p4 },
    ghost curies: { AreSummands T.shape T.most (shape_of_phase phase.now) MOST_CURIE curie.items },
    ghost moments: { AreSummands T.shape T.most (shape_of_phase phase.now) MOST_MOMENT moment.items },
}

impl<'a, T: Term> MagTerm<'a, T> {
    /// The magnetic energy of a phase that has magnetism.
    #[tactic(auto, using(crate::proofs::Energies::phase_rules))]
    pub fn new(phase: &'a PhaseAt, logs: &'a Logs, curie: Vec<T>, moment: Vec<T>) -> MagTerm<'a, T>
        requires fine { IsFine phase.now }
        requires magnetic { IsSome phase.now.magnetic }
        requires reach { 501001 ≤ logs.now }
        requires curies { AreSummands T.shape T.most (shape_of_phase phase.now) MOST_CURIE curie.items }
        requires moments { AreSummands T.shape T.most (shape_of_phase phase.now) MOST_MOMENT moment.items }
        ensures phase { result.phase.now ≡ phase.now }
        ensures curie { result.curie.items ≡ curie.items }
        ensures moment { result.moment.items ≡ moment.items }
    {
        let magnetic = phase.magnetic.as_ref().unwrap();
        let magnet = Magnet::new(phase.t, phase.scale, magnetic, logs);
        MagTerm {
            phase,
            magnetic,
            magnet,
            curie,
            moment,
        }
    }
}

impl<'a, T: Term> Term for MagTerm<'a, T> {
    ghost shape = { λ m. shape_of_phase m.phase.now };

    ghost value_at = { λ m site. value_of_terms T.value_at m.phase.now m.magnetic.now m.curie.items m.moment.items site };

    ghost low_over = { λ m box. low_of_terms T.low_over T.high_over m.phase.now m.magnetic.now m.curie.items m.moment.items box };

    ghost high_over = { λ m box. high_of_terms T.low_over T.high_over m.phase.now m.magnetic.now m.curie.items m.moment.items box };

    ghost most = { λ m. 1000000 * m.phase.now.scale * (m.phase.now.t + 1000000) };

    fn value(&self, site: &Site) -> i128 {
        let curie = sum_of_values(self.curie.as_slice(), site);
        let moment = sum_of_values(self.moment.as_slice(), site);
        self.magnet.energy(curie, moment)
    }

    fn low(&self, range: &BoxRange) -> i128 {
        let curie = sums_over(self.curie.as_slice(), range);
        let moment = sums_over(self.moment.as_slice(), range);
        self.magnet.low(curie, moment)
    }

    fn high(&self, range: &BoxRange) -> i128 {
        let curie = sums_over(self.curie.as_slice(), range);
        let moment = sums_over(self.moment.as_slice(), range);
        self.magnet.high(curie, moment)
    }

    ghost between = { λ m box site fits member. terms_between T.shape T.most T.low_over T.value_at T.high_over T.between m.phase.now m.magnetic.now m.curie.items m.moment.items m.has m.curies m.moments box site fits member };

    ghost same = { λ m box site fits member single. terms_same T.shape T.most T.low_over T.value_at T.high_over T.same m.phase.now m.magnetic.now m.curie.items m.moment.items m.curies m.moments box site fits member single };
}
