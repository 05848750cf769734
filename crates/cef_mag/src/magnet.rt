//! The magnetic energy of sums of Curie temperatures and of moments.

ghost use Rattle.std.specs.Prelude.{◌≡◌, ◌≤◌, ◌<◌, ◌^◌, ◌*◌, ◌+◌, pos, unsigned_abs};
ghost use Rattle.cal_math.specs.Logarithm.{log_between};
ghost use Rattle.cal_limits.specs.declared.TheConstants.{LOWEST_TEMPERATURE, HIGHEST_TEMPERATURE, MOST_CURIE, MOST_MOMENT, MOST_RATIO_DECIMALS};
ghost use Rattle.cef_core.specs.Magnetism.{magnetic_at};
ghost use Rattle.cef_mag.specs.Ranges.{with_logarithm, least_energy, greatest_energy, magnetic_low, magnetic_high};

use crate::branched::{greatest_u, least_u};
use crate::branches::Branches;
use crate::moment::{Moments, Sums, moment_of, moments_of};
use cal_log::Logs;
use cal_whole::{floor_quotient, times};
use cef_core::MagneticAt;

/// What the magnetic energies of a phase are computed from.
#[derive(Drop)]
pub struct Magnet<'a> {
    pub branches: Branches,
    /// The magnitude of the antiferromagnetic factor.
    pub factor: u64,
    /// The power of ten that makes the written ratios of the phase whole.
    pub scale: u32,
    logs: &'a Logs,
    ghost factor_some: { 1 ≤ factor },
    ghost scale_high: { scale ≤ 10 ^ MOST_RATIO_DECIMALS },
    ghost reach: { 501001 ≤ logs.now },
}

impl<'a> Magnet<'a> {
    /// The magnet of a temperature in hundredths of a kelvin, a scale of ratios, and a magnetism.
    pub fn new(t: u32, scale: u32, magnetic: &MagneticAt, logs: &'a Logs) -> Magnet<'a>
        requires coldest { LOWEST_TEMPERATURE ≤ t }
        requires hottest { t ≤ HIGHEST_TEMPERATURE }
        requires scale { scale ≤ 10 ^ MOST_RATIO_DECIMALS }
        requires factor { 1 ≤ magnetic.now.factor }
        requires least_p { 1000 ≤ magnetic.now.p4 }
        requires greatest_p { magnetic.now.p4 ≤ 10000 }
        requires reach { 501001 ≤ logs.now }
        ensures t { result.branches.t ≡ t }
        ensures p4 { result.branches.p4 ≡ magnetic.now.p4 }
        ensures factor { result.factor ≡ magnetic.now.factor }
        ensures scale { result.scale ≡ scale }
    {
        Magnet {
            branches: Branches::new(t, magnetic.p4),
            factor: u64::from(magnetic.factor),
            scale,
            logs,
        }
    }

    /// ln (1 + moment), in 10^-15, times the scale.
    #[tactic(auto, using(crate::proofs::Energies::scaled_rules))]
    fn scaled_logarithm(&self, moment: u64) -> i128
        requires { moment ≤ MOST_MOMENT }
        ensures exact { result ≡ pos (self.now.scale * log_between moment) }
        ensures size { unsigned_abs result ≤ 980000000000000000000 }
    {
        times(i128::from(self.scale), self.logs.between(moment))
    }

    /// u * ln (1 + moment), times the scale.
    #[tactic(auto, using(crate::proofs::Energies::logarithm_rules), unfolding(crate::specs::Ranges::with_logarithm))]
    fn with_logarithm(&self, moment: u64, u: i128) -> i128
        requires moment { moment ≤ MOST_MOMENT }
        requires size { unsigned_abs u ≤ 2 ^ 41 }
        ensures { result ≡ with_logarithm self.now.scale moment u }
    {
        floor_quotient(
            times(u, self.scaled_logarithm(moment)),
            10_000_000_000_000_000,
        )
    }

    /// The least product of a u from this one up with the logarithm of one of the moments.
    #[tactic(auto, using(crate::proofs::Energies::least_rules))]
    fn least_energy(&self, moments: Moments, u: i128) -> i128
        requires low { moments.low ≤ MOST_MOMENT }
        requires high { moments.high ≤ MOST_MOMENT }
        requires size { unsigned_abs u ≤ 2 ^ 41 }
        ensures { result ≡ least_energy self.now.scale moments.low moments.high u }
    {
        if u < 0 {
            self.with_logarithm(moments.high, u)
        } else {
            self.with_logarithm(moments.low, u)
        }
    }

    /// The greatest product of a u up to this one with it.
    #[tactic(auto, using(crate::proofs::Energies::greatest_rules))]
    fn greatest_energy(&self, moments: Moments, u: i128) -> i128
        requires low { moments.low ≤ MOST_MOMENT }
        requires high { moments.high ≤ MOST_MOMENT }
        requires size { unsigned_abs u ≤ 2 ^ 41 }
        ensures { result ≡ greatest_energy self.now.scale moments.low moments.high u }
    {
        if u < 0 {
            self.with_logarithm(moments.low, u)
        } else {
            self.with_logarithm(moments.high, u)
        }
    }

    /// The magnetic energy, in µJ per mol of formula units.
    #[tactic(auto, using(crate::proofs::Energies::value_rules))]
    pub fn energy(&self, curie: i128, moment: i128) -> i128
        requires curie { unsigned_abs curie ≤ MOST_CURIE }
        requires moment { unsigned_abs moment ≤ MOST_MOMENT }
        ensures { result ≡ magnetic_at self.now.branches.t self.now.scale self.now.factor self.now.branches.p4 curie moment }
    {
        let theta = moment_of(self.factor, curie);
        let u = self.branches.energy_of_g(theta);
        self.with_logarithm(moment_of(self.factor, moment), u)
    }

    /// The least energy of sums from a low to a high.
    #[tactic(auto, using(crate::proofs::Energies::low_rules), unfolding(crate::specs::Ranges::magnetic_low))]
    pub fn low(&self, curie: Sums, moment: Sums) -> i128
        requires curie_low { unsigned_abs curie.low ≤ MOST_CURIE }
        requires curie_high { unsigned_abs curie.high ≤ MOST_CURIE }
        requires moment_low { unsigned_abs moment.low ≤ MOST_MOMENT }
        requires moment_high { unsigned_abs moment.high ≤ MOST_MOMENT }
        ensures { result ≡ magnetic_low self.now.branches.t self.now.scale self.now.factor self.now.branches.p4 curie.low curie.high moment.low moment.high }
    {
        let theta = moments_of(self.factor, curie);
        let moments = moments_of(self.factor, moment);
        let u = least_u(self.branches, theta.low, theta.high);
        self.least_energy(moments, u)
    }

    /// The greatest energy of them.
    #[tactic(auto, using(crate::proofs::Energies::high_rules), unfolding(crate::specs::Ranges::magnetic_high))]
    pub fn high(&self, curie: Sums, moment: Sums) -> i128
        requires curie_low { unsigned_abs curie.low ≤ MOST_CURIE }
        requires curie_high { unsigned_abs curie.high ≤ MOST_CURIE }
        requires moment_low { unsigned_abs moment.low ≤ MOST_MOMENT }
        requires moment_high { unsigned_abs moment.high ≤ MOST_MOMENT }
        ensures { result ≡ magnetic_high self.now.branches.t self.now.scale self.now.factor self.now.branches.p4 curie.low curie.high moment.low moment.high }
    {
        let theta = moments_of(self.factor, curie);
        let moments = moments_of(self.factor, moment);
        let u = greatest_u(self.branches, theta.low, theta.high);
        self.greatest_energy(moments, u)
    }
}
