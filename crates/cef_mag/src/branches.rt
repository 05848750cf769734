//! The two branches of g, in 10^-9, and of R*T*g, in µJ/mol.

ghost use Rattle.std.specs.Prelude.{◌≡◌, ◌≤◌, ◌<◌, ◌*◌, ◌+◌, ◌/◌, ◌^◌, pos, ◌-ℤ◌, unsigned_abs};
ghost use Rattle.cal_limits.specs.declared.TheConstants.{LOWEST_TEMPERATURE, HIGHEST_TEMPERATURE, MOST_CURIE};
ghost use Rattle.cef_core.specs.Magnetism.{theta_over_t, t_over_theta, norm_of, linear_part, series_part, g_below, g_above, g_at, energy_of_g};
ghost use Rattle.cef_mag.specs.Ranges.{u_of, u_above, u_below};

use crate::series::{UNIT, series_above, series_below};
use cal_limits::GAS_CONSTANT;
use cal_whole::{floor_quotient, times};

/// The temperature and the structure of a phase, on which g depends besides theta.
#[derive(Clone, Copy)]
pub struct Branches {
    /// In hundredths of a kelvin.
    pub t: u64,
    /// The structure factor p, in ten-thousandths.
    pub p4: u64,
    /// A, in 10^-9.
    norm: u64,
    ghost coldest: { LOWEST_TEMPERATURE ≤ t },
    ghost hottest: { t ≤ HIGHEST_TEMPERATURE },
    ghost least_p: { 1000 ≤ p4 },
    ghost greatest_p: { p4 ≤ 10000 },
    ghost norm_is: { norm ≡ norm_of p4 },
}

/// A = 518/1125 + 11692/15975 * (1/p - 1).
#[tactic(auto, using(crate::proofs::Fractions::norm_rules))]
fn norm_of(p4: u64) -> u64
    requires low { 1000 ≤ p4 }
    requires high { p4 ≤ 10000 }
    ensures { result ≡ norm_of p4 }
{
    518 * UNIT / 1125 + 11692 * UNIT * (10000 - p4) / (15975 * p4)
}

/// 1 or nothing, less a number over A. The whole quotient comes first, so that 64 bits serve.
#[tactic(auto, using(crate::proofs::Fractions::less_rules))]
fn less_share(top: u64, number: u64, norm: u64) -> i128
    requires top { top ≤ UNIT }
    requires number { number ≤ 60000000000000 }
    requires norm_low { 460444444 ≤ norm }
    requires norm_high { norm ≤ 8000000000 }
    ensures exact { result ≡ pos top -ℤ pos (1000000000 * number / norm) }
    ensures size { unsigned_abs result ≤ 2 ^ 48 }
{
    let share = UNIT * (number / norm) + UNIT * (number % norm) / norm;
    i128::from(top) - i128::from(share)
}

impl Branches {
    pub fn new(t: u32, p4: u32) -> Branches
        requires coldest { LOWEST_TEMPERATURE ≤ t }
        requires hottest { t ≤ HIGHEST_TEMPERATURE }
        requires least_p { 1000 ≤ p4 }
        requires greatest_p { p4 ≤ 10000 }
        ensures t { result.t ≡ t }
        ensures p4 { result.p4 ≡ p4 }
    {
        let p4 = u64::from(p4);
        Branches {
            t: u64::from(t),
            p4,
            norm: norm_of(p4),
        }
    }

    /// w: theta over the temperature.
    #[tactic(auto, using(crate::proofs::Fractions::ratio_rules))]
    fn theta_over_t(&self, theta: u64) -> u64
        requires { theta ≤ MOST_CURIE }
        ensures exact { result ≡ theta_over_t self.now.t theta }
        ensures size { result ≤ 10000000000000 }
        ensures above { theta ≤ 10000 * self.now.t → result ≤ 1000000000 }
    {
        UNIT * theta / (10000 * self.t)
    }

    /// v: the temperature over a theta above it.
    #[tactic(auto, using(crate::proofs::Fractions::ratio_rules))]
    fn t_over_theta(&self, theta: u64) -> u64
        requires { 10000 * self.now.t < theta }
        ensures exact { result ≡ t_over_theta self.now.t theta }
        ensures size { result ≤ 1000000000 }
    {
        10000 * UNIT * self.t / theta
    }

    /// 79*w / (140*p).
    #[tactic(auto, using(crate::proofs::Fractions::part_rules))]
    fn linear_part(&self, w: u64) -> u64
        requires { w ≤ 10000000000000 }
        ensures exact { result ≡ linear_part self.now.p4 w }
        ensures size { result ≤ 57000000000000 }
    {
        79 * w * 10000 / (140 * self.p4)
    }

    /// 474/497 * (1/p - 1) * (v^3/6 + v^9/135 + v^15/600).
    #[tactic(auto, using(crate::proofs::Fractions::part_rules))]
    fn series_part(&self, v: u64) -> u64
        requires { v ≤ 1000000000 }
        ensures exact { result ≡ series_part self.now.p4 v }
        ensures size { result ≤ 1600000000 }
    {
        474 * (10000 - self.p4) * series_below(v) / (497 * self.p4)
    }

    /// g below the Curie temperature.
    #[tactic(auto, using(crate::proofs::Fractions::norm_rules))]
    fn g_below(&self, w: u64, v: u64) -> i128
        requires w { w ≤ 10000000000000 }
        requires v { v ≤ 1000000000 }
        ensures exact { result ≡ g_below self.now.p4 w v }
        ensures size { unsigned_abs result ≤ 2 ^ 48 }
    {
        less_share(UNIT, self.linear_part(w) + self.series_part(v), self.norm)
    }

    /// g above it.
    #[tactic(auto, using(crate::proofs::Fractions::norm_rules))]
    fn g_above(&self, w: u64) -> i128
        requires { w ≤ 1000000000 }
        ensures exact { result ≡ g_above self.now.p4 w }
        ensures size { unsigned_abs result ≤ 2 ^ 48 }
    {
        less_share(0, series_above(w), self.norm)
    }

    /// R*T*g.
    #[tactic(auto, using(crate::proofs::Fractions::u_rules), unfolding(crate::specs::Ranges::u_of))]
    fn u_of(&self, g: i128) -> i128
        requires { unsigned_abs g ≤ 2 ^ 48 }
        ensures { result ≡ u_of self.now.t g }
    {
        floor_quotient(
            times(i128::from(u64::from(GAS_CONSTANT) * self.t), g),
            i128::from(UNIT),
        )
    }

    /// g at a theta above 0.
    #[tactic(auto, using(crate::proofs::Branching::g_rules))]
    pub fn g_at(&self, theta: u64) -> i128
        requires { theta ≤ MOST_CURIE }
        ensures exact { result ≡ g_at self.now.t theta self.now.p4 }
        ensures size { unsigned_abs result ≤ 2 ^ 48 }
    {
        let w = self.theta_over_t(theta);
        if theta > 10000 * self.t {
            self.g_below(w, self.t_over_theta(theta))
        } else {
            self.g_above(w)
        }
    }

    /// R*T*g at a theta, and 0 at the theta 0.
    #[tactic(auto, using(crate::proofs::Branching::energy_rules))]
    pub fn energy_of_g(&self, theta: u64) -> i128
        requires { theta ≤ MOST_CURIE }
        ensures { result ≡ energy_of_g self.now.t theta self.now.p4 }
    {
        if theta == 0 {
            0
        } else {
            self.u_of(self.g_at(theta))
        }
    }

    /// R*T*g above the Curie temperature.
    pub fn u_above(&self, theta: u64) -> i128
        requires above { theta ≤ 10000 * self.now.t }
        requires most { theta ≤ MOST_CURIE }
        ensures { result ≡ u_above self.now.t self.now.p4 theta }
    {
        self.u_of(self.g_above(self.theta_over_t(theta)))
    }

    /// R*T*g below it, with the w and the v of two theta.
    pub fn u_below(&self, w_theta: u64, v_theta: u64) -> i128
        requires w { w_theta ≤ MOST_CURIE }
        requires v { 10000 * self.now.t < v_theta }
        ensures { result ≡ u_below self.now.t self.now.p4 w_theta v_theta }
    {
        self.u_of(self.g_below(self.theta_over_t(w_theta), self.t_over_theta(v_theta)))
    }
}

/// g in 10^-9, at a temperature in hundredths of a kelvin, a Curie temperature theta in µK above 0, and p in ten-thousandths.
pub fn g_of(t: u32, theta: u64, p4: u32) -> i128
    requires coldest { LOWEST_TEMPERATURE ≤ t }
    requires hottest { t ≤ HIGHEST_TEMPERATURE }
    requires theta_low { 1 ≤ theta }
    requires theta_high { theta ≤ MOST_CURIE }
    requires least_p { 1000 ≤ p4 }
    requires greatest_p { p4 ≤ 10000 }
    ensures { result ≡ g_at t theta p4 }
{
    Branches::new(t, p4).g_at(theta)
}
