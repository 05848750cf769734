//! The energies of mixing of one sublattice, for 0 to N parts.

ghost use Rattle.std.specs.Prelude.{◌≡◌, ℕ, ◌+◌, ◌*◌, ◌-◌, ◌/◌, ◌^◌, ◌≤◌, IfOk, Some, length, ◌-ℤ◌, unsigned_abs};
ghost use Rattle.std.specs.Bool.{OnTrue};
ghost use Rattle.cal_limits.specs.declared.TheConstants.{HIGHEST_TEMPERATURE, MOST_RATIOS, MOST_ENERGY, GAS_CONSTANT};
ghost use Rattle.cef_core.specs.Mixing.{mixing_at};
ghost use Rattle.cef_mix.specs.Mixes.{IsLeastOn};
ghost use Rattle.cef_mix.specs.Tables.{entry, AreEnergies, AreRises, AreOrdered, IsNarrow};

use crate::least::{Least, least_by_halves, least_narrow, least_of_all};
use cal_limits::GAS_CONSTANT;
use cal_log::Logs;
use std::alloc::{AllocError, Global};
use std::marker::Model;

/// The greatest energy of which 2^16 times has 61 bits.
const MOST_NARROW: u64 = 1 << 45;

/// The energies of mixing of a sublattice with this ratio. Contracts see what they depend on.
#[derive(Drop)]
pub struct Table {
    t: u32,
    lattice: u32,
    ratio: u32,
    /// In µJ per mol of formula units.
    energies: Vec<i64>,
    /// The difference from each energy to the next one, in the same unit.
    rises: Vec<i64>,
    /// Whether no difference is below the one before.
    is_convex: bool,
    /// The steepest slope for which heights have 64 bits, if they have at all.
    steepest: Option<u64>,
}

impl Model for Table {
    ghost use Rattle.cef_mix.specs.Tables.{Mixed, mixed_code, IsTable};

    ghost Value = { Mixed };

    ghost coded = { mixed_code };

    ghost view = { λ b. record { t = b.t; lattice = b.lattice; ratio = b.ratio } };

    ghost invariant = { λ b. IsTable b.t b.lattice b.ratio b.energies.items b.rises.items b.is_convex b.steepest };
}

impl Table {
    /// The table of a sublattice. It takes 16 bytes for each of its N + 1 energies.
    pub fn build(
        alloc: Global,
        t: u32,
        lattice: u32,
        ratio: u32,
        logs: &Logs,
    ) -> Result<Table, AllocError>
        requires hottest { t ≤ HIGHEST_TEMPERATURE }
        requires lattice_low { 1 ≤ lattice }
        requires lattice_high { lattice ≤ 1000 }
        requires ratio { ratio ≤ MOST_RATIOS }
        requires room { 600000 * t * ratio ≤ MOST_ENERGY }
        requires reach { lattice ≤ logs.now }
        ensures { IfOk result (λ table. table ≡ record { t = t; lattice = lattice; ratio = ratio }) }
    {
        let energies = energies_of(alloc, t, lattice, ratio, logs)?;
        let rises = rises_of(alloc, energies.as_slice())?;
        let is_convex = are_ordered(rises.as_slice());
        Ok(Table {
            t,
            lattice,
            ratio,
            energies,
            rises,
            is_convex,
            steepest: steepest(t, lattice, ratio),
        })
    }

    /// The ratio of the sublattice.
    pub fn ratio(&self) -> u32
        ensures { result ≡ self.now.ratio }
    {
        self.ratio
    }

    /// The energy of mixing of so many parts, in µJ per mol of formula units.
    pub fn h(&self, k: u16) -> i128
        requires { k ≤ self.now.lattice }
        ensures { result ≡ mixing_at self.now.t self.now.lattice self.now.ratio k }
    {
        i128::from(self.energies[usize::from(k)])
    }

    /// How much more the energy is at a high count than at a low one.
    #[tactic(auto, using(crate::proofs::Rises::between))]
    pub fn rise(&self, low: u16, high: u16) -> i64
        requires low { low ≤ self.now.lattice }
        requires high { high ≤ self.now.lattice }
        ensures exact { result ≡ mixing_at self.now.t self.now.lattice self.now.ratio high -ℤ mixing_at self.now.t self.now.lattice self.now.ratio low }
        ensures size { unsigned_abs result ≤ 2 * MOST_ENERGY }
    {
        let energies = self.energies.as_slice();
        rise(energies[usize::from(low)], energies[usize::from(high)])
    }

    /// Whether heights over a slope have 64 bits.
    fn is_narrow(&self, slope: i128) -> bool
        ensures { OnTrue result (IsNarrow self.now.t self.now.lattice self.now.ratio (unsigned_abs slope)) }
    {
        match self.steepest {
            None => false,
            Some(steepest) => slope.unsigned_abs() <= u128::from(steepest),
        }
    }

    /// The least of 2^16 times the energy less the slope's share, from the low to the high count.
    #[tactic(auto, using(crate::proofs::Halves::as_mixing))]
    pub fn least_on(&self, low: u16, high: u16, slope: i128) -> Least
        requires order { low ≤ high }
        requires within { high ≤ self.now.lattice }
        requires slope { unsigned_abs slope * self.now.lattice ≤ 2 ^ 119 }
        ensures { IsLeastOn (mixing_at self.now.t self.now.lattice self.now.ratio) slope low high result.place result.height }
    {
        let energies = self.energies.as_slice();
        let rises = self.rises.as_slice();
        if !self.is_convex {
            return least_of_all(energies, low, high, slope);
        }
        if self.is_narrow(slope) {
            return least_narrow(energies, rises, low, high, slope as i64);
        }
        least_by_halves(energies, rises, low, high, slope)
    }
}

/// The steepest slope of which N counts and the energies have room together.
fn steepest(t: u32, lattice: u32, ratio: u32) -> Option<u64>
    requires lattice { 1 ≤ lattice }
    requires room { 600000 * t * ratio ≤ MOST_ENERGY }
    ensures { (s : ℕ) → result ≡ Some s → IsNarrow t lattice ratio s }
{
    if 600_000 * u64::from(t) * u64::from(ratio) <= MOST_NARROW {
        Some((1 << 61) / u64::from(lattice))
    } else {
        None
    }
}

/// The energies of mixing of 0 to N parts.
fn energies_of(
    alloc: Global,
    t: u32,
    lattice: u32,
    ratio: u32,
    logs: &Logs,
) -> Result<Vec<i64>, AllocError>
    requires hottest { t ≤ HIGHEST_TEMPERATURE }
    requires lattice_low { 1 ≤ lattice }
    requires lattice_high { lattice ≤ 1000 }
    requires ratio { ratio ≤ MOST_RATIOS }
    requires room { 600000 * t * ratio ≤ MOST_ENERGY }
    requires reach { lattice ≤ logs.now }
    ensures { IfOk result (λ energies. AreEnergies t lattice ratio energies.items) }
{
    let mut energies = Vec::with_capacity(alloc, lattice as usize + 1)?;
    energies.push(0)?;
    'each: for k in 1..lattice + 1 {
        energies.push(mixing(t, lattice, ratio, k, logs))?;
    }
    Ok(energies)
}

/// The energy of mixing of k parts of N, at least one.
#[tactic(auto, using(crate::proofs::Energies::mixing_rules))]
fn mixing(t: u32, n: u32, ratio: u32, k: u32, logs: &Logs) -> i64
    requires hottest { t ≤ HIGHEST_TEMPERATURE }
    requires lattice { n ≤ 1000 }
    requires ratio { ratio ≤ MOST_RATIOS }
    requires room { 600000 * t * ratio ≤ MOST_ENERGY }
    requires reach { n ≤ logs.now }
    requires some { 1 ≤ k }
    requires within { k ≤ n }
    ensures exact { result ≡ mixing_at t n ratio k }
    ensures small { unsigned_abs result ≤ 600000 * t * ratio }
{
    let log = logs.at(n).unsigned_abs() - logs.at(k).unsigned_abs();
    let number = spent(t, n, ratio, k, log);
    0 - number as i64
}

/// What mixing takes off an energy, for the logarithm of N over k.
#[tactic(auto, using(crate::proofs::Energies::spent_rules))]
fn spent(t: u32, n: u32, ratio: u32, k: u32, log: u128) -> u128
    requires hottest { t ≤ HIGHEST_TEMPERATURE }
    requires lattice { n ≤ 1000 }
    requires ratio { ratio ≤ MOST_RATIOS }
    requires some { 1 ≤ k }
    requires within { k ≤ n }
    requires log { log ≤ 7216000000000000 }
    ensures exact { result ≡ GAS_CONSTANT * t * ratio * k * log / (n * 10000000000000000) }
    ensures small { result ≤ 600000 * t * ratio }
{
    let energy = u128::from(GAS_CONSTANT) * u128::from(t) * u128::from(ratio);
    energy * u128::from(k) * log / (u128::from(n) * 10_000_000_000_000_000)
}

/// The difference from an energy to the next.
#[tactic(auto, using(crate::proofs::Heights::heights))]
fn rise(here: i64, next: i64) -> i64
    requires here { unsigned_abs here ≤ MOST_ENERGY }
    requires next { unsigned_abs next ≤ MOST_ENERGY }
    ensures exact { result ≡ next -ℤ here }
    ensures size { unsigned_abs result ≤ 2 * MOST_ENERGY }
{
    next - here
}

/// The differences from each energy to the next one.
fn rises_of(alloc: Global, energies: &[i64]) -> Result<Vec<i64>, AllocError>
    requires some { 1 ≤ length energies.now }
    requires small { (k : ℕ) → unsigned_abs (entry energies.now k) ≤ MOST_ENERGY }
    ensures { IfOk result (λ rises. AreRises energies.now rises.items) }
{
    let mut rises = Vec::with_capacity(alloc, energies.len() - 1)?;
    'each: for k in 1..energies.len() {
        rises.push(rise(energies[k - 1], energies[k]))?;
    }
    Ok(rises)
}

/// Whether no difference is below the one before.
fn are_ordered(rises: &[i64]) -> bool
    ensures { OnTrue result (AreOrdered rises.now) }
{
    'each: for k in 1..rises.len() {
        let before = rises[k - 1];
        let behind = rises[k];
        if behind < before {
            return false;
        }
    }
    true
}
