ghost use Rattle.std.specs.Prelude.{◌≡◌, ℕ, ◌+◌, ◌*◌, ◌^◌, ◌<◌, ◌≤◌, IfOk, length, slice_index, ◌-ℤ◌, unsigned_abs};
ghost use Rattle.cal_limits.specs.declared.TheConstants.{MOST_ENERGY};
ghost use Rattle.cef_core.specs.Mixing.{mixing_at};
ghost use Rattle.cef_core.specs.Phases.{IsPhase};
ghost use Rattle.cef_mix.specs.Mixes.{mixing_of_phase, IsLeastOn};

use crate::least::Least;
use crate::table::Table;
use cal_log::Logs;
use cef_core::PhaseAt;
use std::alloc::{AllocError, Global};
use std::marker::Model;

/// The energies of mixing of the sublattices of a phase. Contracts see what they depend on.
#[derive(Drop)]
pub struct Mix {
    t: u32,
    lattice: u32,
    tables: Vec<Table>,
}

impl Model for Mix {
    ghost use Rattle.std.specs.Prelude.{◌≡◌, map};
    ghost use Rattle.std.specs.List.{AllByRecursion};
    ghost use Rattle.cef_mix.specs.Mixes.{Mixing, mixing_code};
    ghost use Rattle.cef_mix.specs.Tables.{Mixed};

    ghost Value = { Mixing };

    ghost coded = { mixing_code };

    ghost view = { λ m. record { t = m.t; lattice = m.lattice; ratios = map (λ (b : Mixed). b.ratio) m.tables.items } };

    ghost invariant = { λ m. AllByRecursion (λ (b : Mixed). (b.t ≡ m.t) × (b.lattice ≡ m.lattice)) m.tables.items };
}

impl Mix {
    /// The tables of a phase, one for each sublattice.
    pub fn build(alloc: Global, phase: &PhaseAt, logs: &Logs) -> Result<Mix, AllocError>
        requires phase { IsPhase phase.now }
        requires reach { phase.now.lattice ≤ logs.now }
        ensures { IfOk result (λ mix. mix ≡ mixing_of_phase phase.now) }
    {
        let mut tables = Vec::with_capacity(alloc, phase.ratios().len())?;
        'each: for ratio in phase.ratios() {
            tables.push(Table::build(alloc, phase.temperature(), phase.parts(), *ratio, logs)?)?;
        }
        Ok(Mix {
            t: phase.temperature(),
            lattice: phase.parts(),
            tables,
        })
    }

    /// The number N of parts of each sublattice.
    pub fn parts(&self) -> u32
        ensures { result ≡ self.now.lattice }
    {
        self.lattice
    }

    /// The energy of mixing of k of N parts of a site of the sublattice, in µJ per mol of formula units.
    pub fn h(&self, sublattice: usize, k: u16) -> i128
        requires sublattice { sublattice < length self.now.ratios }
        requires within { k ≤ self.now.lattice }
        ensures { result ≡ mixing_at self.now.t self.now.lattice (slice_index self.now.ratios sublattice) k }
    {
        self.tables[sublattice].h(k)
    }

    /// How much more the energy of mixing is at a high count than at a low one, in µJ per mol of formula units.
    pub fn rise(&self, sublattice: usize, low: u16, high: u16) -> i64
        requires sublattice { sublattice < length self.now.ratios }
        requires low { low ≤ self.now.lattice }
        requires high { high ≤ self.now.lattice }
        ensures exact { result ≡ mixing_at self.now.t self.now.lattice (slice_index self.now.ratios sublattice) high -ℤ mixing_at self.now.t self.now.lattice (slice_index self.now.ratios sublattice) low }
        ensures size { unsigned_abs result ≤ 2 * MOST_ENERGY }
    {
        self.tables[sublattice].rise(low, high)
    }

    /// The least of 2^16 times the energy of mixing less the slope's share of the count, from the low to the high count, and
    /// where it is.
    pub fn least_on(&self, sublattice: usize, low: u16, high: u16, slope: i128) -> Least
        requires sublattice { sublattice < length self.now.ratios }
        requires order { low ≤ high }
        requires within { high ≤ self.now.lattice }
        requires slope { unsigned_abs slope * self.now.lattice ≤ 2 ^ 119 }
        ensures { IsLeastOn (mixing_at self.now.t self.now.lattice (slice_index self.now.ratios sublattice)) slope low high result.place result.height }
    {
        self.tables[sublattice].least_on(low, high, slope)
    }
}
