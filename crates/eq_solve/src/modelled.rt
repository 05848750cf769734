//! The phases of a system with their models, and a search in each.

ghost use Rattle.std.specs.Prelude.{◌≡◌, ℕ, ◌<◌, ◌≤◌, map, length, pos, IfOk};
ghost use Rattle.cal_math.specs.Vectors.{at};
ghost use Rattle.cef_core.specs.Constitutions.{content};
ghost use Rattle.eq_sweep.specs.Sweeps.{IsSweep};
ghost use Rattle.eq_solve.specs.Points.{IsColumnOf, IsListOf};
ghost use Rattle.eq_solve.specs.Modelled.{IsReady};

use crate::coarse::end_members;
use crate::phases::Phases;
use crate::search::Search;
use cef_core::{PhaseAt, Site, System, content};
use cef_phase::PhaseModel;
use cef_report::Entry;
use eq_sweep::{Swept, sweep};
use lp_core::Column;
use std::alloc::{AllocError, Global};

/// The phases of a system with their models, and a search in each.
#[derive(Drop)]
pub(crate) struct Modelled<'a, P> {
    pub(crate) system: &'a System,
    pub(crate) models: &'a [P],
    pub(crate) searches: Vec<Search>,
}

/// A search in each phase.
pub(crate) fn searches_of<P: PhaseModel>(
    alloc: Global,
    models: &[P],
    components: usize,
) -> Result<Vec<Search>, AllocError> {
    let mut searches = Vec::new(alloc);
    'models: for model in models {
        searches.push(Search::build(alloc, model, components)?)?;
    }
    Ok(searches)
}

/// Appends lists of counts of a phase, with the amount 0.
fn append(phase: usize, sites: Vec<Site>, entries: &mut Vec<Entry>) -> Result<(), AllocError> {
    'sites: for site in sites {
        entries.push(Entry {
            phase,
            amount: 0,
            site,
        })?;
    }
    Ok(())
}

/// The lists of one constituent alone on each sublattice of all phases, with the amount 0.
pub(crate) fn starts_of(alloc: Global, phases: &[PhaseAt]) -> Result<Vec<Entry>, AllocError> {
    let mut starts = Vec::new(alloc);
    'phases: for place in 0..phases.len() {
        append(place, end_members(alloc, &phases[place])?, &mut starts)?;
    }
    Ok(starts)
}

/// The prices of a plan in 2^-16 µJ/mol per 1/N, rounded down.
fn prices_of(
    alloc: Global,
    potentials: &[i128],
    denominator: i128,
) -> Result<Vec<i128>, AllocError> {
    let mut prices = Vec::new(alloc);
    'components: for potential in potentials {
        let scaled = potential.saturating_mul(65536);
        prices.push(scaled.checked_div_euclid(denominator).unwrap_or(0))?;
    }
    Ok(prices)
}

/// What a list of counts holds of each component.
fn amounts_in(
    alloc: Global,
    phase: &PhaseAt,
    site: &Site,
    components: usize,
) -> Result<Vec<i128>, AllocError>
    ensures same { IfOk result (λ amounts. length amounts.items ≡ components) }
    ensures are { IfOk result (λ amounts. (c : ℕ) → c < components → at amounts.items c ≡ content phase.now site.now c) }
{
    let mut amounts = Vec::new(alloc);
    'components: for component in 0..components {
        amounts.push(content(phase, site, component))?;
    }
    Ok(amounts)
}

impl<P: PhaseModel> Modelled<'_, P> {
    /// What a list of counts of the phase at a place holds and costs.
    fn column_at(&self, alloc: Global, place: usize, site: &Site) -> Result<Column, AllocError>
        requires models { map P.phase_of self.now.models.now ≡ self.now.system.now.phases }
        requires list { IsListOf self.now.system.now (record { phase = place; amount = pos 0; site = site.now }) }
        ensures { IfOk result (λ column. IsColumnOf self.now.system.now (record { phase = place; amount = pos 0; site = site.now }) column) }
    {
        let phase = &self.system.phases.as_slice()[place];
        let amounts = amounts_in(alloc, phase, site, self.system.elements.len())?;
        let model = &self.models[place];
        let cost = model.value(site);
        Ok(Column { cost, amounts })
    }

    /// The coarse lists below the plane, one a phase at most.
    fn coarse_below(&self, alloc: Global, prices: &[i128]) -> Result<Vec<Entry>, AllocError> {
        let mut entries = Vec::new(alloc);
        'phases: for phase in 0..self.searches.len() {
            if let Some(site) = self.searches[phase].coarse_below(alloc, prices)? {
                entries.push(Entry {
                    phase,
                    amount: 0,
                    site,
                })?;
            }
        }
        Ok(entries)
    }

    /// The lists below the plane at which descents end.
    fn deep_below(
        &self,
        alloc: Global,
        prices: &[i128],
        known: &[Entry],
        columns: &[Column],
    ) -> Result<Vec<Entry>, AllocError> {
        let mut entries = Vec::new(alloc);
        'phases: for phase in 0..self.searches.len() {
            if phase < self.models.len() {
                let model = &self.models[phase];
                let sites = self.searches[phase].below(
                    alloc, model, phase, prices, known, columns,
                )?;
                append(phase, sites, &mut entries)?;
            }
        }
        Ok(entries)
    }
}

impl<P: PhaseModel> Phases for Modelled<'_, P> {
    ghost system = { λ s. s.system.now };

    ghost ready = { λ s. IsReady s.system.now (map P.phase_of s.models.now) };

    ghost swept = { λ s. IsSweep s.system.now.phases };

    fn sweep(&self, alloc: Global, potentials: &[i128], budget: u64) -> Result<Swept, AllocError> {
        let swept = sweep(alloc, self.models, potentials, budget)?;
        Ok(swept)
    }

    fn propose(
        &self,
        alloc: Global,
        potentials: &[i128],
        denominator: i128,
        known: &[Entry],
        columns: &[Column],
    ) -> Result<Vec<Entry>, AllocError> {
        let prices = prices_of(alloc, potentials, denominator)?;
        let coarse = self.coarse_below(alloc, &prices)?;
        if coarse.is_empty() {
            let deep = self.deep_below(alloc, &prices, known, columns)?;
            Ok(deep)
        } else {
            Ok(coarse)
        }
    }

    fn column(&self, alloc: Global, entry: &Entry) -> Result<Column, AllocError> {
        let column = self.column_at(alloc, entry.phase, &entry.site)?;
        Ok(column)
    }
}
