//! A search for constitutions of a phase below a plane. Nothing rests on what it finds: what is proposed is tested.

use crate::coarse::coarse_lists;
use crate::descent::{Exchange, Plane, descend, exchanges_of, plane_of};
use cef_core::{Site, content, has_content, is_list};
use cef_phase::PhaseModel;
use cef_report::Entry;
use lp_core::Column;
use std::alloc::{AllocError, Global};

/// How far above the plane, in µJ per mol of components, a list of counts lies from which no search is made.
const MOST_HEIGHT: i128 = 3_000_000_000;

/// A coarse list of a phase, with what it holds and costs.
#[derive(Drop)]
struct Coarse {
    site: Site,
    column: Column,
}

/// What a search in a phase starts from.
#[derive(Drop)]
pub(crate) struct Search {
    coarse: Vec<Coarse>,
    exchanges: Vec<Exchange>,
}

/// How far a column lies above the plane of the prices, in 2^-16 µJ/mol of formula units.
pub(crate) fn height_of(prices: &[i128], column: &Column) -> i128 {
    let mut worth: i128 = 0;
    'components: for place in 0..column.amounts.len() {
        if place < prices.len() {
            worth = worth.saturating_add(prices[place].saturating_mul(column.amounts[place]));
        }
    }
    column.cost.saturating_mul(65536).saturating_sub(worth)
}

/// How much a column holds in all.
pub(crate) fn amount_of(column: &Column) -> i128 {
    let mut sum: i128 = 0;
    'components: for amount in &column.amounts {
        sum = sum.saturating_add(*amount);
    }
    sum
}

/// Whether a column lies so near the plane that a search from there may come below it.
fn is_near(prices: &[i128], column: &Column, lattice: u32) -> bool {
    let most = MOST_HEIGHT
        .saturating_mul(65536)
        .checked_div(i128::from(lattice))
        .unwrap_or(0);
    height_of(prices, column) < most.saturating_mul(amount_of(column))
}

/// What a list of counts holds of each component.
fn amounts_in<P: PhaseModel>(
    alloc: Global,
    model: &P,
    site: &Site,
    components: usize,
) -> Result<Vec<i128>, AllocError> {
    let mut amounts = Vec::new(alloc);
    'components: for component in 0..components {
        amounts.push(content(model.phase(), site, component))?;
    }
    Ok(amounts)
}

/// A list of counts with its column, where it is one of the phase and holds something.
fn coarse_of<P: PhaseModel>(
    alloc: Global,
    model: &P,
    site: Site,
    components: usize,
) -> Result<Option<Coarse>, AllocError> {
    if !has_content(model.phase(), &site) {
        return Ok(None);
    }
    if is_list(model.phase(), &site) {
        let cost = model.value(&site);
        let amounts = amounts_in(alloc, model, &site, components)?;
        return Ok(Some(Coarse {
            site,
            column: Column { cost, amounts },
        }));
    }
    Ok(None)
}

/// The coarse lists of a phase with their columns.
fn coarse_columns<P: PhaseModel>(
    alloc: Global,
    model: &P,
    components: usize,
) -> Result<Vec<Coarse>, AllocError> {
    let mut coarse = Vec::new(alloc);
    'lists: for site in coarse_lists(alloc, model.phase())? {
        if let Some(one) = coarse_of(alloc, model, site, components)? {
            coarse.push(one)?;
        }
    }
    Ok(coarse)
}

/// The place of the known entry of the phase that lies lowest, other than the one at a place; behind all where there is none.
fn lowest_known(
    phase: usize,
    prices: &[i128],
    known: &[Entry],
    columns: &[Column],
    other: usize,
) -> usize {
    let mut best = known.len();
    let mut least = i128::MAX;
    'known: for place in 0..known.len() {
        if known[place].phase == phase && place != other && place < columns.len() {
            let height = height_of(prices, &columns[place]);
            if height < least {
                best = place;
                least = height;
            }
        }
    }
    best
}

impl Search {
    /// The search in the phase of a model.
    pub(crate) fn build<P: PhaseModel>(
        alloc: Global,
        model: &P,
        components: usize,
    ) -> Result<Search, AllocError> {
        let coarse = coarse_columns(alloc, model, components)?;
        let exchanges = exchanges_of(alloc, model.phase())?;
        Ok(Search { coarse, exchanges })
    }

    /// The place of the coarse list that lies lowest; behind all where there is none.
    fn lowest(&self, prices: &[i128]) -> usize {
        let mut best = self.coarse.len();
        let mut least = i128::MAX;
        'lists: for place in 0..self.coarse.len() {
            let height = height_of(prices, &self.coarse[place].column);
            if height < least {
                best = place;
                least = height;
            }
        }
        best
    }

    /// The coarse list that lies lowest, where that is below the plane.
    pub(crate) fn coarse_below(
        &self,
        alloc: Global,
        prices: &[i128],
    ) -> Result<Option<Site>, AllocError> {
        let place = self.lowest(prices);
        if place < self.coarse.len() {
            let coarse = &self.coarse[place];
            if height_of(prices, &coarse.column) < 0 {
                let site = coarse.site.copy(alloc)?;
                return Ok(Some(site));
            }
        }
        Ok(None)
    }

    /// The end of a descent from a list of counts, where that is near the plane and the end below it.
    fn below_from<P: PhaseModel>(
        &self,
        alloc: Global,
        model: &P,
        plane: &Plane,
        prices: &[i128],
        site: &Site,
        column: &Column,
    ) -> Result<Option<Site>, AllocError> {
        if !is_near(prices, column, model.phase().lattice) {
            return Ok(None);
        }
        match descend(alloc, model, plane, &self.exchanges, site)? {
            None => Ok(None),
            Some(spot) => {
                if spot.height < 0 {
                    Ok(Some(spot.site))
                } else {
                    Ok(None)
                }
            }
        }
    }

    /// The end of a descent from the known entry at a place, where there is one.
    fn below_known<P: PhaseModel>(
        &self,
        alloc: Global,
        model: &P,
        plane: &Plane,
        prices: &[i128],
        known: &[Entry],
        columns: &[Column],
        place: usize,
    ) -> Result<Option<Site>, AllocError> {
        if place < known.len() && place < columns.len() {
            let site = &known[place].site;
            let found = self.below_from(alloc, model, plane, prices, site, &columns[place])?;
            Ok(found)
        } else {
            Ok(None)
        }
    }

    /// The end of a descent from the coarse list that lies lowest.
    fn below_coarse<P: PhaseModel>(
        &self,
        alloc: Global,
        model: &P,
        plane: &Plane,
        prices: &[i128],
    ) -> Result<Option<Site>, AllocError> {
        let place = self.lowest(prices);
        if place < self.coarse.len() {
            let coarse = &self.coarse[place];
            let found = self.below_from(alloc, model, plane, prices, &coarse.site, &coarse.column)?;
            Ok(found)
        } else {
            Ok(None)
        }
    }

    /// The ends of descents from the two known entries of the phase that lie lowest, and from the lowest coarse list.
    pub(crate) fn below<P: PhaseModel>(
        &self,
        alloc: Global,
        model: &P,
        phase: usize,
        prices: &[i128],
        known: &[Entry],
        columns: &[Column],
    ) -> Result<Vec<Site>, AllocError> {
        let plane = plane_of(alloc, model.phase(), prices)?;
        let first = lowest_known(phase, prices, known, columns, known.len());
        let second = lowest_known(phase, prices, known, columns, first);
        let mut sites = Vec::new(alloc);
        if let Some(site) = self.below_coarse(alloc, model, &plane, prices)? {
            sites.push(site)?;
        }
        if let Some(site) = self.below_known(
            alloc, model, &plane, prices, known, columns, second,
        )? {
            sites.push(site)?;
        }
        if let Some(site) = self.below_known(alloc, model, &plane, prices, known, columns, first)? {
            sites.push(site)?;
        }
        Ok(sites)
    }
}
