//! Descents: from a list of counts to one that lies lower above a plane, a few counts at a time. Nothing rests on where they end.

use cef_core::{PhaseAt, Site, is_list};
use cef_phase::PhaseModel;
use std::alloc::{AllocError, Global};

/// How often all exchanges are tried at most.
const MOST_PASSES: usize = 200;

/// Counts that go from one site of a sublattice to another. Places count on over the sublattices.
#[derive(Clone, Copy)]
pub(crate) struct Exchange {
    from: usize,
    to: usize,
}

/// A list of counts, and how far it lies above a plane, in 2^-16 µJ/mol of formula units.
#[derive(Drop)]
pub(crate) struct Spot {
    pub(crate) site: Site,
    pub(crate) height: i128,
}

/// The plane of a phase: for each of its sites, what a count there is worth.
#[derive(Drop)]
pub(crate) struct Plane {
    slopes: Vec<i128>,
}

/// Appends the exchanges from one site of a sublattice to each other one.
fn exchanges_from(
    start: usize,
    end: usize,
    from: usize,
    exchanges: &mut Vec<Exchange>,
) -> Result<(), AllocError> {
    'sites: for to in start..end {
        if to != from {
            exchanges.push(Exchange { from, to })?;
        }
    }
    Ok(())
}

/// Appends all exchanges of a sublattice.
fn exchanges_in(start: usize, end: usize, exchanges: &mut Vec<Exchange>) -> Result<(), AllocError> {
    'sites: for from in start..end {
        exchanges_from(start, end, from, exchanges)?;
    }
    Ok(())
}

/// All exchanges of a phase.
pub(crate) fn exchanges_of(alloc: Global, phase: &PhaseAt) -> Result<Vec<Exchange>, AllocError> {
    let mut exchanges = Vec::new(alloc);
    let mut start: usize = 0;
    'sublattices: for sites in phase.sites.as_slice() {
        let end = start.saturating_add(sites.len());
        exchanges_in(start, end, &mut exchanges)?;
        start = end;
    }
    Ok(exchanges)
}

/// What a count of a site is worth.
fn slope_of(prices: &[i128], ratio: u32, site: Option<u16>) -> i128 {
    match site {
        None => 0,
        Some(component) => {
            let place = usize::from(component);
            if place < prices.len() {
                prices[place].saturating_mul(i128::from(ratio))
            } else {
                0
            }
        }
    }
}

/// Appends the slopes of a sublattice.
fn slopes_in(
    prices: &[i128],
    ratio: u32,
    sites: &[Option<u16>],
    slopes: &mut Vec<i128>,
) -> Result<(), AllocError> {
    'sites: for site in sites {
        slopes.push(slope_of(prices, ratio, *site))?;
    }
    Ok(())
}

/// The plane of a phase at these prices, in 2^-16 µJ/mol per 1/N.
pub(crate) fn plane_of(
    alloc: Global,
    phase: &PhaseAt,
    prices: &[i128],
) -> Result<Plane, AllocError> {
    let sublattices = phase.sites.as_slice();
    let ratios = phase.ratios.as_slice();
    let mut slopes = Vec::new(alloc);
    'sublattices: for place in 0..sublattices.len() {
        if place < ratios.len() {
            slopes_in(
                prices,
                ratios[place],
                sublattices[place].as_slice(),
                &mut slopes,
            )?;
        }
    }
    Ok(Plane { slopes })
}

/// What counts are worth.
fn worth_of(slopes: &[i128], counts: &[u16]) -> i128 {
    let mut worth: i128 = 0;
    'sites: for place in 0..counts.len() {
        if place < slopes.len() {
            let here = slopes[place].saturating_mul(i128::from(counts[place]));
            worth = worth.saturating_add(here);
        }
    }
    worth
}

/// How far a list of counts lies above the plane, or none where the counts are no list of the phase.
fn height_of<P: PhaseModel>(model: &P, plane: &Plane, site: &Site) -> Option<i128> {
    if is_list(model.phase(), site) {
        let energy = model.value(site).saturating_mul(65536);
        Some(energy.saturating_sub(worth_of(&plane.slopes, site.counts())))
    } else {
        None
    }
}

/// A list after an exchange, or none where there are not enough counts.
fn after(
    alloc: Global,
    site: &Site,
    exchange: Exchange,
    step: u16,
) -> Result<Option<Site>, AllocError> {
    let mut next = site.copy(alloc)?;
    if exchange.from >= next.counts().len() || exchange.to >= next.counts().len() {
        return Ok(None);
    }
    let source = next.counts()[exchange.from];
    let target = next.counts()[exchange.to];
    if source < step {
        return Ok(None);
    }
    next.set_count(exchange.from, source - step);
    if exchange.to < next.counts().len() {
        next.set_count(exchange.to, target.saturating_add(step));
    }
    Ok(Some(next))
}

/// The spot after an exchange, where that is lower.
fn lower<P: PhaseModel>(
    alloc: Global,
    model: &P,
    plane: &Plane,
    spot: &Spot,
    exchange: Exchange,
    step: u16,
) -> Result<Option<Spot>, AllocError> {
    let next = after(alloc, &spot.site, exchange, step)?;
    let Some(site) = next else {
        return Ok(None);
    };
    match height_of(model, plane, &site) {
        None => Ok(None),
        Some(height) => {
            if height < spot.height {
                Ok(Some(Spot { site, height }))
            } else {
                Ok(None)
            }
        }
    }
}

/// Exchanges as long as that goes lower.
fn slide<P: PhaseModel>(
    alloc: Global,
    model: &P,
    plane: &Plane,
    start: Spot,
    exchange: Exchange,
    step: u16,
) -> Result<Spot, AllocError> {
    let mut spot = start;
    'counts: for _count in 0..1000 {
        match lower(alloc, model, plane, &spot, exchange, step)? {
            None => return Ok(spot),
            Some(next) => spot = next,
        }
    }
    Ok(spot)
}

/// Each exchange as long as it goes lower.
fn pass<P: PhaseModel>(
    alloc: Global,
    model: &P,
    plane: &Plane,
    exchanges: &[Exchange],
    start: Spot,
    step: u16,
) -> Result<Spot, AllocError> {
    let mut spot = start;
    'exchanges: for exchange in exchanges {
        spot = slide(alloc, model, plane, spot, *exchange, step)?;
    }
    Ok(spot)
}

/// An eighth of N.
fn first_step(phase: &PhaseAt) -> u16 {
    let eighth = phase.lattice / 8;
    if eighth < 1 {
        1
    } else if eighth > 125 {
        125
    } else {
        eighth as u16
    }
}

/// Down from a list of counts, by ever smaller steps; none where the counts are no list of the phase.
pub(crate) fn descend<P: PhaseModel>(
    alloc: Global,
    model: &P,
    plane: &Plane,
    exchanges: &[Exchange],
    site: &Site,
) -> Result<Option<Spot>, AllocError> {
    let Some(height) = height_of(model, plane, site) else {
        return Ok(None);
    };
    let mut spot = Spot {
        site: site.copy(alloc)?,
        height,
    };
    let mut step = first_step(model.phase());
    'passes: for _pass in 0..MOST_PASSES {
        let before = spot.height;
        spot = pass(alloc, model, plane, exchanges, spot, step)?;
        if spot.height >= before {
            if step <= 1 {
                return Ok(Some(spot));
            }
            step /= 2;
        }
    }
    Ok(Some(spot))
}
