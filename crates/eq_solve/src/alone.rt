ghost use Rattle.std.specs.Prelude.{◌≡◌, ℕ, ◌+◌, ◌<◌, ◌≤◌, ◌^◌, ◌++◌, length, List, All, Some, slice_get, IfOk, ◌≤ℤ◌};
ghost use Rattle.std.specs.Bool.{OnTrue, OnFalse};
ghost use Rattle.std.specs.List.{AllByRecursion, concat};
ghost use Rattle.cef_core.specs.declared.phase.PhaseAt.{PhaseAt};
ghost use Rattle.eq_solve.specs.Points.{IsSized, site_count};
ghost use Rattle.eq_solve.specs.Sweeps.{CanSweep};
ghost use Rattle.eq_solve.specs.Greatest.{site_value, IsBest, AreBest, alone};
ghost use Rattle.eq_solve.specs.Rounds.{IsRising, IsRisingAt};

use crate::phases::Phases;
use crate::point::{Point, point_of};
use cal_list::Items;
use cef_core::{Site, System};
use lp_basis::product;
use std::alloc::{AllocError, Global};

/// The value of a unit of a constituent.
fn value_of(v: &[i128], site: Option<u16>) -> i128
    ensures { result ≡ site_value v.now site }
{
    match site {
        None => 0,
        Some(component) => {
            let place = usize::from(component);
            if place < v.len() { v[place] } else { 0 }
        }
    }
}

/// Whether the first constituent has the greater value.
fn exceeds(v: &[i128], first: Option<u16>, second: Option<u16>) -> bool
    ensures yes { OnTrue result (site_value v.now second ≤ℤ site_value v.now first) }
    ensures no { OnFalse result (site_value v.now first ≤ℤ site_value v.now second) }
{
    let one = value_of(v, first);
    let other = value_of(v, second);
    one > other
}

/// The place of a constituent of the greatest value.
fn best_of(v: &[i128], sites: &[Option<u16>]) -> usize
    requires { 0 < length sites.now }
    ensures { IsBest v.now sites.now result }
{
    let mut best = 0;
    'sites: for place in 1..sites.len() {
        if exceeds(v, sites[place], sites[best]) {
            best = place;
        }
    }
    best
}

/// Counts with all `n` parts at a place.
fn alone_at(alloc: Global, n: u16, place: usize, size: usize) -> Result<Vec<u16>, AllocError>
    ensures { IfOk result (λ counts. counts.items ≡ alone n place size) }
{
    let mut counts = Vec::new(alloc);
    'counts: for k in 0..size {
        counts.push(if k == place { n } else { 0 })?;
    }
    Ok(counts)
}

/// The counts with those of further sublattices behind them, on each a constituent of the greatest value alone.
fn with_best(
    alloc: Global,
    n: u16,
    v: &[i128],
    sublattices: &[Items<Option<u16>>],
    site: Site,
) -> Result<Site, AllocError>
    requires some { AllByRecursion (λ sites. 0 < length sites) sublattices.now }
    requires few { length (concat site) + site_count sublattices.now < 2 ^ 16 }
    ensures { IfOk result (λ all. (more : List (List ℕ)) × (all ≡ site ++ more) × AreBest n v.now sublattices.now more) }
{
    match sublattices.split_first() {
        None => Ok(site),
        Some((first, rest)) => {
            let sites = first.as_slice();
            let place = best_of(v, sites);
            let counts = alone_at(alloc, n, place, sites.len())?;
            let longer = site.with_sublattice(&counts)?;
            let all = with_best(alloc, n, v, rest, longer)?;
            Ok(all)
        }
    }
}

/// A constitution of the phase at a place of a value above 0, where there is one.
fn rising_at<P: Phases>(
    alloc: Global,
    system: &System,
    phases: &P,
    v: &[i128],
    place: usize,
) -> Result<Option<Point>, AllocError>
    requires ready { P.ready phases.now }
    requires same { P.system phases.now ≡ system.now }
    requires sized { IsSized system.now }
    requires small { CanSweep system.now v.now }
    requires place { place < length system.now.phases }
    ensures { IfOk result (λ found. IsRisingAt system.now v.now place found) }
{
    let phase = &system.phases.as_slice()[place];
    let n = phase.lattice as u16;
    let site = with_best(alloc, n, v, phase.sites.as_slice(), Site::new(alloc))?;
    let point = point_of(alloc, phases, place, site)?;
    if product(v, &point.column.amounts) > 0 {
        Ok(Some(point))
    } else {
        Ok(None)
    }
}

/// A constitution of a value above 0, where there is one.
pub(crate) fn rising<P: Phases>(
    alloc: Global,
    system: &System,
    phases: &P,
    v: &[i128],
) -> Result<Option<Point>, AllocError>
    requires ready { P.ready phases.now }
    requires same { P.system phases.now ≡ system.now }
    requires sized { IsSized system.now }
    requires small { CanSweep system.now v.now }
    ensures { IfOk result (λ found. IsRising system.now v.now found) }
{
    'phases: for place in 0..system.phases.len() {
        let found = rising_at(alloc, system, phases, v, place)?;
        if let Some(point) = found {
            return Ok(Some(point));
        }
    }
    Ok(None)
}
