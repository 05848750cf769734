//! Coarse lists of counts of a phase, from which a search starts. Nothing rests on which they are.

use cal_list::Items;
use cef_core::{PhaseAt, Site};
use std::alloc::{AllocError, Global};

/// The most lists of a phase.
const MOST_COARSE: usize = 400;

/// Into how many steps N is cut at most.
const MOST_STEPS: u16 = 10;

/// In how many ways so many steps are shared among sites, counted up to the first number above the limit.
fn ways(sites: usize, steps: u64, limit: u64) -> u64 {
    let mut count: u64 = 1;
    'sites: for j in 1..sites as u64 {
        count = count.saturating_mul(steps.saturating_add(j)) / j;
        if count > limit {
            return count;
        }
    }
    count
}

/// Into how many steps N is cut on a sublattice, so that these are shared in few ways.
fn steps_of(sites: usize, most: u64) -> u16 {
    'steps: for steps in 2..MOST_STEPS + 1 {
        if ways(sites, u64::from(steps), most) > most {
            return steps - 1;
        }
    }
    MOST_STEPS
}

/// How many lists a sublattice may have, by the number of sublattices with several constituents.
fn share_of(open: usize) -> u64 {
    match open {
        0 | 1 => 200,
        2 => 14,
        3 => 5,
        4 => 3,
        _ => 2,
    }
}

/// How many sublattices have several constituents.
fn open_of(sublattices: &[Items<Option<u16>>]) -> usize {
    let mut open: usize = 0;
    'sublattices: for sites in sublattices {
        if sites.len() > 1 {
            open = open.saturating_add(1);
        }
    }
    open
}

/// The next way to share the same number of steps, or false behind the last one.
fn advance(shares: &mut [u16]) -> bool {
    'sites: for place in 0..shares.len() {
        let here = shares[place];
        if here > 0 {
            if place + 1 >= shares.len() {
                return false;
            }
            shares[place] = 0;
            shares[0] = here - 1;
            shares[place + 1] = shares[place + 1].saturating_add(1);
            return true;
        }
    }
    false
}

/// The place of the greatest share.
fn greatest_of(shares: &[u16]) -> usize {
    let mut best = 0;
    let mut most = 0;
    'sites: for place in 0..shares.len() {
        if shares[place] > most {
            best = place;
            most = shares[place];
        }
    }
    best
}

/// The counts of these shares of N, what is lost by rounding added to the greatest.
fn counts_of(alloc: Global, n: u16, steps: u16, shares: &[u16]) -> Result<Vec<u16>, AllocError> {
    let greatest = greatest_of(shares);
    let mut counts = Vec::new(alloc);
    let mut left = n;
    'sites: for place in 0..shares.len() {
        let count = if place == greatest {
            0
        } else {
            n.saturating_mul(shares[place])
                .checked_div(steps)
                .unwrap_or(0)
        };
        left = left.saturating_sub(count);
        counts.push(count)?;
    }
    if greatest < counts.len() {
        counts[greatest] = left;
    }
    Ok(counts)
}

/// The shares before the first way: all steps at the first site.
fn first_shares(alloc: Global, sites: usize, steps: u16) -> Result<Vec<u16>, AllocError> {
    let mut shares = Vec::new(alloc);
    'sites: for place in 0..sites {
        shares.push(if place == 0 { steps } else { 0 })?;
    }
    Ok(shares)
}

/// The counts of a sublattice in steps.
fn rows_of(alloc: Global, n: u16, sites: usize, steps: u16) -> Result<Vec<Vec<u16>>, AllocError> {
    let mut shares = first_shares(alloc, sites, steps)?;
    let mut rows = Vec::new(alloc);
    'ways: for _way in 0..MOST_COARSE {
        rows.push(counts_of(alloc, n, steps, &shares)?)?;
        if !advance(&mut shares) {
            return Ok(rows);
        }
    }
    Ok(rows)
}

/// Appends the list with each of so many rows behind it.
fn extend(
    alloc: Global,
    site: &Site,
    rows: &[Vec<u16>],
    most: usize,
    lists: &mut Vec<Site>,
) -> Result<(), AllocError> {
    'rows: for row in rows {
        if lists.len() >= most {
            return Ok(());
        }
        let front = site.copy(alloc)?;
        if front.counts().len() < 4096 && row.len() < 4096 {
            let longer = front.with_sublattice(row)?;
            lists.push(longer)?;
        }
    }
    Ok(())
}

/// Each list with each row behind it.
fn crossed(alloc: Global, lists: &[Site], rows: &[Vec<u16>]) -> Result<Vec<Site>, AllocError> {
    let mut longer = Vec::new(alloc);
    'lists: for site in lists {
        extend(alloc, site, rows, MOST_COARSE, &mut longer)?;
    }
    Ok(longer)
}

/// N as a count.
fn parts_of(phase: &PhaseAt) -> u16 {
    if phase.lattice < 65536 {
        phase.lattice as u16
    } else {
        0
    }
}

/// Lists of counts of a phase, with so many for each sublattice at most where these are not too few.
fn lists_in_steps(alloc: Global, phase: &PhaseAt, share: u64) -> Result<Vec<Site>, AllocError> {
    let mut lists = Vec::new(alloc);
    lists.push(Site::new(alloc))?;
    'sublattices: for sites in phase.sites.as_slice() {
        let steps = steps_of(sites.len(), share);
        let rows = rows_of(alloc, parts_of(phase), sites.len(), steps)?;
        lists = crossed(alloc, &lists, &rows)?;
    }
    Ok(lists)
}

/// The lists of one constituent alone on each sublattice.
pub(crate) fn end_members(alloc: Global, phase: &PhaseAt) -> Result<Vec<Site>, AllocError> {
    lists_in_steps(alloc, phase, 0)
}

/// Lists of a few hundred at most, all over the phase.
pub(crate) fn coarse_lists(alloc: Global, phase: &PhaseAt) -> Result<Vec<Site>, AllocError> {
    lists_in_steps(alloc, phase, share_of(open_of(phase.sites.as_slice())))
}
