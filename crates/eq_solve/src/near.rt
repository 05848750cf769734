//! The known constitutions that a further equilibrium may start from. Nothing rests on which they are.

use crate::known::Known;
use crate::search::{amount_of, height_of};
use cef_report::Entry;
use lp_core::Column;
use std::alloc::{AllocError, Global};

/// How many are kept at most.
const MOST_NEAR: usize = 40;

/// How far a column lies above the plane, in 2^-16 µJ/mol per 1/N.
fn height_each(potentials: &[i128], column: &Column) -> i128 {
    height_of(potentials, column)
        .checked_div(amount_of(column))
        .unwrap_or(i128::MAX)
}

/// The places of the columns, the lowest first, each behind its height.
fn ranked(
    alloc: Global,
    potentials: &[i128],
    columns: &[Column],
) -> Result<Vec<(i128, usize)>, AllocError> {
    let mut ranked = Vec::new(alloc);
    'columns: for place in 0..columns.len() {
        ranked.push((height_each(potentials, &columns[place]), place))?;
    }
    ranked.sort_unstable();
    Ok(ranked)
}

/// The known constitutions that lie nearest to the plane of the potentials.
pub(crate) fn nearest(
    alloc: Global,
    potentials: &[i128],
    known: &Known,
) -> Result<Vec<Entry>, AllocError> {
    let ranked = ranked(alloc, potentials, &known.columns)?;
    let mut near = Vec::new(alloc);
    'ranked: for (_, place) in ranked.iter().take(MOST_NEAR) {
        if *place < known.entries.len() {
            let entry = &known.entries[*place];
            let site = entry.site.copy(alloc)?;
            near.push(Entry {
                phase: entry.phase,
                amount: 0,
                site,
            })?;
        }
    }
    Ok(near)
}
