ghost use Rattle.std.specs.Prelude.{◌≡◌, ℕ, ◌<◌, ◌≤◌, length, map, filter, pos, ◌≤ℤ◌, IfOk};
ghost use Rattle.std.specs.List.{AllByRecursion};
ghost use Rattle.eq_solve.specs.Figures.{AreClose, is_some, entry_at};
ghost use Rattle.eq_solve.specs.Finding.{AreFigures};

use crate::amount::{entries_of, some_of, totals_of};
use crate::figure::{energy_of, gap_of, left_in, tolerance_of};
use cal_list::Items;
use cef_report::Entry;
use cef_tree::Tree;
use lp_core::Column;
use std::alloc::{AllocError, Global};

/// The numbers of an equilibrium with its certificate.
#[derive(Drop)]
pub(crate) struct Found {
    pub(crate) entries: Items<Entry>,
    /// For each element, in units of 1/N nmol.
    pub(crate) totals: Items<i128>,
    /// In fJ.
    pub(crate) energy: i128,
    /// The greatest difference of a total from the asked one, in units of 1/N nmol.
    pub(crate) tolerance: i128,
    /// In fJ.
    pub(crate) gap: i128,
    /// For each element, in 2^-16 µJ/mol per 1/N.
    pub(crate) potentials: Items<i128>,
    /// One for each phase.
    pub(crate) trees: Items<Tree>,
}

/// The entries of at least 1.
fn some_entries(
    alloc: Global,
    known: &[Entry],
    amounts: &[(usize, i128)],
) -> Result<Items<Entry>, AllocError>
    requires { AllByRecursion (λ w. (w.0 < length known.now) × (pos 0 ≤ℤ w.1)) amounts.now }
    ensures { IfOk result (λ entries. entries ≡ map (entry_at known.now) (filter is_some amounts.now)) }
{
    let some = some_of(alloc, amounts)?;
    let entries = entries_of(alloc, known, &some)?;
    Ok(entries)
}

/// The numbers of an equilibrium of these amounts under these potentials.
pub(crate) fn found_of(
    alloc: Global,
    known: &[Entry],
    columns: &[Column],
    asked: &[i128],
    potentials: Vec<i128>,
    amounts: &[(usize, i128)],
    trees: Items<Tree>,
) -> Result<Found, AllocError>
    requires same { length columns.now ≡ length known.now }
    requires few { length amounts.now ≤ 8 }
    requires close { (margin : ℕ) × AreClose margin columns.now asked.now potentials.items amounts.now }
    ensures { IfOk result (λ found. AreFigures known.now columns.now asked.now potentials.items amounts.now trees found) }
{
    let entries = some_entries(alloc, known, amounts)?;
    let totals = totals_of(alloc, columns, asked, amounts)?;
    let energy = energy_of(columns, asked, amounts);
    let tolerance = tolerance_of(asked, &totals);
    let left = left_in(columns, asked, &potentials, amounts);
    let gap = gap_of(left);
    Ok(Found {
        entries,
        totals: Items::from_vec(totals),
        energy,
        tolerance,
        gap,
        potentials: Items::from_vec(potentials),
        trees,
    })
}
