ghost use Rattle.std.specs.Prelude.{◌≡◌, ◌≤◌, [], Some, IfOk, length, slice_get};
ghost use Rattle.cef_report.specs.declared.entry.Entry.{Entry};
ghost use Rattle.std.specs.Bool.{OnTrue, OnFalse};
ghost use Rattle.std.specs.List.{insert};
ghost use Rattle.cef_report.specs.Holding.{IsBefore};
ghost use Rattle.eq_solve.specs.Knowing.{IsPlaceOf, IsStuck, IsWith};

use crate::found::Found;
use crate::point::Point;
use cef_core::is_less;
use cef_report::Entry;
use lp_core::Column;
use std::alloc::{AllocError, Global};

/// The known constitutions in rising order, with the amount 0, and their columns.
#[derive(Drop)]
pub(crate) struct Known {
    pub(crate) entries: Vec<Entry>,
    pub(crate) columns: Vec<Column>,
}

/// The numbers of an equilibrium, and what was known at last.
#[derive(Drop)]
pub(crate) struct Reached {
    pub(crate) found: Found,
    pub(crate) known: Known,
}

/// Whether the first entry is before the second, by phase and then by counts.
fn is_before(first: &Entry, second: &Entry) -> bool
    ensures yes { OnTrue result (IsBefore first.now second.now) }
    ensures no { OnFalse result (IsBefore first.now second.now → ⊥) }
{
    if first.phase == second.phase {
        is_less(&first.site, &second.site)
    } else {
        first.phase < second.phase
    }
}

/// The place of an entry among entries.
fn place_of(entries: &[Entry], entry: &Entry) -> usize
    ensures { IsPlaceOf entries.now entry.now result }
{
    'entries: for place in 0..entries.len() {
        if !is_before(&entries[place], entry) {
            return place;
        }
    }
    entries.len()
}

/// Whether the entry is before the one at its place, or the place is behind the last.
fn admits(entries: &[Entry], entry: &Entry, place: usize) -> bool
    ensures yes { OnTrue result ((other : Entry) → slice_get entries.now place ≡ Some other → IsBefore entry.now other) }
    ensures no { OnFalse result (IsStuck entries.now entry.now place) }
{
    if place >= entries.len() {
        return true;
    }
    is_before(entry, &entries[place])
}

impl Known {
    /// Nothing is known.
    pub(crate) fn new(alloc: Global) -> Known
        ensures entries { result.entries.items ≡ [] }
        ensures columns { result.columns.items ≡ [] }
    {
        Known {
            entries: Vec::new(alloc),
            columns: Vec::new(alloc),
        }
    }

    fn with_at(self, place: usize, point: Point) -> Result<Known, AllocError>
        requires entries { place ≤ length self.entries.items }
        requires columns { place ≤ length self.columns.items }
        ensures entries { IfOk result (λ known. known.entries.items ≡ insert self.entries.items place point.entry) }
        ensures columns { IfOk result (λ known. known.columns.items ≡ insert self.columns.items place point.column) }
    {
        let Known {
            mut entries,
            mut columns,
        } = self;
        entries.insert(place, point.entry)?;
        columns.insert(place, point.column)?;
        Ok(Known { entries, columns })
    }

    /// The point among what is known, where it is not known yet.
    pub(crate) fn with(self, point: Point) -> Result<Known, AllocError>
        requires { length self.columns.items ≡ length self.entries.items }
        ensures { IfOk result (λ known. IsWith self point known) }
    {
        let place = place_of(&self.entries, &point.entry);
        if admits(&self.entries, &point.entry, place) {
            let known = self.with_at(place, point)?;
            Ok(known)
        } else {
            Ok(self)
        }
    }
}
