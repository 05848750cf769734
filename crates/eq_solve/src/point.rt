ghost use Rattle.std.specs.Prelude.{◌≡◌, pos, IfOk};
ghost use Rattle.eq_solve.specs.Points.{IsListOf, IsColumnOf};

use crate::found::Found;
use crate::phases::Phases;
use cef_core::Site;
use cef_report::Entry;
use lp_core::Column;
use std::alloc::{AllocError, Global};

/// A constitution with its column.
#[derive(Drop)]
pub(crate) struct Point {
    pub(crate) entry: Entry,
    pub(crate) column: Column,
}

/// A constitution that was not known, and entries that may be further ones.
#[derive(Drop)]
pub(crate) struct Gain {
    pub(crate) first: Point,
    pub(crate) others: Vec<Entry>,
}

/// What a round comes to: the equilibrium, or a gain.
#[derive(Drop)]
pub(crate) enum Round {
    Done(Found),
    Next(Gain),
}

/// A list of counts of a phase, with its column.
pub(crate) fn point_of<P: Phases>(
    alloc: Global,
    phases: &P,
    phase: usize,
    site: Site,
) -> Result<Point, AllocError>
    requires ready { P.ready phases.now }
    requires list { IsListOf (P.system phases.now) (record { phase = phase; amount = pos 0; site = site }) }
    ensures entry { IfOk result (λ point. point.entry ≡ record { phase = phase; amount = pos 0; site = site }) }
    ensures column { IfOk result (λ point. IsColumnOf (P.system phases.now) point.entry point.column) }
{
    let entry = Entry {
        phase,
        amount: 0,
        site,
    };
    let column = phases.column(alloc, &entry)?;
    Ok(Point { entry, column })
}
