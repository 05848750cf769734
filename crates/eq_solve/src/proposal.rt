ghost use Rattle.std.specs.Prelude.{◌≡◌, ℕ, ◌≤◌, ◌<◌, ◌^◌, length, sum, drop, pos, ◌*ℤ◌, ◌≤ℤ◌, ◌<ℤ◌, unsigned_abs, IfOk};
ghost use Rattle.std.specs.Bool.{OnTrue};
ghost use Rattle.cal_math.specs.Vectors.{at, sum_to, dot};
ghost use Rattle.lp_basis.specs.Rows.{FitsProduct};
ghost use Rattle.lp_core.specs.Plans.{IsPlan};
ghost use Rattle.eq_solve.specs.Points.{IsConstitutionOf};
ghost use Rattle.eq_solve.specs.Rounds.{CanRound, IsGain, IsNewPoint};

use crate::phases::Phases;
use crate::point::{Gain, Point};
use cal_whole::times;
use cef_core::{System, has_content, is_list};
use cef_report::Entry;
use lp_basis::product;
use lp_core::{Column, Plan};
use std::alloc::{AllocError, Global};

/// Whether the entry has a constitution of a phase of the system.
pub(crate) fn is_constitution(system: &System, entry: &Entry) -> bool
    ensures { OnTrue result (IsConstitutionOf system.now entry.now) }
{
    if entry.phase < system.phases.len() {
        let phase = &system.phases.as_slice()[entry.phase];
        if is_list(phase, &entry.site) {
            has_content(phase, &entry.site)
        } else {
            false
        }
    } else {
        false
    }
}

/// Whether the column costs less than the potentials ask for it.
fn costs_less(column: &Column, potentials: &[i128], denominator: i128) -> bool
    requires product { (m : ℕ) × (w : ℕ) × FitsProduct m w potentials.now column.now.amounts.items }
    requires cost { unsigned_abs column.now.cost ≤ 2 ^ 55 }
    requires denominator { unsigned_abs denominator ≤ 2 ^ 62 }
    ensures { OnTrue result ((column.now.cost *ℤ denominator) <ℤ dot (length potentials.now) (at potentials.now) (at column.now.amounts.items)) }
{
    let price = product(potentials, &column.amounts);
    let cost = times(column.cost, denominator);
    cost < price
}

/// A proposed entry with its column, where it is a constitution that costs less than its price: so it is not known.
fn priced<P: Phases>(
    alloc: Global,
    system: &System,
    phases: &P,
    asked: &[i128],
    gap: u64,
    known: &[Entry],
    columns: &[Column],
    plan: &Plan,
    entry: Entry,
) -> Result<Option<Point>, AllocError>
    requires ready { P.ready phases.now }
    requires same { P.system phases.now ≡ system.now }
    requires round { CanRound system.now asked.now gap known.now columns.now }
    requires plan { IsPlan columns.now asked.now plan.now }
    ensures { IfOk result (λ found. IsNewPoint system.now known.now found) }
{
    if is_constitution(system, &entry) {
        let column = phases.column(alloc, &entry)?;
        if costs_less(&column, &plan.potentials, plan.denominator) {
            return Ok(Some(Point { entry, column }));
        }
    }
    Ok(None)
}

/// What the search proposes under a plan, from the first entry on that was not known.
pub(crate) fn gain<P: Phases>(
    alloc: Global,
    system: &System,
    phases: &P,
    asked: &[i128],
    gap: u64,
    known: &[Entry],
    columns: &[Column],
    plan: &Plan,
) -> Result<Option<Gain>, AllocError>
    requires ready { P.ready phases.now }
    requires same { P.system phases.now ≡ system.now }
    requires round { CanRound system.now asked.now gap known.now columns.now }
    requires plan { IsPlan columns.now asked.now plan.now }
    ensures { IfOk result (λ found. IsGain system.now known.now found) }
{
    let mut others = phases.propose(alloc, &plan.potentials, plan.denominator, known, columns)?;
    'proposals: while let Some(entry) = others.pop() {
        let found = priced(
            alloc, system, phases, asked, gap, known, columns, plan, entry,
        )?;
        if let Some(first) = found {
            return Ok(Some(Gain { first, others }));
        }
    }
    Ok(None)
}
