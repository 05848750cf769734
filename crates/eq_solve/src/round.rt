ghost use Rattle.std.specs.Prelude.{◌≡◌, ℕ, ◌<◌, ◌≤◌, length, pos, AllPairs, IfOk, IfErr};
ghost use Rattle.cef_report.specs.Holding.{IsBefore};
ghost use Rattle.lp_core.specs.Plans.{IsPlan, IsProofOfNone};
ghost use Rattle.eq_solve.specs.Answers.{IsFault};
ghost use Rattle.eq_solve.specs.Sweeps.{IsBelow};
ghost use Rattle.eq_solve.specs.Rounds.{CanRound, IsRound};

use crate::alone::rising;
use crate::amount::{amounts_of, entries_of};
use crate::fault::{Open, SolveFault};
use crate::found::found_of;
use crate::phases::Phases;
use crate::point::{Gain, Round, point_of};
use crate::potential::{margin_of, potentials_of};
use crate::proposal::gain;
use crate::weight::rising_plan;
use cal_list::Items;
use cef_core::System;
use cef_report::Entry;
use eq_sweep::Swept;
use lp_core::{Column, LpFault, Plan, solve};
use std::alloc::Global;

/// What the plan of the known constitutions comes to.
fn planned<P: Phases>(
    alloc: Global,
    system: &System,
    phases: &P,
    asked: &[i128],
    gap: u64,
    budget: u64,
    known: &[Entry],
    columns: &[Column],
    plan: Plan,
) -> Result<Round, SolveFault>
    requires ready { P.ready phases.now }
    requires same { P.system phases.now ≡ system.now }
    requires round { CanRound system.now asked.now gap known.now columns.now }
    requires order { AllPairs IsBefore known.now }
    requires plan { IsPlan columns.now asked.now plan }
    requires rising { AllPairs (λ v w. v.0 < w.0) plan.weights.items }
    ensures round { IfOk result (λ round. IsRound system.now (P.swept phases.now) asked.now gap budget known.now round) }
    ensures fault { IfErr result (λ fault. IsFault system.now (P.swept phases.now) asked.now gap budget fault) }
{
    let margin = margin_of(gap, system.lattice);
    let potentials = potentials_of(alloc, &plan.potentials, plan.denominator, margin)?;
    let amounts = amounts_of(alloc, &plan.weights, plan.parts)?;
    let swept = phases.sweep(alloc, &potentials, budget)?;
    match swept {
        Swept::Below { phase, site } => {
            let first = point_of(alloc, phases, phase, site)?;
            Ok(Round::Next(Gain {
                first,
                others: Vec::new(alloc),
            }))
        }
        Swept::Out { phase } => {
            let entries = entries_of(alloc, known, &amounts)?;
            Err(SolveFault::GapNotClosed(Open {
                potentials: Items::from_vec(potentials),
                phase,
                entries,
            }))
        }
        Swept::Closed(trees) => {
            let found = found_of(alloc, known, columns, asked, potentials, &amounts, trees)?;
            Ok(Round::Done(found))
        }
    }
}

/// What a proof that the known constitutions do not give the asked totals comes to.
fn refused<P: Phases>(
    alloc: Global,
    system: &System,
    phases: &P,
    asked: &[i128],
    gap: u64,
    budget: u64,
    known: &[Entry],
    columns: &[Column],
    v: Vec<i128>,
) -> Result<Round, SolveFault>
    requires ready { P.ready phases.now }
    requires same { P.system phases.now ≡ system.now }
    requires round { CanRound system.now asked.now gap known.now columns.now }
    requires none { IsProofOfNone columns.now asked.now v.items }
    ensures round { IfOk result (λ round. IsRound system.now (P.swept phases.now) asked.now gap budget known.now round) }
    ensures fault { IfErr result (λ fault. IsFault system.now (P.swept phases.now) asked.now gap budget fault) }
{
    let found = rising(alloc, system, phases, &v)?;
    match found {
        None => Err(SolveFault::Infeasible(v)),
        Some(first) => Ok(Round::Next(Gain {
            first,
            others: Vec::new(alloc),
        })),
    }
}

/// One round over the known constitutions.
pub(crate) fn round<P: Phases>(
    alloc: Global,
    system: &System,
    phases: &P,
    asked: &[i128],
    gap: u64,
    budget: u64,
    known: &[Entry],
    columns: &[Column],
) -> Result<Round, SolveFault>
    requires ready { P.ready phases.now }
    requires same { P.system phases.now ≡ system.now }
    requires round { CanRound system.now asked.now gap known.now columns.now }
    requires order { AllPairs IsBefore known.now }
    ensures round { IfOk result (λ round. IsRound system.now (P.swept phases.now) asked.now gap budget known.now round) }
    ensures fault { IfErr result (λ fault. IsFault system.now (P.swept phases.now) asked.now gap budget fault) }
{
    let answer = solve(alloc, columns, asked);
    match answer {
        Ok(first) => {
            let plan = rising_plan(alloc, first)?;
            let found = gain(alloc, system, phases, asked, gap, known, columns, &plan)?;
            match found {
                Some(gain) => Ok(Round::Next(gain)),
                None => planned(
                    alloc, system, phases, asked, gap, budget, known, columns, plan,
                ),
            }
        }
        Err(LpFault::Infeasible(v)) => {
            refused(alloc, system, phases, asked, gap, budget, known, columns, v)
        }
        Err(LpFault::Memory) => Err(SolveFault::Memory),
    }
}
