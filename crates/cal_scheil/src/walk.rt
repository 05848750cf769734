//! The walk down a path, step by step.

ghost use Rattle.std.specs.Prelude.{◌≡◌, ℕ, ◌+◌, ◌≤◌, ◌<◌, ◌↔◌, IsTrue, List, length, OnErr, IfOk, IfErr, None, ℤ, pos, ◌+ℤ◌, ◌≤ℤ◌};
ghost use Rattle.cal_limits.specs.declared.TheConstants.{HIGHEST_TEMPERATURE};
ghost use Rattle.cal_math.specs.Vectors.{at};
ghost use Rattle.cef_path.specs.declared.limit.TheConstants.{MOST_STEPS};
ghost use Rattle.cal_scheil.specs.Walks.{IsPathJob, walk_of, IsWalk};
ghost use Rattle.cal_scheil.specs.Steps.{job_of, Makes, Takes, IsStepFault};
ghost use Rattle.cal_scheil.specs.Workings.{IsNext};

use crate::account::{Account, copies, numbers_of, zeros};
use crate::fault::StepFault;
use crate::finishing::finish_of;
use crate::job::PathJob;
use crate::ledger::Ledger;
use crate::making::{Made, made_step};
use crate::step::Stepped;
use cal_log::Logs;
use cef_path::Finish;
use cef_report::Entry;
use std::alloc::{AllocError, Global};
use std::marker::Model;
use tdb_read::Db;

/// A walk down a solidification path. Contracts see what it keeps.
#[derive(Drop)]
pub struct Walk {
    /// At the temperature of the next step.
    job: PathJob,
    /// The temperature of the first step, in hundredths of a kelvin.
    began: u32,
    account: Account,
    steps: u32,
    finish: Option<Finish>,
    /// What the last equilibrium knew, for the next one to start from.
    near: Vec<Entry>,
}

impl Model for Walk {
    ghost use Rattle.cal_scheil.specs.Walks.{WalkState, IsWalk, path_job_at};

    ghost Value = { WalkState };

    ghost view = { λ w. record { job = path_job_at w.job w.began; t = w.job.job.t; account = w.account; steps = w.steps; finish = w.finish } };

    ghost invariant = { λ w. IsWalk (record { job = path_job_at w.job w.began; t = w.job.job.t; account = w.account; steps = w.steps; finish = w.finish }) };
}

impl Walk {
    /// A walk before its first step.
    pub fn begin(alloc: Global, job: PathJob) -> Result<Walk, AllocError>
        requires { IsPathJob job }
        ensures { IfOk result (λ walk. walk ≡ walk_of job) }
    {
        let solids = zeros(alloc, job.asked.len())?;
        let lost = zeros(alloc, job.asked.len())?;
        let asked = numbers_of(alloc, job.asked.as_slice())?;
        let remains = numbers_of(alloc, job.asked.as_slice())?;
        let names = copies(alloc, job.job.elements.as_slice())?;
        let began = job.job.t;
        let account = Account {
            names,
            asked,
            solids,
            remains,
            lost,
        };
        Ok(Walk {
            job,
            began,
            account,
            steps: 0,
            finish: None,
            near: Vec::new(alloc),
        })
    }

    /// The number of steps that were made.
    pub fn steps_taken(&self) -> u32
        ensures value { result ≡ self.now.steps }
        ensures few { result ≤ MOST_STEPS }
    {
        self.steps
    }

    /// Whether the last step has a finish.
    pub fn is_finished(&self) -> bool
        ensures { IsTrue result ↔ ¬ (self.now.finish ≡ None) }
    {
        self.finish.is_some()
    }

    /// What became solid, what remains and what was lost: of each element they add to what was asked first.
    pub fn ledger(&self) -> Ledger<'_>
        ensures solids { result.solids.now ≡ self.now.account.solids }
        ensures remains { result.remains.now ≡ self.now.account.remains }
        ensures lost { result.lost.now ≡ self.now.account.lost }
        ensures balanced { (c : ℕ) → at self.now.account.asked c ≡
            (at result.solids.now c +ℤ at result.remains.now c) +ℤ at result.lost.now c }
    {
        Ledger {
            solids: self.account.solids.as_slice(),
            remains: self.account.remains.as_slice(),
            lost: self.account.lost.as_slice(),
        }
    }

    /// What the next step makes of the account.
    fn next(&self, alloc: Global, db: &Db, logs: &Logs) -> Result<Made, StepFault>
        requires unfinished { self.now.finish ≡ None }
        requires logs { HIGHEST_TEMPERATURE ≤ logs.now }
        ensures makes { IfOk result (λ made. Makes db.now (job_of self.now) self.now.account made.report made.left made.account) }
        ensures next { IfOk result (λ made. IsNext (job_of self.now) made.account made.left) }
        ensures fault { IfErr result (λ fault. IsStepFault db.now (job_of self.now) self.now.account fault) }
    {
        made_step(alloc, db, logs, &self.job, &self.account, &self.near)
    }

    /// The next step: the equilibrium of what remains of the liquid, at the walk's temperature. A fault leaves the walk as it was.
    pub fn step(&mut self, alloc: Global, db: &Db, logs: &Logs) -> Result<Stepped, StepFault>
        requires unfinished { self.old.finish ≡ None }
        requires logs { HIGHEST_TEMPERATURE ≤ logs.now }
        ensures takes { IfOk result (λ step. Takes db.now self.old step self.new) }
        ensures keeps { IsWalk self.new }
        ensures unchanged { OnErr result (self.new ≡ self.old) }
        ensures fault { IfErr result (λ fault. IsStepFault db.now (job_of self.old) self.old.account fault) }
    {
        let found = self.next(alloc, db, logs);
        match found {
            Err(fault) => Err(fault),
            Ok(
                Made {
                    report,
                    left,
                    account,
                    near,
                },
            ) => {
                let t = self.job.job.t;
                let finish = finish_of(&self.job, account.asked.as_slice(), t, left.as_slice());
                self.job.job.t = t.saturating_sub(self.job.descent);
                self.account = account;
                self.steps += 1;
                self.finish = finish;
                self.near = near;
                Ok(Stepped {
                    report,
                    left,
                    finish,
                })
            }
        }
    }
}
