//! The system of a job.

ghost use Rattle.std.specs.Prelude.{◌≤◌, IfOk};
ghost use Rattle.cef_core.specs.Jobs.{IsJob};
ghost use Rattle.cef_core.specs.Systems.{IsSystem};
ghost use Rattle.cal_select.specs.Causes.{Answers};

use crate::building::{Source, phases};
use crate::chosen::components;
use crate::fault::SystemFault;
use crate::groups::grouped;
use crate::limits::limited;
use crate::names::known_names;
use crate::phases::allowed_choice;
use cal_limits::HIGHEST_TEMPERATURE;
use cal_log::Logs;
use cef_core::{Job, System};
use std::alloc::Global;
use tdb_read::Db;
use temp_fun::some_outcome;

/// The system that the database gives for the job, or the first cause why there is none.
fn chosen_system(alloc: Global, db: &Db, logs: &Logs, job: &Job) -> Result<System, SystemFault>
    requires job { IsJob job.now }
    requires logs { HIGHEST_TEMPERATURE ≤ logs.now }
    ensures { Answers db.now job.now result }
{
    if let Err(fault) = known_names(db, job) {
        return Err(fault);
    }
    let elements = components(alloc, db, job.elements.as_slice())?;
    let components = elements.as_slice();
    if let Err(fault) = allowed_choice(alloc, db, components, &job.phases) {
        return Err(fault);
    }
    let groups = grouped(alloc, db)?;
    let source = Source {
        db,
        logs,
        job,
        components,
        groups: &groups,
    };
    match phases(alloc, &source) {
        Err(fault) => Err(fault),
        Ok(phases) => limited(alloc, job, elements, phases),
    }
}

/// The system that the database gives for the job, or the first cause why there is none, in the order of the causes.
pub fn system(alloc: Global, db: &Db, logs: &Logs, job: &Job) -> Result<System, SystemFault>
    requires job { IsJob job.now }
    requires logs { HIGHEST_TEMPERATURE ≤ logs.now }
    ensures answers { Answers db.now job.now result }
    ensures keeps { IfOk result IsSystem }
{
    some_outcome();
    db.soundness();
    let _elements = db.element_count();
    let _phases = db.phase_count();
    match chosen_system(alloc, db, logs, job) {
        Err(fault) => Err(fault),
        Ok(system) => Ok(system),
    }
}
