//! The names that the database does not have.

ghost use Rattle.std.specs.Prelude.{◌≡◌, Some};
ghost use Rattle.cal_select.specs.Causes as causes;
ghost use Rattle.cal_select.specs.Causes.{Tells};

use crate::chosen::is_vacancy;
use crate::fault::SystemFault;
use cal_list::Items;
use cal_scan::Name;
use cef_core::Job;
use tdb_read::Db;

fn is_gas(name: &Name) -> bool
    ensures { result ≡ causes.is_gas name.now }
{
    name.bytes() == b"/-".as_slice()
}

fn is_unknown_element(db: &Db, name: &Name) -> bool
    ensures { result ≡ causes.is_unknown_element db.now name.now }
{
    is_vacancy(name) || (is_gas(name) || !db.has_element(name))
}

/// Refuses the first asked name that is no element.
#[tactic(auto, using(crate::proofs::Firsts::found))]
fn known_elements(db: &Db, asked: &[Name]) -> Result<(), SystemFault>
    ensures { Tells result (causes.unknown_elements db.now asked.now) }
{
    'asked: for name in asked {
        if is_unknown_element(db, name) {
            let unknown = name.copy()?;
            return Err(SystemFault::UnknownElement(unknown));
        }
    }
    Ok(())
}

fn is_unknown_phase(db: &Db, name: &Name) -> bool
    ensures { result ≡ causes.is_unknown_phase db.now name.now }
{
    db.phase(name).is_none()
}

/// Refuses the first listed name that is no phase.
#[tactic(auto, using(crate::proofs::Firsts::found))]
fn known_listed(db: &Db, listed: &[Name]) -> Result<(), SystemFault>
    ensures { Tells result (causes.unknown_phases db.now (Some listed.now)) }
{
    'listed: for name in listed {
        if is_unknown_phase(db, name) {
            let unknown = name.copy()?;
            return Err(SystemFault::UnknownPhase(unknown));
        }
    }
    Ok(())
}

fn known_phases(db: &Db, listed: &Option<Items<Name>>) -> Result<(), SystemFault>
    ensures { Tells result (causes.unknown_phases db.now listed.now) }
{
    match listed {
        None => Ok(()),
        Some(names) => known_listed(db, names.as_slice()),
    }
}

/// Refuses the first name of the job that the database does not have.
pub(crate) fn known_names(db: &Db, job: &Job) -> Result<(), SystemFault>
    ensures { Tells result (causes.name_causes db.now job.now) }
{
    known_elements(db, job.elements.as_slice())?;
    known_phases(db, &job.phases)?;
    Ok(())
}
