//! The causes that lie in the choice of phases.

ghost use Rattle.std.specs.Prelude.{◌≡◌, filter};
ghost use Rattle.std.specs.List.{list_any};
ghost use Rattle.cal_select.specs.Chosen.{is_selected as selects};
ghost use Rattle.cal_select.specs.Causes as causes;
ghost use Rattle.cal_select.specs.Causes.{Tells};
ghost use Rattle.cal_select.specs.declared.fault.SystemFault.TheVariants.{RatiosTooWide};

use crate::chosen::is_selected;
use crate::fault::SystemFault;
use crate::ratios::is_too_wide;
use cal_list::Items;
use cal_scan::Name;
use std::alloc::Global;
use tdb_read::{Db, PhaseText};

/// Refuses where no phase is selected.
#[tactic(auto, using(crate::proofs::Kept_lists::kept_lists))]
fn some_phase(db: &Db, components: &[Name], listed: &Option<Items<Name>>) -> Result<(), SystemFault>
    ensures { Tells result (causes.no_phase (filter (selects components.now listed.now) db.now.phases)) }
{
    'places: for place in 0..db.phase_count() {
        let (name, text) = db.phase_at(place);
        if is_selected(components, listed, name, text) {
            return Ok(());
        }
    }
    Err(SystemFault::NoPhase)
}

fn is_ionic(text: &PhaseText) -> bool
    ensures { result ≡ causes.is_ionic text.now }
{
    text.suffix.bytes() == b"Y".as_slice()
}

/// Refuses the first selected phase that is an ionic liquid.
#[tactic(auto, using(crate::proofs::Firsts::kept))]
fn none_ionic(db: &Db, components: &[Name], listed: &Option<Items<Name>>) -> Result<(), SystemFault>
    ensures { Tells result (causes.ionic (filter (selects components.now listed.now) db.now.phases)) }
{
    'places: for place in 0..db.phase_count() {
        let (name, text) = db.phase_at(place);
        if is_selected(components, listed, name, text) && is_ionic(text) {
            return Err(SystemFault::Ionic(text.line));
        }
    }
    Ok(())
}

/// Refuses a phase whose ratios are too wide.
fn narrow(alloc: Global, text: &PhaseText) -> Result<(), SystemFault>
    ensures { Tells result (causes.cause_if (causes.is_too_wide text.now.ratios) (RatiosTooWide text.now.line)) }
{
    let wide = is_too_wide(alloc, text.ratios.as_slice())?;
    if wide {
        return Err(SystemFault::RatiosTooWide(text.line));
    }
    Ok(())
}

/// Refuses the first selected phase whose ratios are too wide.
#[tactic(auto, using(crate::proofs::Firsts::kept))]
fn none_too_wide(
    alloc: Global,
    db: &Db,
    components: &[Name],
    listed: &Option<Items<Name>>,
) -> Result<(), SystemFault>
    ensures { Tells result (causes.too_wide (filter (selects components.now listed.now) db.now.phases)) }
{
    'places: for place in 0..db.phase_count() {
        let (name, text) = db.phase_at(place);
        if is_selected(components, listed, name, text) {
            narrow(alloc, text)?;
        }
    }
    Ok(())
}

/// Refuses the first cause that lies in the choice of phases.
pub(crate) fn allowed_choice(
    alloc: Global,
    db: &Db,
    components: &[Name],
    listed: &Option<Items<Name>>,
) -> Result<(), SystemFault>
    ensures { Tells result (causes.choice_causes (filter (selects components.now listed.now) db.now.phases)) }
{
    some_phase(db, components, listed)?;
    none_ionic(db, components, listed)?;
    none_too_wide(alloc, db, components, listed)?;
    Ok(())
}
