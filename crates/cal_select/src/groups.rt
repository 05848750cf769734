//! The parameters of the database by phase.

ghost use Rattle.std.specs.Prelude.{◌≡◌, ◌<◌, ◌++◌, ◌∷◌, [], IfOk, Some, length, slice_get};
ghost use Rattle.cal_scan.specs.Names.{same_name};
ghost use Rattle.indexmap.specs.IndexMap.{insert_entry};
ghost use Rattle.tdb_read.specs.Sound.{IsEntry};
ghost use Rattle.cal_select.specs.Parameters.{parameters_of};
ghost use Rattle.cal_select.specs.Measures.{places_in, StandAt, AreGrouped};

use cal_list::{Items, one};
use cal_scan::Name;
use indexmap::IndexMap;
use std::alloc::{AllocError, Global};
use tdb_read::{Db, Key, ParamText};

/// The parameters of a phase: the places at which the database has them, in its order.
#[derive(Drop)]
pub(crate) struct Group<'a> {
    pub phase: &'a Name,
    pub places: &'a [usize],
}

/// The places by phase, with one more of a phase.
fn with_place(
    alloc: Global,
    groups: IndexMap<Name, Items<usize>>,
    phase: &Name,
    place: usize,
) -> Result<IndexMap<Name, Items<usize>>, AllocError>
    ensures { IfOk result (λ after. after.entries ≡
        insert_entry same_name groups.entries phase.now (places_in groups.entries phase.now ++ place ∷ [])) }
{
    let mut groups = groups;
    if let Some(places) = groups.get_mut(phase) {
        places.push(place)?;
        return Ok(groups);
    }
    let name = phase.copy()?;
    let places = one(alloc, place)?;
    groups.insert(name, places)?;
    Ok(groups)
}

/// The places of the parameters of each phase, read once.
pub(crate) fn grouped(alloc: Global, db: &Db) -> Result<IndexMap<Name, Items<usize>>, AllocError>
    ensures { IfOk result (λ groups. AreGrouped db.now groups.entries) }
{
    let mut groups = IndexMap::new(alloc);
    'places: for place in 0..db.parameter_count() {
        let (key, _) = db.parameter_at(place);
        groups = with_place(alloc, groups, &key.phase, place)?;
    }
    Ok(groups)
}

/// The places of the parameters of a phase.
pub(crate) fn places_of<'a>(groups: &'a IndexMap<Name, Items<usize>>, phase: &Name) -> &'a [usize]
    ensures { result.now ≡ places_in groups.now.entries phase.now }
{
    match groups.get(phase) {
        None => &[],
        Some(places) => places.as_slice(),
    }
}

/// The parameter of this number among those of the phase.
pub(crate) fn parameter_of<'a>(db: &'a Db, group: &Group, number: usize) -> (&'a Key, &'a ParamText)
    requires places { StandAt db.now group.now.phase.now group.now.places.now }
    requires number { number < length group.now.places.now }
    ensures entry { slice_get (parameters_of db.now group.now.phase.now) number ≡ Some (result.0.now, result.1.now) }
    ensures phase { result.0.now.phase ≡ group.now.phase.now }
    ensures form { IsEntry result.0.now result.1.now }
{
    db.parameter_at(group.places[number])
}
