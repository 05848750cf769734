//! Parameters as they are at a temperature.

ghost use Rattle.std.specs.Prelude.{◌≡◌, ◌<◌, ◌≤◌, ◌^◌, ◌==◌, IfOk, drop, map, length, Some};
ghost use Rattle.std.specs.List.{AllByRecursion};
ghost use Rattle.tdb_read.specs.Database.{same_key};
ghost use Rattle.cal_select.specs.Parameters as spec;
ghost use Rattle.cal_select.specs.Measures.{StandAt};

use crate::groups::{Group, parameter_of};
use crate::kept::small_place;
use crate::parameters::interactions;
use cal_list::Items;
use cal_scan::Name;
use std::alloc::{AllocError, Global};
use tdb_forms::Array;
use tdb_read::{Db, Key};

/// The places of constituents among the kept ones.
fn places_of(alloc: Global, names: &[Name], list: &[Name]) -> Result<Items<u16>, AllocError>
    requires { length names.now ≤ 2 ^ 16 }
    ensures { IfOk result (λ places. places ≡ spec.places_of names.now list.now) }
{
    let mut places = Items::new(alloc);
    'constituents: for name in list {
        places.push(small_place(names, name).unwrap_or(0))?;
    }
    Ok(places)
}

/// The places of the constituents of an array.
pub(crate) fn array_at(
    alloc: Global,
    kept: &[Items<Name>],
    array: &Array,
) -> Result<Items<Items<u16>>, AllocError>
    requires lists { length array.now ≡ length kept.now }
    requires short { AllByRecursion (λ names. length names ≤ 2 ^ 16) kept.now }
    ensures { IfOk result (λ places. places ≡ spec.array_at kept.now array.now) }
{
    let mut all = Items::new(alloc);
    'lists: for place in 0..kept.len() {
        all.push(places_of(alloc, kept[place].as_slice(), array.list(place))?)?;
    }
    Ok(all)
}

/// Whether the other key is this one with the order.
fn is_of_order(key: &Key, order: u8, other: &Key) -> bool
    ensures { result ≡ same_key (spec.of_order key.now order) other.now }
{
    order == other.order
        && (key.kind_name == other.kind_name
            && (key.phase == other.phase && key.array == other.array))
}

/// Whether the database has the parameter of the phase with another order.
fn has_order(db: &Db, group: &Group, key: &Key, order: u8) -> bool
    requires places { StandAt db.now group.now.phase.now group.now.places.now }
    requires phase { key.now.phase ≡ group.now.phase.now }
    ensures { result ≡ spec.has_order db.now key.now order }
{
    'numbers: for number in 0..group.places.len() {
        let (other, _) = parameter_of(db, group, number);
        if is_of_order(key, order, other) {
            return true;
        }
    }
    false
}

fn is_ternary(lengths: &[usize]) -> bool
    ensures { result ≡ spec.is_ternary lengths.now }
{
    match lengths {
        [] => false,
        [n, ..] => *n == 3,
    }
}

/// Whether a ternary interaction of the phase is weighted by composition.
pub(crate) fn is_weighted(
    alloc: Global,
    db: &Db,
    group: &Group,
    key: &Key,
) -> Result<bool, AllocError>
    requires places { StandAt db.now group.now.phase.now group.now.places.now }
    requires phase { key.now.phase ≡ group.now.phase.now }
    ensures { IfOk result (λ b. b ≡ spec.is_weighted db.now key.now) }
{
    let lengths = interactions(alloc, &key.array)?;
    if !is_ternary(lengths.as_slice()) {
        return Ok(false);
    }
    Ok(has_order(db, group, key, 1) || has_order(db, group, key, 2))
}
