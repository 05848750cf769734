//! Which parameters a phase needs, and their forms.

ghost use Rattle.std.specs.Prelude.{◌≡◌, ◌<◌, ◌≤◌, ◌==◌, ◌&&◌, IfOk, drop, filter, map, length, nat_lt, slice_get};
ghost use Rattle.std.specs.List.{list_any, list_all};
ghost use Rattle.cal_select.specs.Chosen.{is_in as among};
ghost use Rattle.cal_select.specs.Parameters as spec;

use crate::chosen::is_in;
use cal_list::Items;
use cal_scan::Name;
use cef_core::Kind;
use std::alloc::{AllocError, Global};
use tdb_forms::Array;
use tdb_read::{Key, ParamText};

fn all_in(names: &[Name], list: &[Name]) -> bool
    ensures { result ≡ list_all (among names.now) list.now }
{
    list.iter().all(|name| is_in(names, name))
}

/// Whether each constituent is kept on the sublattice of its place, from a place on.
fn are_kept_from(kept: &[Items<Name>], array: &Array, place: usize) -> bool
    requires { place ≤ length array.now }
    ensures { result ≡ spec.are_kept kept.now (drop place array.now) }
{
    match kept.split_first() {
        None => true,
        Some((names, rest)) => {
            if place == array.len() {
                return true;
            }
            all_in(names.as_slice(), array.list(place)) && are_kept_from(rest, array, place + 1)
        }
    }
}

fn has_wrong_number(kept: &[Items<Name>], array: &Array) -> bool
    ensures { result ≡ spec.has_wrong_number kept.now array.now }
{
    array.len() != kept.len()
}

fn is_needed(kept: &[Items<Name>], array: &Array) -> bool
    ensures { result ≡ spec.is_needed kept.now array.now }
{
    has_wrong_number(kept, array) || are_kept_from(kept, array, 0)
}

fn has_effect(magnetic: bool, kind: Kind) -> bool
    ensures { result ≡ spec.has_effect magnetic kind }
{
    match kind {
        Kind::G | Kind::Other => true,
        Kind::Tc | Kind::Beta => magnetic,
        Kind::Unread => false,
    }
}

/// Whether a phase with these kept constituents needs a parameter of its name, and it has an effect.
pub(crate) fn counts(magnetic: bool, kept: &[Items<Name>], key: &Key, text: &ParamText) -> bool
    ensures { result ≡ spec.counts magnetic kept.now (key.now, text.now) }
{
    has_effect(magnetic, text.kind) && is_needed(kept, &key.array)
}

fn is_other(kind: Kind) -> bool
    ensures { result ≡ spec.is_other kind }
{
    match kind {
        Kind::Other => true,
        Kind::G | Kind::Tc | Kind::Beta | Kind::Unread => false,
    }
}

fn has_twice(names: &[Name]) -> bool
    ensures { result ≡ spec.has_twice names.now }
{
    match names.split_first() {
        None => false,
        Some((name, rest)) => is_in(rest, name) || has_twice(rest),
    }
}

fn some_has_twice(array: &Array) -> bool
    ensures { result ≡ list_any spec.has_twice array.now }
{
    'lists: for place in 0..array.len() {
        if has_twice(array.list(place)) {
            return true;
        }
    }
    false
}

/// How many constituents each list of two or more has.
pub(crate) fn interactions(alloc: Global, array: &Array) -> Result<Items<usize>, AllocError>
    ensures { IfOk result (λ lengths. lengths ≡ spec.interactions array.now) }
{
    let mut lengths = Items::new(alloc);
    'lists: for place in 0..array.len() {
        let length = array.list(place).len();
        if length > 1 {
            lengths.push(length)?;
        }
    }
    Ok(lengths)
}

/// Whether interactions of these lengths may have the order.
fn may_have_order(lengths: &[usize], order: u8) -> bool
    ensures { result ≡ spec.may_have_order lengths.now order }
{
    match lengths {
        [] => order == 0,
        [n] => *n == 2 || (*n == 3 && order <= 2),
        [m, n] => *m == 2 && (*n == 2 && order == 0),
        _ => false,
    }
}

/// Whether the form of a needed parameter has no meaning here.
pub(crate) fn is_unsupported(
    alloc: Global,
    kept: &[Items<Name>],
    key: &Key,
    text: &ParamText,
) -> Result<bool, AllocError>
    ensures { IfOk result (λ b. b ≡ spec.is_unsupported kept.now (key.now, text.now)) }
{
    if is_other(text.kind) || has_wrong_number(kept, &key.array) {
        return Ok(true);
    }
    let lengths = interactions(alloc, &key.array)?;
    if !may_have_order(lengths.as_slice(), key.order) {
        return Ok(true);
    }
    Ok(some_has_twice(&key.array))
}
