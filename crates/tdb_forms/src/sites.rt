//! The constituents of a phase.

ghost use Rattle.std.specs.Prelude.{◌≡◌, IfOk, map};
ghost use Rattle.std.specs.List.{list_all};
ghost use Rattle.cal_scan.specs.Constituents.{is_constituent};
ghost use Rattle.tdb_forms.specs.Finding.{each};
ghost use Rattle.tdb_forms.specs.Lists.{without_percent as plain_item, names_in as names_of, constituents_of, begins_with_letter as letter_first, kept_lists as lists_kept, without_last_colon as text_without_colon, sites_of};

use crate::distinct::is_distinct;
use cal_list::Items;
use cal_scan::{Name, before, is_constituent, is_letter_byte, parts_at};
use std::alloc::{AllocError, Global};

/// An item without the `%` at its end.
fn without_percent(item: &[u8]) -> &[u8]
    ensures { result.now ≡ plain_item item.now }
{
    before(item, b"%").unwrap_or(item)
}

/// The items of a list without their `%`.
fn names_in(alloc: Global, text: &[u8]) -> Result<Items<Name>, AllocError>
    ensures { IfOk result (λ names. names ≡ names_of text.now) }
{
    let parts = parts_at(alloc, text, b',')?;
    let names = names_of_parts(alloc, parts.as_slice())?;
    Ok(names)
}

fn names_of_parts(alloc: Global, parts: &[&[u8]]) -> Result<Items<Name>, AllocError>
    ensures { IfOk result (λ names. names ≡ map plain_item (map (λ w. w.now) parts.now)) }
{
    let mut names = Items::new(alloc);
    'parts: for i in 0..parts.len() {
        names.push(Name::from_bytes(alloc, without_percent(parts[i]))?)?;
    }
    Ok(names)
}

/// Whether each name is a constituent.
pub(crate) fn are_constituents(names: &[Name]) -> bool
    ensures { result ≡ list_all is_constituent names.now }
{
    names.iter().all(|name| is_constituent(name.bytes()))
}

/// Constituents with commas between them, none of them twice.
#[tactic(auto, unfolding(crate::specs::Lists::constituents_of))]
fn constituents(alloc: Global, text: &[u8]) -> Result<Option<Items<Name>>, AllocError>
    ensures { IfOk result (λ o. o ≡ constituents_of text.now) }
{
    let names = names_in(alloc, text)?;
    let distinct = is_distinct(alloc, names.as_slice())?;
    if are_constituents(names.as_slice()) && distinct {
        return Ok(Some(names));
    }
    Ok(None)
}

/// Whether the first list is a single letter.
fn begins_with_letter(lists: &[&[u8]]) -> bool
    ensures { result ≡ letter_first (map (λ w. w.now) lists.now) }
{
    match lists {
        [first, ..] => match first {
            [byte] => is_letter_byte(*byte),
            _ => false,
        },
        [] => false,
    }
}

/// The lists of `n` sublattices.
fn kept_lists<'a, 'b>(n: usize, direct: bool, lists: &'b [&'a [u8]]) -> &'b [&'a [u8]]
    ensures { map (λ w. w.now) result.now ≡ lists_kept n direct (map (λ w. w.now) lists.now) }
{
    match lists.split_first() {
        Some((_, rest)) => {
            if rest.len() == n && direct && begins_with_letter(lists) {
                return rest;
            }
            lists
        }
        None => lists,
    }
}

/// Each list of constituents.
fn all_constituents(
    alloc: Global,
    lists: &[&[u8]],
) -> Result<Option<Items<Items<Name>>>, AllocError>
    ensures { IfOk result (λ o. o ≡ each constituents_of (map (λ w. w.now) lists.now)) }
{
    let mut all = Items::new(alloc);
    'lists: for i in 0..lists.len() {
        let found = constituents(alloc, lists[i])?;
        match found {
            None => return Ok(None),
            Some(list) => all.push(list)?,
        }
    }
    Ok(Some(all))
}

fn without_last_colon(text: &[u8]) -> &[u8]
    ensures { result.now ≡ text_without_colon text.now }
{
    before(text, b":").unwrap_or(text)
}

/// The lists of constituents of `n` sublattices, with `:` between them. A single letter before them is dropped where its `:` stands directly
/// behind the name of the phase.
#[tactic(auto, unfolding(crate::specs::Lists::sites_of))]
pub fn read_sites(
    alloc: Global,
    n: usize,
    direct: bool,
    text: &[u8],
) -> Result<Option<Items<Items<Name>>>, AllocError>
    ensures { IfOk result (λ o. o ≡ sites_of n direct text.now) }
{
    let parts = parts_at(alloc, without_last_colon(text), b':')?;
    let lists = kept_lists(n, direct, parts.as_slice());
    if lists.len() != n {
        return Ok(None);
    }
    let sites = all_constituents(alloc, lists)?;
    Ok(sites)
}
