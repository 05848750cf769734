//! The array of a parameter.

ghost use Rattle.std.specs.Prelude.{◌≡◌, ◌<◌, IfOk, Some, length, map, slice_get};
ghost use Rattle.std.specs.Option.{option_map};
ghost use Rattle.tdb_forms.specs.Finding.{each};
ghost use Rattle.tdb_forms.specs.Lists.{array_list as array_list_of, array_of};

use crate::sites::are_constituents;
use cal_scan::{Name, is_word, parts_at};
use std::alloc::{AllocError, Global};
use std::hash::{Hash, Hasher};
use std::marker::Model;

/// The constituents of each sublattice, as a parameter writes them. An empty list is `*`.
#[derive(Drop)]
pub struct Array {
    lists: Vec<Vec<Name>>,
}

impl Model for Array {
    ghost use Rattle.std.specs.Prelude.{List, ℕ, map};

    ghost Value = { List (List (List ℕ)) };

    ghost view = { λ array. map (λ list. list.items) array.lists.items };
}

impl PartialEq for Array {
    ghost use Rattle.std.specs.Prelude.{nat_eq};
    ghost use Rattle.std.specs.Cmp.{partial_equiv_from_equiv};
    ghost use Rattle.std.specs.Cmp.Lexicographic.{nat_list_eq_equiv, lists_equiv, pointwise};

    ghost eq = { λ a b. pointwise (pointwise (pointwise nat_eq)) a b };

    ghost laws = { partial_equiv_from_equiv (lists_equiv (lists_equiv nat_list_eq_equiv)) };

    fn eq(&self, other: &Array) -> bool {
        self.lists.as_slice() == other.lists.as_slice()
    }
}

impl Eq for Array {
    ghost use Rattle.std.specs.Cmp.Lexicographic.{nat_list_eq_equiv, lists_equiv};

    ghost laws = { lists_equiv (lists_equiv nat_list_eq_equiv) };
}

impl Hash for Array {
    ghost use Rattle.std.specs.Cmp.Lexicographic.{bytes_decides};
    ghost use Rattle.std.specs.Hash as fed;
    ghost use Rattle.std.specs.Hash.{items_Alike, same_Alike};

    ghost hash_input = { λ a. fed.slice (fed.slice (fed.slice fed.u8)) a };

    ghost respects_eq = { (items_Alike (items_Alike (same_Alike (fed.slice fed.u8) bytes_decides))).fed };

    fn hash<H: Hasher>(&self, state: &mut H) {
        self.lists.as_slice().hash(state);
    }
}

impl Array {
    pub fn len(&self) -> usize
        ensures { result ≡ length self.now }
    {
        self.lists.len()
    }

    /// The constituents of the list at the place.
    pub fn list(&self, place: usize) -> &[Name]
        requires { place < length self.now }
        ensures { slice_get self.now place ≡ Some result.now }
    {
        self.lists[place].as_slice()
    }
}

fn names(alloc: Global, parts: &[&[u8]]) -> Result<Vec<Name>, AllocError>
    ensures { IfOk result (λ names. names.items ≡ map (λ w. w.now) parts.now) }
{
    let mut names = Vec::new(alloc);
    'parts: for i in 0..parts.len() {
        names.push(Name::from_bytes(alloc, parts[i])?)?;
    }
    Ok(names)
}

/// `*`, or constituents with commas between them.
#[tactic(auto, unfolding(crate::specs::Lists::array_list))]
fn array_list(alloc: Global, text: &[u8]) -> Result<Option<Vec<Name>>, AllocError>
    ensures { IfOk result (λ o. option_map (λ list. list.items) o ≡ array_list_of text.now) }
{
    if is_word(text, b"*") {
        return Ok(Some(Vec::new(alloc)));
    }
    let parts = parts_at(alloc, text, b',')?;
    let names = names(alloc, parts.as_slice())?;
    if !are_constituents(names.as_slice()) {
        return Ok(None);
    }
    Ok(Some(names))
}

fn array_lists(alloc: Global, parts: &[&[u8]]) -> Result<Option<Vec<Vec<Name>>>, AllocError>
    ensures { IfOk result (λ o. option_map (λ lists. map (λ list. list.items) lists.items) o ≡ each array_list_of (map (λ w. w.now) parts.now)) }
{
    let mut lists = Vec::new(alloc);
    'parts: for i in 0..parts.len() {
        let found = array_list(alloc, parts[i])?;
        match found {
            None => return Ok(None),
            Some(list) => lists.push(list)?,
        }
    }
    Ok(Some(lists))
}

/// Lists with `:` between them, each `*` or constituents with commas between them.
#[tactic(auto, unfolding(crate::specs::Lists::array_of))]
pub fn read_array(alloc: Global, text: &[u8]) -> Result<Option<Array>, AllocError>
    ensures { IfOk result (λ o. o ≡ array_of text.now) }
{
    let parts = parts_at(alloc, text, b':')?;
    let found = array_lists(alloc, parts.as_slice())?;
    match found {
        None => Ok(None),
        Some(lists) => Ok(Some(Array { lists })),
    }
}
