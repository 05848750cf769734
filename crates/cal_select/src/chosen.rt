//! Which elements are components, and which phases are selected.

ghost use Rattle.std.specs.Prelude.{◌≡◌, ◌≤◌, IfOk, filter, length};
ghost use Rattle.std.specs.List.{list_any, list_all};
ghost use Rattle.std.specs.Map.{keys_of};
ghost use Rattle.cal_select.specs.Chosen as spec;

use cal_list::Items;
use cal_scan::Name;
use std::alloc::{AllocError, Global};
use tdb_read::{Db, PhaseText};

pub(crate) fn is_in(names: &[Name], name: &Name) -> bool
    ensures { result ≡ spec.is_in names.now name.now }
{
    names.iter().any(|other| name == other)
}

pub(crate) fn is_vacancy(name: &Name) -> bool
    ensures { result ≡ spec.is_vacancy name.now }
{
    name.bytes() == b"VA".as_slice()
}

/// Whether a sublattice keeps the constituent.
pub(crate) fn is_kept(components: &[Name], name: &Name) -> bool
    ensures { result ≡ spec.is_kept components.now name.now }
{
    is_vacancy(name) || is_in(components, name)
}

fn keeps_some(components: &[Name], sublattice: &Items<Name>) -> bool
    ensures { result ≡ list_any (spec.is_kept components.now) sublattice.now }
{
    sublattice
        .as_slice()
        .iter()
        .any(|name| is_kept(components, name))
}

fn has_component(components: &[Name], sublattice: &Items<Name>) -> bool
    ensures { result ≡ list_any (spec.is_in components.now) sublattice.now }
{
    sublattice
        .as_slice()
        .iter()
        .any(|name| is_in(components, name))
}

fn each_keeps_some(components: &[Name], sites: &[Items<Name>]) -> bool
    ensures { result ≡ list_all (list_any (spec.is_kept components.now)) sites.now }
{
    sites
        .iter()
        .all(|sublattice| keeps_some(components, sublattice))
}

fn some_has_component(components: &[Name], sites: &[Items<Name>]) -> bool
    ensures { result ≡ list_any (list_any (spec.is_in components.now)) sites.now }
{
    sites
        .iter()
        .any(|sublattice| has_component(components, sublattice))
}

fn qualifies(components: &[Name], text: &PhaseText) -> bool
    ensures { result ≡ spec.qualifies components.now text.now }
{
    let sites = text.sites.as_slice();
    sites.len() != 0
        && (each_keeps_some(components, sites) && some_has_component(components, sites))
}

fn is_listed(listed: &Option<Items<Name>>, name: &Name) -> bool
    ensures { result ≡ spec.is_listed listed.now name.now }
{
    match listed {
        None => true,
        Some(names) => is_in(names.as_slice(), name),
    }
}

pub(crate) fn is_selected(
    components: &[Name],
    listed: &Option<Items<Name>>,
    name: &Name,
    text: &PhaseText,
) -> bool
    ensures { result ≡ spec.is_selected components.now listed.now (name.now, text.now) }
{
    is_listed(listed, name) && qualifies(components, text)
}

/// The asked elements in the order of the database.
pub(crate) fn components(alloc: Global, db: &Db, asked: &[Name]) -> Result<Items<Name>, AllocError>
    ensures value { IfOk result (λ names. names ≡ filter (spec.is_in asked.now) (keys_of db.now.elements)) }
    ensures few { IfOk result (λ names. length names ≤ length asked.now) }
{
    let mut names = Items::new(alloc);
    'elements: for place in 0..db.element_count() {
        let (name, _) = db.element_at(place);
        if is_in(asked, name) {
            names.push(name.copy()?)?;
        }
    }
    Ok(names)
}
