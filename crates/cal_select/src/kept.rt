//! What a phase keeps on its sublattices.

ghost use Rattle.std.specs.Prelude.{◌≡◌, ◌<◌, ◌≤◌, ◌^◌, IfOk, IfSome, filter, map, length};
ghost use Rattle.std.specs.List.{position};
ghost use Rattle.cal_select.specs.Chosen as spec;

use crate::chosen::is_kept;
use cal_list::Items;
use cal_scan::Name;
use std::alloc::{AllocError, Global};

/// The constituents that a sublattice keeps.
fn kept(alloc: Global, components: &[Name], sublattice: &[Name]) -> Result<Items<Name>, AllocError>
    ensures { IfOk result (λ names. names ≡ spec.kept_of components.now sublattice.now) }
{
    let mut names = Items::new(alloc);
    'constituents: for name in sublattice {
        if is_kept(components, name) {
            names.push(name.copy()?)?;
        }
    }
    Ok(names)
}

/// What each sublattice keeps.
pub(crate) fn all_kept(
    alloc: Global,
    components: &[Name],
    sites: &[Items<Name>],
) -> Result<Items<Items<Name>>, AllocError>
    ensures { IfOk result (λ all. all ≡ spec.all_kept_of components.now sites.now) }
{
    let mut all = Items::new(alloc);
    'sublattices: for sublattice in sites {
        all.push(kept(alloc, components, sublattice.as_slice())?)?;
    }
    Ok(all)
}

fn place_of(names: &[Name], name: &Name) -> Option<usize>
    ensures value { result ≡ spec.component_of names.now name.now }
    ensures within { IfSome result (λ place. place < length names.now) }
{
    names.iter().position(|other| other == name)
}

/// The place of a name, as a number of 16 bits.
pub(crate) fn small_place(names: &[Name], name: &Name) -> Option<u16>
    requires { length names.now ≤ 2 ^ 16 }
    ensures value { result ≡ spec.component_of names.now name.now }
    ensures within { IfSome result (λ place. place < length names.now) }
{
    match place_of(names, name) {
        None => None,
        Some(place) => Some(place as u16),
    }
}

/// The components of what a sublattice keeps.
fn components_in(
    alloc: Global,
    components: &[Name],
    names: &[Name],
) -> Result<Items<Option<u16>>, AllocError>
    requires { length components.now ≤ 2 ^ 16 }
    ensures { IfOk result (λ sites. sites ≡ map (spec.component_of components.now) names.now) }
{
    let mut sites = Items::new(alloc);
    'names: for name in names {
        sites.push(small_place(components, name))?;
    }
    Ok(sites)
}

/// The components of what each sublattice keeps.
pub(crate) fn sites_at(
    alloc: Global,
    components: &[Name],
    kept: &[Items<Name>],
) -> Result<Items<Items<Option<u16>>>, AllocError>
    requires { length components.now ≤ 2 ^ 16 }
    ensures { IfOk result (λ sites. sites ≡ spec.sites_at components.now kept.now) }
{
    let mut sites = Items::new(alloc);
    'sublattices: for names in kept {
        sites.push(components_in(alloc, components, names.as_slice())?)?;
    }
    Ok(sites)
}
