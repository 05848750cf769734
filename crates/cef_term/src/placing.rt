//! The places of an array, which count on over the sublattices, and the form of its factor.

ghost use Rattle.std.specs.Prelude.{◌≡◌, ℕ, ◌≤◌, ◌<◌, ◌+◌, ◌*◌, ◌^◌, ◌++◌, ◌∷◌, [], length, map, IfOk, sum, true};
ghost use Rattle.std.specs.List.{concat, AllByRecursion};
ghost use Rattle.cef_core.specs.Shapes.{shape};
ghost use Rattle.cef_core.specs.Parameters.{interacting};
ghost use Rattle.cef_core.specs.Phases.{ArePlaces};
ghost use Rattle.cef_term.specs.Kept.{placed, form_of, binary_form};

use crate::form::Form;
use cal_list::Items;
use smallvec::SmallVec;
use std::alloc::{AllocError, Global};

/// The places of all lists of an array, and the lists of two or more of them.
#[derive(Drop)]
pub struct Placed {
    pub places: SmallVec<u16, 8>,
    pub mixed: Items<Items<u16>>,
}

/// The places of an array, and its lists of two or more.
#[tactic(auto, using(crate::proofs::Lists::none))]
pub fn place_array(
    alloc: Global,
    sites: &[Items<Option<u16>>],
    array: &[Items<u16>],
) -> Result<Placed, AllocError>
    requires sites { sum (shape sites.now) < 2 ^ 16 }
    requires array { ArePlaces (shape sites.now) array.now }
    ensures places { IfOk result (λ p. p.places.items ≡ concat (placed 0 (shape sites.now) array.now)) }
    ensures mixed { IfOk result (λ p. p.mixed ≡ interacting (placed 0 (shape sites.now) array.now)) }
{
    let none = Placed {
        places: SmallVec::new(alloc),
        mixed: Items::new(alloc),
    };
    place_lists(alloc, none, 0, sites, array)
}

#[tactic(auto, using(crate::proofs::Lists::lists))]
fn place_lists(
    alloc: Global,
    before: Placed,
    from: u16,
    sites: &[Items<Option<u16>>],
    array: &[Items<u16>],
) -> Result<Placed, AllocError>
    requires sites { from + sum (shape sites.now) < 2 ^ 16 }
    requires array { ArePlaces (shape sites.now) array.now }
    ensures places { IfOk result (λ p. p.places.items ≡ before.places.items ++ concat (placed from (shape sites.now) array.now)) }
    ensures mixed { IfOk result (λ p. p.mixed ≡ before.mixed ++ interacting (placed from (shape sites.now) array.now)) }
{
    match sites.split_first() {
        None => Ok(before),
        Some((row, rows)) => match array.split_first() {
            None => Ok(before),
            Some((list, lists)) => {
                let next = place_list(alloc, before, from, list.as_slice())?;
                place_lists(alloc, next, from + row.len() as u16, rows, lists)
            }
        },
    }
}

/// One more list: its places, moved to where its sublattice begins.
#[tactic(auto, using(crate::proofs::Lists::one_list))]
fn place_list(alloc: Global, before: Placed, from: u16, list: &[u16]) -> Result<Placed, AllocError>
    requires { AllByRecursion (λ p. from + p < 2 ^ 16) list.now }
    ensures places { IfOk result (λ p. p.places.items ≡ before.places.items ++ map (λ q. from + q) list.now) }
    ensures mixed { IfOk result (λ p. p.mixed ≡ before.mixed ++ interacting (map (λ q. from + q) list.now ∷ [])) }
{
    let Placed { mut places, mixed } = before;
    let items = shifted(alloc, from, list)?;
    places.extend_from_slice(items.as_slice())?;
    let mixed = with_mixed(mixed, items)?;
    Ok(Placed { places, mixed })
}

/// The lists with one more behind them, where it has two places or more.
#[tactic(auto, using(crate::proofs::Lists::one_mixed))]
fn with_mixed(mixed: Items<Items<u16>>, list: Items<u16>) -> Result<Items<Items<u16>>, AllocError>
    ensures { IfOk result (λ all. all ≡ mixed ++ interacting (list ∷ [])) }
{
    if list.len() < 2 {
        return Ok(mixed);
    }
    let mut all = mixed;
    all.push(list)?;
    Ok(all)
}

/// The places moved to where their sublattice begins.
fn shifted(alloc: Global, from: u16, list: &[u16]) -> Result<Items<u16>, AllocError>
    requires { AllByRecursion (λ p. from + p < 2 ^ 16) list.now }
    ensures { IfOk result (λ items. items ≡ map (λ p. from + p) list.now) }
{
    shifted_behind(Items::new(alloc), from, list)
}

#[tactic(auto, using(crate::proofs::Lists::shifts))]
fn shifted_behind(before: Items<u16>, from: u16, list: &[u16]) -> Result<Items<u16>, AllocError>
    requires { AllByRecursion (λ p. from + p < 2 ^ 16) list.now }
    ensures { IfOk result (λ items. items ≡ before ++ map (λ p. from + p) list.now) }
{
    match list.split_first() {
        None => Ok(before),
        Some((place, rest)) => {
            let mut items = before;
            items.push(from + *place)?;
            shifted_behind(items, from, rest)
        }
    }
}

/// The form of the factor, by the lists of two or more places.
#[tactic(auto, using(crate::proofs::Lists::forms))]
pub fn form_of(parts: u32, order: u8, weighted: bool, mixed: &[Items<u16>]) -> Form
    ensures { result ≡ form_of parts order weighted mixed.now }
{
    if mixed.len() == 1 {
        form_of_list(parts, order, weighted, mixed[0].as_slice())
    } else {
        Form::Plain
    }
}

#[tactic(auto, using(crate::proofs::Lists::forms))]
fn form_of_list(parts: u32, order: u8, weighted: bool, list: &[u16]) -> Form
    ensures { result ≡ form_of parts order weighted (list.now ∷ []) }
{
    if list.len() == 2 {
        binary_form(list[0], list[1], order)
    } else if list.len() == 3 {
        if weighted {
            ternary(parts, order, list[0], list[1], list[2])
        } else {
            Form::Plain
        }
    } else {
        Form::Plain
    }
}

/// The form of a binary interaction, whose factor is 1 at the order 0.
#[tactic(auto, using(crate::proofs::Lists::forms))]
fn binary_form(first: u16, second: u16, order: u8) -> Form
    ensures { result ≡ binary_form first second order }
{
    if order == 0 {
        Form::Plain
    } else {
        Form::Binary {
            first,
            second,
            order,
        }
    }
}

fn ternary(parts: u32, order: u8, first: u16, second: u16, third: u16) -> Form
    ensures { result ≡ form_of parts order true ((first ∷ second ∷ third ∷ []) ∷ []) }
{
    match order {
        0 => Form::Ternary {
            parts,
            own: first,
            second,
            third,
        },
        1 => Form::Ternary {
            parts,
            own: second,
            second: first,
            third,
        },
        _ => Form::Ternary {
            parts,
            own: third,
            second: first,
            third: second,
        },
    }
}
