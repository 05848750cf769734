//! The sites of an array, which count on over the sublattices, and the form of its factor.

ghost use Rattle.std.specs.Prelude.{◌≡◌, ◌≤◌, ◌<◌, ◌+◌, ◌^◌, ◌∷◌, [], List, ℕ, length, map, sum, take, true};
ghost use Rattle.std.specs.List.{concat, AllByRecursion};
ghost use Rattle.cef_core.specs.Parameters.{interacting};
ghost use Rattle.cef_core.specs.Phases.{ArePlaces};
ghost use Rattle.cef_core.specs.Shapes.{shape};
ghost use Rattle.cef_term.specs.Kept.{placed};
ghost use Rattle.cef_minor.specs.Kept.{found_form};
ghost use Rattle.cef_minor.specs.Products.{form_of, own_of, pair_form};

use crate::form::Form;
use cal_list::Items;

/// The places of a list, moved to where their sublattice begins.
#[tactic(auto, using(crate::proofs::Lists::shifts))]
fn place_list(from: u16, list: &[u16], out: &mut [u16])
    requires room { AllByRecursion (λ p. from + p < 2 ^ 16) list.now }
    requires size { length out.old ≡ length list.now }
    ensures { out.new ≡ map (λ p. from + p) list.now }
{
    match list.split_first() {
        None => (),
        Some((place, places)) => match out.split_first_mut() {
            None => (),
            Some((site, sites)) => {
                *site = from + *place;
                place_list(from, places, sites);
            }
        },
    }
}

/// The sites of an array's lists from a sublattice on, and how many they are.
#[tactic(auto, using(crate::proofs::Lists::lists))]
fn place_lists(
    from: u16,
    sites: &[Items<Option<u16>>],
    array: &[Items<u16>],
    out: &mut [u16],
) -> usize
    requires sites { from + sum (shape sites.now) < 2 ^ 16 }
    requires array { ArePlaces (shape sites.now) array.now }
    requires room { length (concat (placed from (shape sites.now) array.now)) ≤ length out.old }
    ensures count { result ≡ length (concat (placed from (shape sites.now) array.now)) }
    ensures sites { take result out.new ≡ concat (placed from (shape sites.now) array.now) }
{
    match sites.split_first() {
        None => 0,
        Some((row, rows)) => match array.split_first() {
            None => 0,
            Some((list, lists)) => {
                let (here, later) = out.split_at_mut(list.len());
                place_list(from, list.as_slice(), here);
                list.len() + place_lists(from + row.len() as u16, rows, lists, later)
            }
        },
    }
}

/// The sites of an array, and how many they are.
pub fn place_array(sites: &[Items<Option<u16>>], array: &[Items<u16>], out: &mut [u16]) -> usize
    requires sites { sum (shape sites.now) < 2 ^ 16 }
    requires array { ArePlaces (shape sites.now) array.now }
    requires room { length (concat (placed 0 (shape sites.now) array.now)) ≤ length out.old }
    ensures count { result ≡ length (concat (placed 0 (shape sites.now) array.now)) }
    ensures sites { take result out.new ≡ concat (placed 0 (shape sites.now) array.now) }
{
    place_lists(0, sites, array, out)
}

/// The form of a binary interaction, whose factor is 1 at the order 0.
#[tactic(auto, using(crate::proofs::Lists::forms))]
fn pair_form(order: u8, first: u16, second: u16) -> Form
    ensures { result ≡ pair_form order first second }
{
    if order == 0 {
        Form::Plain
    } else {
        Form::Difference { first, second }
    }
}

/// The own constituent of a weighted ternary interaction: the one at the place of the order.
fn own_of(order: u8, first: u16, second: u16, third: u16) -> u16
    ensures { result ≡ own_of order first second third }
{
    match order {
        0 => first,
        1 => second,
        _ => third,
    }
}

/// The form of a weighted ternary interaction.
fn triple_form(order: u8, first: u16, second: u16, third: u16) -> Form
    ensures { result ≡ form_of order true ((first ∷ second ∷ third ∷ []) ∷ []) }
{
    Form::Weighted {
        own: own_of(order, first, second, third),
        first,
        second,
        third,
    }
}

/// The form of the factor of an array with one list of two or more.
#[tactic(auto, using(crate::proofs::Lists::forms))]
fn form_of_list(order: u8, weighted: bool, from: u16, list: &[u16]) -> Form
    requires room { AllByRecursion (λ p. from + p < 2 ^ 16) list.now }
    ensures { result ≡ form_of order weighted (map (λ p. from + p) list.now ∷ []) }
{
    if list.len() == 2 {
        pair_form(order, from + list[0], from + list[1])
    } else if list.len() == 3 {
        if weighted {
            triple_form(order, from + list[0], from + list[1], from + list[2])
        } else {
            Form::Plain
        }
    } else {
        Form::Plain
    }
}

/// The form by the lists of two or more from a sublattice on, where there is one.
#[tactic(auto, using(crate::proofs::Lists::found))]
fn form_behind(
    order: u8,
    weighted: bool,
    from: u16,
    sites: &[Items<Option<u16>>],
    array: &[Items<u16>],
) -> Option<Form>
    requires sites { from + sum (shape sites.now) < 2 ^ 16 }
    requires array { ArePlaces (shape sites.now) array.now }
    ensures { result ≡ found_form order weighted (interacting (placed from (shape sites.now) array.now)) }
{
    match sites.split_first() {
        None => None,
        Some((row, rows)) => match array.split_first() {
            None => None,
            Some((list, lists)) => {
                let later = form_behind(order, weighted, from + row.len() as u16, rows, lists);
                if list.len() < 2 {
                    return later;
                }
                with_list(order, weighted, from, list.as_slice(), later)
            }
        },
    }
}

/// The form of a list of two or more and those behind it.
#[tactic(auto, using(crate::proofs::Lists::found))]
fn with_list(
    order: u8,
    weighted: bool,
    from: u16,
    list: &[u16],
    later: Option<Form>,
) -> Option<Form>
    requires room { AllByRecursion (λ p. from + p < 2 ^ 16) list.now }
    ensures { (lists : List (List ℕ)) → later ≡ found_form order weighted lists → result ≡ found_form order weighted (map (λ p. from + p) list.now ∷ lists) }
{
    match later {
        None => Some(form_of_list(order, weighted, from, list)),
        Some(_) => Some(Form::Plain),
    }
}

/// The form of the factor of an array.
#[tactic(auto, using(crate::proofs::Lists::found))]
pub fn form_of(
    order: u8,
    weighted: bool,
    sites: &[Items<Option<u16>>],
    array: &[Items<u16>],
) -> Form
    requires sites { sum (shape sites.now) < 2 ^ 16 }
    requires array { ArePlaces (shape sites.now) array.now }
    ensures { result ≡ form_of order weighted (interacting (placed 0 (shape sites.now) array.now)) }
{
    form_behind(order, weighted, 0, sites, array).unwrap_or(Form::Plain)
}
