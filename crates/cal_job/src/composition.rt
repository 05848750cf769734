//! The elements and their amounts.

ghost use Rattle.std.specs.Prelude.{◌≡◌, ◌≤◌, ◌<◌, ◌^◌, ℕ, List, IfOk, Err, All, Some, None, map, sum};
ghost use Rattle.cal_scan.specs.Lines.{texts};
ghost use Rattle.cal_limits.specs.declared.TheConstants.{MOST_NANOMOLES};
ghost use Rattle.cal_job.specs.Forms as forms;
ghost use Rattle.cal_job.specs.Requests.{IsBetween, AreAmounts};
ghost use Rattle.cal_job.specs.Saying.{Word, GivesAmounts};

use crate::form::AMOUNT_FORM;
use crate::names::name;
use crate::number::number_within;
use cal_args::WordsFault;
use cal_limits::{LEAST_NANOMOLES, MOST_ELEMENTS};
use cal_list::Items;
use cal_scan::{COMMA, EQUALS, Name, names, parts_at};
use std::alloc::{AllocError, Global};

/// Elements, and the amount of each in nmol.
#[derive(Drop)]
pub struct Composition {
    pub elements: Items<Name>,
    pub amounts: Items<u64>,
}

/// The name and the amount of the two parts at `=`.
fn item_from(alloc: Global, parts: &[&[u8]]) -> Result<(Name, u64), WordsFault>
    ensures value { IfOk result (λ item. forms.item_from (texts parts.now) ≡ Some item) }
    ensures range { IfOk result (λ item. IsBetween 1 MOST_NANOMOLES item.1) }
    ensures usage { result ≡ Err WordsFault.Usage → forms.item_from (texts parts.now) ≡ None }
{
    match parts {
        [element, number] => {
            let name = name(alloc, element)?;
            let amount = number_within(alloc, number, AMOUNT_FORM)?;
            Ok((name, amount))
        }
        _ => Err(WordsFault::Usage),
    }
}

/// The name and the amount of `NAME=number`.
#[tactic(auto, unfolding(crate::specs::Forms::item_of))]
fn item(alloc: Global, text: &[u8]) -> Result<(Name, u64), WordsFault>
    ensures value { IfOk result (λ item. forms.item_of text.now ≡ Some item) }
    ensures range { IfOk result (λ item. IsBetween 1 MOST_NANOMOLES item.1) }
    ensures usage { result ≡ Err WordsFault.Usage → forms.item_of text.now ≡ None }
{
    let parts = parts_at(alloc, text, EQUALS)?;
    let item = item_from(alloc, parts.as_slice())?;
    Ok(item)
}

/// The name and the amount of each text.
fn items(alloc: Global, words: &[&[u8]]) -> Result<Items<(Name, u64)>, WordsFault>
    ensures value { IfOk result (λ items.
        map forms.item_of (texts words.now) ≡ map (λ item. Some item) items) }
    ensures range { IfOk result (λ items. All (λ item. IsBetween 1 MOST_NANOMOLES item.1) items) }
    ensures usage { result ≡ Err WordsFault.Usage → (items : List (Word × ℕ)) →
        ¬ (map forms.item_of (texts words.now) ≡ map (λ item. Some item) items) }
{
    let mut all = Items::new(alloc);
    'words: for i in 0..words.len() {
        let item = item(alloc, words[i])?;
        all.push(item)?;
    }
    Ok(all)
}

fn element_words(alloc: Global, items: &[(Name, u64)]) -> Result<Vec<&[u8]>, AllocError>
    ensures { IfOk result (λ words. texts words.items ≡ map (λ item. item.0) items.now) }
{
    items.iter().map(|item| item.0.bytes()).collect(alloc)
}

fn amounts_in(alloc: Global, items: &[(Name, u64)]) -> Result<Items<u64>, AllocError>
    ensures { IfOk result (λ amounts. amounts ≡ map (λ item. item.1) items.now) }
{
    let amounts: Vec<u64> = items.iter().map(|item| item.1).collect(alloc)?;
    Ok(Items::from_vec(amounts))
}

fn total(amounts: &[u64]) -> u64
    requires { sum amounts.now < 2 ^ 64 }
    ensures { result ≡ sum amounts.now }
{
    amounts.iter().sum()
}

/// The elements of the items, which have different names, and their amounts, which are not too
/// little together.
fn composition_of(alloc: Global, items: &[(Name, u64)]) -> Result<Composition, WordsFault>
    requires { All (λ item. IsBetween 1 MOST_NANOMOLES item.1) items.now }
    ensures elements { IfOk result (λ a. a.elements ≡ map (λ item. item.0) items.now) }
    ensures amounts { IfOk result (λ a. a.amounts ≡ map (λ item. item.1) items.now) }
    ensures range { IfOk result (λ a. AreAmounts a.elements a.amounts) }
    ensures usage { result ≡ Err WordsFault.Usage →
        ¬ AreAmounts (map (λ item. item.0) items.now) (map (λ item. item.1) items.now) }
{
    let words = element_words(alloc, items)?;
    let found = names(alloc, Some(MOST_ELEMENTS), words.as_slice())?;
    match found {
        None => Err(WordsFault::Usage),
        Some(elements) => {
            let amounts = amounts_in(alloc, items)?;
            if total(amounts.as_slice()) < LEAST_NANOMOLES {
                return Err(WordsFault::Usage);
            }
            Ok(Composition { elements, amounts })
        }
    }
}

/// The elements and the amounts that a text gives, with commas between its items.
pub fn read_composition(alloc: Global, text: &[u8]) -> Result<Composition, WordsFault>
    ensures value { IfOk result (λ a. GivesAmounts (Some text.now) a.elements a.amounts) }
    ensures range { IfOk result (λ a. AreAmounts a.elements a.amounts) }
    ensures usage { result ≡ Err WordsFault.Usage → (elements : List Word) (amounts : List ℕ) →
        AreAmounts elements amounts → ¬ GivesAmounts (Some text.now) elements amounts }
{
    let parts = parts_at(alloc, text, COMMA)?;
    let items = items(alloc, parts.as_slice())?;
    let composition = composition_of(alloc, items.as_slice())?;
    Ok(composition)
}
