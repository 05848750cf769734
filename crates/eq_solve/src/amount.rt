ghost use Rattle.std.specs.Prelude.{◌≡◌, ℕ, ◌<◌, length, map, filter, IfOk, pos, ◌*ℤ◌, ◌≤ℤ◌, FitsSigned};
ghost use Rattle.std.specs.Int.{w128, int_div_euclid};
ghost use Rattle.cal_math.specs.Vectors.{at};
ghost use Rattle.lp_stage.specs.Leaving.{amounts_at};
ghost use Rattle.lp_core.specs.Plans.{given_amount};
ghost use Rattle.eq_solve.specs.Prices.{floored};
ghost use Rattle.std.specs.List.{AllByRecursion};
ghost use Rattle.eq_solve.specs.Figures.{AreAmounts, is_some, entry_at};

use cal_list::Items;
use cef_report::Entry;
use lp_core::Column;
use std::alloc::{AllocError, Global};

/// A weight in whole parts.
fn floored_of(place: usize, weight: i128, parts: i128) -> (usize, i128)
    requires { pos 1 ≤ℤ parts }
    ensures { result ≡ floored parts (place, weight) }
{
    (place, weight.div_euclid(parts))
}

/// The weights of a plan in whole parts.
pub(crate) fn amounts_of(
    alloc: Global,
    weights: &[(usize, i128)],
    parts: i128,
) -> Result<Vec<(usize, i128)>, AllocError>
    requires { pos 1 ≤ℤ parts }
    ensures { IfOk result (λ amounts. amounts.items ≡ map (floored parts) weights.now) }
{
    let mut amounts = Vec::new(alloc);
    'weights: for weight in weights {
        amounts.push(floored_of(weight.0, weight.1, parts))?;
    }
    Ok(amounts)
}

/// An amount times the content of a component.
fn term(columns: &[Column], place: usize, amount: i128, component: usize) -> i128
    requires place { place < length columns.now }
    requires component { component < length (amounts_at columns.now place) }
    requires fits { FitsSigned w128 (amount *ℤ at (amounts_at columns.now place) component) }
    ensures { result ≡ amount *ℤ at (amounts_at columns.now place) component }
{
    let column = &columns[place];
    amount * column.amounts[component]
}

/// The total of a component.
fn total_of(columns: &[Column], asked: &[i128], amounts: &[(usize, i128)], component: usize) -> i128
    requires amounts { AreAmounts columns.now asked.now amounts.now }
    requires component { component < length asked.now }
    ensures { result ≡ given_amount columns.now amounts.now component }
{
    match amounts.split_first() {
        None => 0,
        Some((first, rest)) => {
            let behind = total_of(columns, asked, rest, component);
            term(columns, first.0, first.1, component) + behind
        }
    }
}

/// The totals of all components.
pub(crate) fn totals_of(
    alloc: Global,
    columns: &[Column],
    asked: &[i128],
    amounts: &[(usize, i128)],
) -> Result<Vec<i128>, AllocError>
    requires { AreAmounts columns.now asked.now amounts.now }
    ensures same { IfOk result (λ totals. length totals.items ≡ length asked.now) }
    ensures are { IfOk result (λ totals. (c : ℕ) → c < length asked.now → at totals.items c ≡ given_amount columns.now amounts.now c) }
{
    let mut totals = Vec::new(alloc);
    'components: for component in 0..asked.len() {
        totals.push(total_of(columns, asked, amounts, component))?;
    }
    Ok(totals)
}

/// The amounts of at least 1.
pub(crate) fn some_of(
    alloc: Global,
    amounts: &[(usize, i128)],
) -> Result<Vec<(usize, i128)>, AllocError>
    ensures { IfOk result (λ some. some.items ≡ filter is_some amounts.now) }
{
    let mut some = Vec::new(alloc);
    'amounts: for amount in amounts {
        if amount.1 > 0 {
            some.push(*amount)?;
        }
    }
    Ok(some)
}

/// An amount of a known constitution.
fn entry_of(alloc: Global, known: &[Entry], place: usize, amount: i128) -> Result<Entry, AllocError>
    requires { place < length known.now }
    ensures { IfOk result (λ entry. entry ≡ entry_at known.now (place, amount)) }
{
    let other = &known[place];
    let site = other.site.copy(alloc)?;
    Ok(Entry {
        phase: other.phase,
        amount,
        site,
    })
}

/// The amounts as entries.
pub(crate) fn entries_of(
    alloc: Global,
    known: &[Entry],
    amounts: &[(usize, i128)],
) -> Result<Items<Entry>, AllocError>
    requires { AllByRecursion (λ w. w.0 < length known.now) amounts.now }
    ensures { IfOk result (λ entries. entries ≡ map (entry_at known.now) amounts.now) }
{
    let mut entries = Items::new(alloc);
    'amounts: for amount in amounts {
        entries.push(entry_of(alloc, known, amount.0, amount.1)?)?;
    }
    Ok(entries)
}
