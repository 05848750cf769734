//! What a walk keeps of each element.

ghost use Rattle.std.specs.Prelude.{◌≡◌, ◌≤◌, ℕ, ◌<◌, IfOk, IfSome, length, replicate, ℤ, pos, ◌+ℤ◌, ◌-ℤ◌, ◌≤ℤ◌};
ghost use Rattle.cal_limits.specs.declared.TheConstants.{MOST_ASKED};
ghost use Rattle.cal_math.specs.Vectors.{at};
ghost use Rattle.cal_select.specs.Chosen.{component_of};
ghost use Rattle.cal_scheil.specs.Accounts as spec;
ghost use Rattle.cal_scheil.specs.Accounts.{IsAccount, account_in_order};
ghost use Rattle.cal_scheil.specs.Workings.{AreWithin, AreMoved, IsMoved};

use cal_list::Items;
use cal_scan::Name;
use std::alloc::{AllocError, Global};

/// What a walk keeps of each element, in the order of the names and in units of 1/N nmol.
#[derive(Drop)]
pub(crate) struct Account {
    pub(crate) names: Items<Name>,
    /// What was asked at first.
    pub(crate) asked: Items<i128>,
    pub(crate) solids: Items<i128>,
    /// What remains of the liquid, which is asked next.
    pub(crate) remains: Items<i128>,
    /// What was asked of an equilibrium and is not in it.
    pub(crate) lost: Items<i128>,
}

pub(crate) fn copies(alloc: Global, names: &[Name]) -> Result<Items<Name>, AllocError>
    ensures { IfOk result (λ copies. copies ≡ names.now) }
{
    let mut copies = Items::new(alloc);
    'names: for name in names {
        copies.push(name.copy()?)?;
    }
    Ok(copies)
}

fn place_of(names: &[Name], name: &Name) -> Option<usize>
    ensures value { result ≡ component_of names.now name.now }
    ensures within { IfSome result (λ place. place < length names.now) }
{
    names.iter().position(|other| other == name)
}

/// The number beside the name, or 0.
fn number_beside(names: &[Name], numbers: &[i128], name: &Name) -> i128
    requires { length numbers.now ≡ length names.now }
    ensures { result ≡ spec.number_beside names.now numbers.now name.now }
{
    match place_of(names, name) {
        None => 0,
        Some(place) => numbers[place],
    }
}

/// For each name of the order the number beside it.
fn in_order(
    alloc: Global,
    names: &[Name],
    numbers: &[i128],
    order: &[Name],
) -> Result<Items<i128>, AllocError>
    requires { length numbers.now ≡ length names.now }
    ensures { IfOk result (λ all. all ≡ spec.in_order names.now numbers.now order.now) }
{
    let mut all = Items::new(alloc);
    'names: for name in order {
        all.push(number_beside(names, numbers, name))?;
    }
    Ok(all)
}

/// The account in the order of other names.
pub(crate) fn account_in_order(
    alloc: Global,
    account: &Account,
    order: &[Name],
) -> Result<Account, AllocError>
    requires { IsAccount account.now }
    ensures { IfOk result (λ other. other ≡ account_in_order account.now order.now) }
{
    let from = account.names.as_slice();
    let names = copies(alloc, order)?;
    let asked = in_order(alloc, from, account.asked.as_slice(), order)?;
    let solids = in_order(alloc, from, account.solids.as_slice(), order)?;
    let remains = in_order(alloc, from, account.remains.as_slice(), order)?;
    let lost = in_order(alloc, from, account.lost.as_slice(), order)?;
    Ok(Account {
        names,
        asked,
        solids,
        remains,
        lost,
    })
}

/// A number with the difference of two others added to it.
fn moved_one(sum: i128, more: i128, less: i128) -> i128
    requires sum_low { pos 0 ≤ℤ sum }
    requires sum_high { sum ≤ℤ pos MOST_ASKED }
    requires less_low { pos 0 ≤ℤ less }
    requires less_high { less ≤ℤ more }
    requires more_high { more ≤ℤ pos MOST_ASKED }
    ensures { result ≡ sum +ℤ (more -ℤ less) }
{
    sum + (more - less)
}

/// Each number with the difference of two others added to it.
fn moved(
    alloc: Global,
    sums: &[i128],
    more: &[i128],
    less: &[i128],
) -> Result<Items<i128>, AllocError>
    requires more_each { length more.now ≡ length sums.now }
    requires less_each { length less.now ≡ length sums.now }
    requires sum_low { (c : ℕ) → pos 0 ≤ℤ at sums.now c }
    requires sum_high { (c : ℕ) → at sums.now c ≤ℤ pos MOST_ASKED }
    requires less_within { AreWithin less.now more.now }
    requires more_high { (c : ℕ) → at more.now c ≤ℤ pos MOST_ASKED }
    ensures { IfOk result (λ all. AreMoved sums.now more.now less.now all) }
{
    let mut all = Items::new(alloc);
    'places: for place in 0..sums.len() {
        let sum = moved_one(sums[place], more[place], less[place]);
        all.push(sum)?;
    }
    Ok(all)
}

pub(crate) fn numbers_of(alloc: Global, numbers: &[i128]) -> Result<Items<i128>, AllocError>
    ensures { IfOk result (λ copy. copy ≡ numbers.now) }
{
    Ok(Items::from_vec(Vec::from_slice(alloc, numbers)?))
}

pub(crate) fn zeros(alloc: Global, count: usize) -> Result<Items<i128>, AllocError>
    ensures { IfOk result (λ all. all ≡ replicate count (pos 0)) }
{
    let mut all = Items::new(alloc);
    'places: for _place in 0..count {
        all.push(0)?;
    }
    Ok(all)
}

/// The account after an equilibrium with these totals, which leaves so much of the liquid.
pub(crate) fn account_after(
    alloc: Global,
    account: Account,
    totals: &[i128],
    left: &[i128],
) -> Result<Account, AllocError>
    requires account { IsAccount account }
    requires total_each { length totals.now ≡ length account.names }
    requires left_each { length left.now ≡ length account.names }
    requires totals { AreWithin totals.now account.remains }
    requires left { AreWithin left.now totals.now }
    ensures { IfOk result (λ after. IsMoved account totals.now left.now after) }
{
    let Account {
        names,
        asked,
        solids,
        remains,
        lost,
    } = account;
    let solids = moved(alloc, solids.as_slice(), totals, left)?;
    let lost = moved(alloc, lost.as_slice(), remains.as_slice(), totals)?;
    let remains = numbers_of(alloc, left)?;
    Ok(Account {
        names,
        asked,
        solids,
        remains,
        lost,
    })
}
