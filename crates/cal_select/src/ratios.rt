//! The ratios of a phase as whole numbers.

ghost use Rattle.std.specs.Prelude.{◌≡◌, ◌≤◌, ◌<◌, ◌+◌, IfOk, IfSome, Some, None, sum, map, nat_lt};
ghost use Rattle.std.specs.List.{list_all, AllByRecursion, find};
ghost use Rattle.cal_select.specs.Wholes as spec;
ghost use Rattle.cal_select.specs.Causes.{is_too_wide as too_wide};

use crate::wholes::whole;
use cal_dec::Dec;
use cal_limits::{MOST_RATIO_DECIMALS, MOST_RATIOS};
use cal_list::Items;
use std::alloc::{AllocError, Global};

fn is_whole_at(decimals: u32, ratio: Dec) -> bool
    requires { decimals ≤ 5 }
    ensures { result ≡ spec.is_whole_at decimals ratio }
{
    whole(decimals, ratio, 1).is_some()
}

fn are_whole_at(decimals: u32, ratios: &[Dec]) -> bool
    requires { decimals ≤ 5 }
    ensures { result ≡ list_all (spec.is_whole_at decimals) ratios.now }
{
    ratios.iter().all(|ratio| is_whole_at(decimals, *ratio))
}

/// The least number of decimals that is enough for all ratios, where 5 are.
pub(crate) fn decimals(ratios: &[Dec]) -> Option<u32>
    ensures value { result ≡ spec.decimals_of ratios.now }
    ensures few { IfSome result (λ d. d ≤ MOST_RATIO_DECIMALS) }
{
    'decimals: for decimals in 0..MOST_RATIO_DECIMALS + 1 {
        if are_whole_at(decimals, ratios) {
            return Some(decimals);
        }
    }
    None
}

/// The whole ratio, or one more than the limit of their sum where it is more.
fn capped_ratio(decimals: u32, ratio: Dec) -> u32
    requires { decimals ≤ 5 }
    ensures value { result ≡ spec.capped_ratio decimals ratio }
    ensures size { result ≤ MOST_RATIOS + 1 }
{
    whole(decimals, ratio, MOST_RATIOS + 1).unwrap_or(0)
}

fn capped_ratios(alloc: Global, decimals: u32, ratios: &[Dec]) -> Result<Vec<u32>, AllocError>
    requires { decimals ≤ 5 }
    ensures { IfOk result (λ v. v.items ≡ map (spec.capped_ratio decimals) ratios.now) }
{
    ratios
        .iter()
        .map(|ratio| capped_ratio(decimals, *ratio))
        .collect(alloc)
}

/// Whether the numbers add to more than 100000.
fn is_sum_too_wide(numbers: &[u32]) -> bool
    ensures { result ≡ nat_lt MOST_RATIOS (sum numbers.now) }
{
    let mut sum: u64 = 0;
    'numbers: for number in numbers {
        sum = sum + *number as u64;
        if sum > MOST_RATIOS as u64 {
            return true;
        }
    }
    false
}

/// Whether the ratios have too many decimals or add to too much.
#[tactic(auto, using(crate::proofs::Ratios_capped::ratios_capped), unfolding(crate::specs::Causes::is_too_wide))]
pub(crate) fn is_too_wide(alloc: Global, ratios: &[Dec]) -> Result<bool, AllocError>
    ensures { IfOk result (λ wide. wide ≡ too_wide ratios.now) }
{
    match decimals(ratios) {
        None => Ok(true),
        Some(decimals) => {
            let numbers = capped_ratios(alloc, decimals, ratios)?;
            Ok(is_sum_too_wide(numbers.as_slice()))
        }
    }
}

/// The ratios as whole numbers.
#[tactic(auto, using(crate::proofs::Ratios_capped::ratios_capped))]
pub(crate) fn whole_ratios(
    alloc: Global,
    decimals: u32,
    ratios: &[Dec],
) -> Result<Items<u32>, AllocError>
    requires few { decimals ≤ 5 }
    requires narrow { sum (spec.whole_ratios decimals ratios.now) ≤ MOST_RATIOS }
    ensures { IfOk result (λ whole. whole ≡ spec.whole_ratios decimals ratios.now) }
{
    let numbers = capped_ratios(alloc, decimals, ratios)?;
    Ok(Items::from_vec(numbers))
}
