//! How many lists of counts a phase has on its lattice.

ghost use Rattle.std.specs.Prelude.{◌≡◌, ◌≤◌, ◌<◌, ◌*◌, ◌^◌, length};
ghost use Rattle.std.specs.List.{AllByRecursion};
ghost use Rattle.cef_core.specs.Shapes.{shape};
ghost use Rattle.cef_core.specs.Capped.{within};
ghost use Rattle.cef_core.specs.Points.{number_of, points_of, points_in};

use crate::phase::PhaseAt;
use cal_limits::MOST_LISTS;
use cal_list::Items;

/// How many lists of this many counts add to the total, where these are at most 2^40.
fn lists_within(sites: usize, total: u32) -> Option<u64>
    requires { 1 ≤ sites }
    ensures { result ≡ within MOST_LISTS (number_of sites total) }
{
    let mut lists: u64 = 1;
    'sites: for more in 1..sites {
        let next = u128::from(lists) * (u128::from(total) + more as u128) / more as u128;
        if next > MOST_LISTS as u128 {
            return None;
        }
        lists = next as u64;
    }
    Some(lists)
}

fn product_within(a: u64, b: u64) -> Option<u64>
    requires a { a ≤ MOST_LISTS }
    requires b { b ≤ MOST_LISTS }
    ensures { result ≡ within MOST_LISTS (a * b) }
{
    let product = u128::from(a) * u128::from(b);
    if product <= MOST_LISTS as u128 {
        Some(product as u64)
    } else {
        None
    }
}

/// The lists of one more sublattice beside so many of those before.
fn more_within(points: u64, sites: usize, lattice: u32) -> Option<u64>
    requires one { 1 ≤ points }
    requires points { points ≤ MOST_LISTS }
    requires sites { 1 ≤ sites }
    ensures { result ≡ within MOST_LISTS (points * number_of sites lattice) }
{
    let lists = lists_within(sites, lattice)?;
    product_within(points, lists)
}

fn points_within(sites: &[Items<Option<u16>>], lattice: u32) -> Option<u64>
    requires { AllByRecursion (λ sublattice. 1 ≤ length sublattice) sites.now }
    ensures { result ≡ within MOST_LISTS (points_of lattice (shape sites.now)) }
{
    let mut points = 1;
    'sublattices: for sublattice in sites {
        points = more_within(points, sublattice.len(), lattice)?;
    }
    Some(points)
}

/// How many lists of counts the phase has, where these are at most 2^40.
pub fn count_points(phase: &PhaseAt) -> Option<u64>
    requires { AllByRecursion (λ sublattice. 1 ≤ length sublattice) phase.now.sites }
    ensures { result ≡ within MOST_LISTS (points_in phase.now) }
{
    points_within(phase.sites.as_slice(), phase.lattice)
}
