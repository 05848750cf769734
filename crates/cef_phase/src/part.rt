//! The part of one sublattice in the bound of a box.

ghost use Rattle.std.specs.Prelude.{◌≡◌, ◌≤◌, ◌<◌, ◌+◌, ◌*◌, ◌^◌, length, unsigned_abs};
ghost use Rattle.cef_phase.specs.Walks.{CanRow, FitsRow, IsSiteLeast, IsUnderLine, part_at};

use crate::row::Row;
use crate::slope::{share, slope_at};
use cal_whole::plus;
use cef_mix::Least;

/// The least of a site's height less the multiplier's share, over its range, and a count that has it.
#[tactic(auto, using(crate::proofs::Rows::site))]
fn site_least(row: &Row<'_>, site: usize, multiplier: i128) -> Least
    requires row { CanRow (2 ^ 118) row.now }
    requires site { site < length row.now.slopes.now }
    requires multiplier { FitsRow row.now multiplier }
    ensures least { IsSiteLeast row.now site multiplier result }
    ensures size { unsigned_abs result.height ≤ 2 ^ 119 }
    ensures within { result.place ≤ row.now.mix.now.lattice }
{
    let both = plus(slope_at(row, site), multiplier);
    row.mix
        .least_on(row.place, row.low[site], row.high[site], both)
}

/// A sublattice's part under a multiplier, and the sum of the counts at which its sites are least.
#[derive(Clone, Copy)]
pub struct Part {
    pub height: i128,
    pub counts: u32,
}

/// The part of a sublattice: N times the multiplier, and the least of each site. By how much N is more than the least counts
/// together, so much does the part rise at most for each further one of the multiplier.
#[tactic(auto, using(crate::proofs::Rows::row))]
pub fn row_part(row: &Row<'_>, multiplier: i128) -> Part
    requires row { CanRow (2 ^ 118) row.now }
    requires multiplier { FitsRow row.now multiplier }
    ensures exact { result.height ≡ part_at row.now multiplier }
    ensures size { unsigned_abs result.height ≤ 2 ^ 119 * length row.now.slopes.now + 2 ^ 117 }
    ensures line { IsUnderLine row.now multiplier result }
{
    let mut height = share(multiplier, row.mix.parts());
    let mut counts = 0;
    'each: for site in 0..row.slopes.len() {
        let least = site_least(row, site, multiplier);
        height = plus(height, least.height);
        counts += u32::from(least.place);
    }
    Part { height, counts }
}
