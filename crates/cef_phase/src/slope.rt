//! What one count of a site is worth at given potentials.

ghost use Rattle.std.specs.Prelude.{◌≡◌, ℕ, ◌≤◌, ◌<◌, ◌*◌, ◌^◌, length, pos, ◌*ℤ◌, unsigned_abs};
ghost use Rattle.std.specs.List.{AllByRecursion};
ghost use Rattle.cal_math.specs.Vectors.{at};
ghost use Rattle.cef_core.specs.Shapes.{places};
ghost use Rattle.cef_phase.specs.Bounds.{slope_of, slopes_of, IsOneOf};
ghost use Rattle.cef_phase.specs.Walks.{AreSmall, AreSlopes, AreRises, CanRow, less, slopes_over};

use crate::row::Row;
use cal_list::Items;
use cal_whole::minus;

/// So many times a number.
#[tactic(auto, using(crate::proofs::Slopes::sharing))]
pub fn share(number: i128, times: u32) -> i128
    requires { unsigned_abs number * times ≤ 2 ^ 117 }
    ensures exact { result ≡ number *ℤ pos times }
    ensures size { unsigned_abs result ≤ 2 ^ 117 }
{
    number * i128::from(times)
}

/// The slope of a site: the potential of its component times the ratio, 0 for a vacancy.
#[tactic(auto, using(crate::proofs::Slopes::sloping))]
fn slope_of(potentials: &[i128], ratio: u32, site: Option<u16>) -> i128
    requires component { IsOneOf (length potentials.now) site }
    requires small { AreSmall ratio potentials.now }
    ensures exact { result ≡ slope_of potentials.now ratio site }
    ensures size { unsigned_abs result ≤ 2 ^ 117 }
{
    match site {
        None => 0,
        Some(component) => share(potentials[usize::from(component)], ratio),
    }
}

/// The slopes of the sites of a sublattice less the numbers that stand in their places.
#[tactic(auto, using(crate::proofs::Lowering::rows))]
fn lower_row(potentials: &[i128], ratio: u32, sites: &[Option<u16>], slopes: &mut [i128])
    requires components { AllByRecursion (IsOneOf (length potentials.now)) sites.now }
    requires small { AreSmall ratio potentials.now }
    requires each { length slopes.old ≡ length sites.now }
    requires room { AreRises slopes.old }
    ensures { slopes.new ≡ less (slopes_of potentials.now ratio sites.now) slopes.old }
{
    match sites.split_first() {
        None => (),
        Some((site, others)) => match slopes.split_first_mut() {
            None => (),
            Some((slope, behind)) => {
                *slope = minus(slope_of(potentials, ratio, *site), *slope);
                lower_row(potentials, ratio, others, behind);
            }
        },
    }
}

/// The slopes of the sites of all sublattices less the numbers that stand in their places.
#[tactic(auto, using(crate::proofs::Lowering::all))]
pub fn lower_rows(
    potentials: &[i128],
    ratios: &[u32],
    sites: &[Items<Option<u16>>],
    slopes: &mut [i128],
)
    requires components { AllByRecursion (AllByRecursion (IsOneOf (length potentials.now))) sites.now }
    requires small { AllByRecursion (λ ratio. AreSmall ratio potentials.now) ratios.now }
    requires ratios { length ratios.now ≡ length sites.now }
    requires each { length slopes.old ≡ places sites.now }
    requires room { AreRises slopes.old }
    ensures { slopes.new ≡ less (slopes_over potentials.now ratios.now sites.now) slopes.old }
{
    match ratios.split_first() {
        None => (),
        Some((ratio, ratios)) => match sites.split_first() {
            None => (),
            Some((row, rows)) => {
                let (here, behind) = slopes.split_at_mut(row.len());
                lower_row(potentials, *ratio, row.as_slice(), here);
                lower_rows(potentials, ratios, rows, behind);
            }
        },
    }
}

/// The slope of a site of a sublattice.
#[tactic(auto, using(crate::proofs::Slopes::placing))]
pub fn slope_at(row: &Row<'_>, site: usize) -> i128
    requires row { CanRow (2 ^ 118) row.now }
    requires site { site < length row.now.slopes.now }
    ensures exact { result ≡ at row.now.slopes.now site }
    ensures small { (limit : ℕ) → AreSlopes row.now.mix.now.lattice limit row.now.slopes.now → unsigned_abs result * row.now.mix.now.lattice ≤ limit }
{
    row.slopes[site]
}
