//! The sublattices of a phase, one by one: their parts together, and their multipliers.

ghost use Rattle.std.specs.Prelude.{◌≡◌, ℕ, ℤ, ◌≤◌, ◌<◌, ◌+◌, ◌-◌, ◌*◌, ◌^◌, length, take, drop, slice_index, unsigned_abs};
ghost use Rattle.std.specs.List.{AllByRecursion};
ghost use Rattle.cal_math.specs.Vectors.{at, sum_to};
ghost use Rattle.cef_core.specs.Shapes.{places};
ghost use Rattle.cef_box.specs.Terms.{FitsBox, shape_of_phase};
ghost use Rattle.cef_phase.specs.Affine.{sites_to};
ghost use Rattle.cef_phase.specs.Bounds.{AreMultipliers, IsPlane};
ghost use Rattle.cef_phase.specs.Sums.{IsMixed};
ghost use Rattle.cef_phase.specs.Walks.{CanWalk, CanRow, AreSlopes, AreRises, part_at, candidates_at, sites_at};
ghost use Rattle.cef_phase.specs.Walks.{part_among, candidates_among, IsChosenAmong, lowered_parts, IsChosenLowered};

use crate::choose::{Chosen, choose_row};
use crate::part::row_part;
use crate::row::Row;
use crate::slope::lower_rows;
use cal_whole::plus;
use cef_box::BoxRange;
use cef_core::PhaseAt;
use cef_mix::Mix;

/// So many slopes from a place on.
fn slopes_from(slopes: &[i128], from: usize, count: usize) -> &[i128]
    requires { from + count ≤ length slopes.now }
    ensures { result.now ≡ take count (drop from slopes.now) }
{
    let (_, behind) = slopes.split_at(from);
    let (here, _) = behind.split_at(count);
    here
}

/// A sublattice of a box, whose slopes stand from a place on.
#[tactic(auto, using(crate::proofs::Walking::rows))]
fn row_of<'a>(
    mix: &'a Mix,
    phase: &'a PhaseAt,
    range: &'a BoxRange,
    slopes: &'a [i128],
    place: usize,
    from: usize,
) -> Row<'a>
    requires walk { CanWalk (2 ^ 118) phase.now mix.now range.now slopes.now }
    requires place { place < length phase.now.sites }
    requires from { from ≡ sites_to place phase.now.sites }
    ensures row { CanRow (2 ^ 118) result }
    ensures slopes { (limit : ℕ) → AreSlopes phase.now.lattice limit slopes.now → AreSlopes result.mix.now.lattice limit result.slopes.now }
    ensures lattice { result.mix.now.lattice ≡ phase.now.lattice }
    ensures sites { length result.slopes.now ≡ length (sites_at phase.now place) }
    ensures part { (l : ℤ) → part_at result l ≡ part_among phase.now slopes.now range.now place l }
    ensures candidates { candidates_at result ≡ candidates_among phase.now slopes.now range.now place }
{
    let ranges = range.sublattice(place);
    Row {
        mix,
        place,
        slopes: slopes_from(slopes, from, phase.sites_in(place)),
        low: ranges.low,
        high: ranges.high,
    }
}

/// The part of a sublattice in the bound of a box.
#[tactic(auto, using(crate::proofs::Walking::parts))]
fn part_in(
    mix: &Mix,
    phase: &PhaseAt,
    range: &BoxRange,
    slopes: &[i128],
    place: usize,
    from: usize,
    multiplier: i128,
) -> i128
    requires walk { CanWalk (2 ^ 118) phase.now mix.now range.now slopes.now }
    requires place { place < length phase.now.sites }
    requires from { from ≡ sites_to place phase.now.sites }
    requires multiplier { unsigned_abs multiplier * phase.now.lattice ≤ 2 ^ 117 }
    ensures exact { result ≡ part_among phase.now slopes.now range.now place multiplier }
    ensures size { unsigned_abs result ≤ 2 ^ 119 * length (sites_at phase.now place) + 2 ^ 117 }
{
    let row = row_of(mix, phase, range, slopes, place, from);
    let part = row_part(&row, multiplier);
    part.height
}

/// The parts of the first sublattices together, whose slopes end at a place.
#[tactic(auto, using(crate::proofs::Walking::sums))]
fn parts_to(
    mix: &Mix,
    phase: &PhaseAt,
    range: &BoxRange,
    slopes: &[i128],
    multipliers: &[i128],
    count: usize,
    end: usize,
) -> i128
    requires walk { CanWalk (2 ^ 118) phase.now mix.now range.now slopes.now }
    requires multipliers { AreMultipliers phase.now multipliers.now }
    requires count { count ≤ length phase.now.sites }
    requires end { end ≡ sites_to count phase.now.sites }
    ensures exact { result ≡ sum_to count (λ s. part_among phase.now slopes.now range.now s (at multipliers.now s)) }
    ensures size { unsigned_abs result ≤ 2 ^ 119 * end + 2 ^ 117 * count }
{
    if count == 0 {
        return 0;
    }
    let place = count - 1;
    let from = end - phase.sites_in(place);
    let others = parts_to(mix, phase, range, slopes, multipliers, place, from);
    let here = part_in(mix, phase, range, slopes, place, from, multipliers[place]);
    plus(others, here)
}

/// The chosen multiplier of a sublattice, and its part.
#[tactic(auto, using(crate::proofs::Walking::choices))]
fn chosen_in(
    mix: &Mix,
    phase: &PhaseAt,
    range: &BoxRange,
    slopes: &[i128],
    place: usize,
    from: usize,
) -> Chosen
    requires walk { CanWalk (2 ^ 116 + 2 ^ 86) phase.now mix.now range.now slopes.now }
    requires place { place < length phase.now.sites }
    requires from { from ≡ sites_to place phase.now.sites }
    ensures chosen { IsChosenAmong phase.now slopes.now range.now place result.multiplier }
    ensures part { result.part ≡ part_among phase.now slopes.now range.now place result.multiplier }
    ensures size { unsigned_abs result.multiplier * phase.now.lattice ≤ 2 ^ 117 }
    ensures room { unsigned_abs result.part ≤ 2 ^ 119 * length (sites_at phase.now place) + 2 ^ 117 }
{
    let row = row_of(mix, phase, range, slopes, place, from);
    choose_row(&row)
}

/// Writes the chosen multipliers of the sublattices from a place on, and answers their parts together.
#[tactic(auto, using(crate::proofs::Walking::writing))]
fn choose_from(
    mix: &Mix,
    phase: &PhaseAt,
    range: &BoxRange,
    slopes: &[i128],
    place: usize,
    from: usize,
    out: &mut [i128],
) -> i128
    requires walk { CanWalk (2 ^ 116 + 2 ^ 86) phase.now mix.now range.now slopes.now }
    requires places { place + length out.old ≡ length phase.now.sites }
    requires from { from ≡ sites_to place phase.now.sites }
    ensures each { length out.new ≡ length out.old }
    ensures chosen { (s : ℕ) → s < length out.new → IsChosenAmong phase.now slopes.now range.now (place + s) (at out.new s) }
    ensures small { AllByRecursion (λ l. unsigned_abs l * phase.now.lattice ≤ 2 ^ 117) out.new }
    ensures parts { result ≡ sum_to (length out.new) (λ s. part_among phase.now slopes.now range.now (place + s) (at out.new s)) }
    ensures size { unsigned_abs result ≤ 2 ^ 119 * (length slopes.now - from) + 2 ^ 117 * length out.new }
{
    match out.split_first_mut() {
        None => 0,
        Some((first, others)) => {
            let chosen = chosen_in(mix, phase, range, slopes, place, from);
            *first = chosen.multiplier;
            let behind = from + phase.sites_in(place);
            let rest = choose_from(mix, phase, range, slopes, place + 1, behind, others);
            plus(chosen.part, rest)
        }
    }
}

/// The parts of all sublattices together, under the slopes of the potentials less those of the sites in `slopes`, which are
/// lost.
#[tactic(auto, using(crate::proofs::Walking::whole))]
pub fn all_parts(
    mix: &Mix,
    phase: &PhaseAt,
    range: &BoxRange,
    potentials: &[i128],
    multipliers: &[i128],
    slopes: &mut [i128],
) -> i128
    requires mixed { IsMixed phase.now mix.now }
    requires fits { FitsBox (shape_of_phase phase.now) range.now }
    requires plane { IsPlane (2 ^ 117) phase.now potentials.now }
    requires multipliers { AreMultipliers phase.now multipliers.now }
    requires each { length slopes.old ≡ places phase.now.sites }
    requires room { AreRises slopes.old }
    ensures exact { result ≡ lowered_parts (at slopes.old) phase.now potentials.now range.now (length phase.now.sites) multipliers.now }
    ensures size { unsigned_abs result ≤ 2 ^ 126 - 2 ^ 119 }
{
    lower_rows(potentials, phase.ratios(), phase.sites.as_slice(), slopes);
    let count = phase.sublattices();
    let end = slopes.len();
    parts_to(mix, phase, range, slopes, multipliers, count, end)
}

/// Writes the chosen multipliers of all sublattices, under the slopes of the potentials less those of the sites in `slopes`,
/// which are lost, and answers their parts together.
#[tactic(auto, using(crate::proofs::Walking::whole))]
pub fn choose_all(
    mix: &Mix,
    phase: &PhaseAt,
    range: &BoxRange,
    potentials: &[i128],
    slopes: &mut [i128],
    out: &mut [i128],
) -> i128
    requires mixed { IsMixed phase.now mix.now }
    requires fits { FitsBox (shape_of_phase phase.now) range.now }
    requires plane { IsPlane (2 ^ 116) phase.now potentials.now }
    requires each { length slopes.old ≡ places phase.now.sites }
    requires room { AreRises slopes.old }
    requires places { length out.old ≡ length phase.now.sites }
    ensures each { length out.new ≡ length out.old }
    ensures chosen { (s : ℕ) → s < length out.new → IsChosenLowered (at slopes.old) phase.now potentials.now range.now s (at out.new s) }
    ensures small { AllByRecursion (λ l. unsigned_abs l * phase.now.lattice ≤ 2 ^ 117) out.new }
    ensures parts { result ≡ lowered_parts (at slopes.old) phase.now potentials.now range.now (length out.new) out.new }
    ensures size { unsigned_abs result ≤ 2 ^ 126 - 2 ^ 119 }
{
    lower_rows(potentials, phase.ratios(), phase.sites.as_slice(), slopes);
    choose_from(mix, phase, range, slopes, 0, 0, out)
}
