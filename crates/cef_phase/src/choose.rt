//! The multiplier that is chosen for a sublattice.

ghost use Rattle.std.specs.Prelude.{◌≡◌, ℕ, ◌+◌, ◌≤◌, ◌<◌, ◌^◌, ◌∷◌, [], Some, None, length, ℤ, pos, ◌*ℤ◌, ◌≤ℤ◌, ◌<ℤ◌, unsigned_abs};
ghost use Rattle.std.specs.Bool.{OnTrue};
ghost use Rattle.std.specs.Int.{int_div_euclid};
ghost use Rattle.cef_phase.specs.Choosing.{IsFirstGreatest};
ghost use Rattle.cef_phase.specs.Firsts.{first_greatest};
ghost use Rattle.cef_phase.specs.Walks.{CanRow, AreSlopes, FitsRow, IsFirstOpen, range_of, part_at};
ghost use Rattle.cef_phase.specs.Walks.{secant_of, secants_of, all_secants, candidates_at};
ghost use Rattle.cef_phase.specs.Walks.{IsBestOf, IsInside, IsOutside, IsHigher, IsLower};

use crate::part::row_part;
use crate::row::Row;
use crate::slope::slope_at;
use cal_whole::minus;

/// The greatest difference of energies that is scaled in 64 bits.
const NARROW: u64 = 1 << 46;

/// The quotient of a number of 64 bits by a width, rounded down.
#[tactic(auto, using(crate::proofs::Secants::dividing))]
fn narrow_quotient(a: i64, width: u16) -> i128
    requires { 0 < width }
    ensures { result ≡ int_div_euclid a (pos width) }
{
    i128::from(a.div_euclid(i64::from(width)))
}

/// The quotient of a number by a width, rounded down.
#[tactic(auto, using(crate::proofs::Secants::dividing))]
fn wide_quotient(a: i128, width: u16) -> i128
    requires { 0 < width }
    ensures { result ≡ int_div_euclid a (pos width) }
{
    a.div_euclid(i128::from(width))
}

/// 2^16 times a difference of energies over a width, rounded down.
#[tactic(auto, using(crate::proofs::Secants::chords))]
fn chord(rise: i64, width: u16) -> i128
    requires width { 0 < width }
    requires rise { unsigned_abs rise ≤ 2 ^ 56 }
    ensures exact { result ≡ int_div_euclid (pos 65536 *ℤ rise) (pos width) }
    ensures size { unsigned_abs result ≤ 2 ^ 72 }
{
    if rise.unsigned_abs() <= NARROW {
        narrow_quotient(65536 * rise, width)
    } else {
        wide_quotient(65536 * i128::from(rise), width)
    }
}

/// How a site's height changes over its range for each count, rounded down.
#[tactic(auto, using(crate::proofs::Secants::sloping))]
fn secant(row: &Row<'_>, site: usize) -> i128
    requires row { CanRow (2 ^ 118) row.now }
    requires slopes { AreSlopes row.now.mix.now.lattice (2 ^ 116 + 2 ^ 86) row.now.slopes.now }
    requires site { site < length row.now.slopes.now }
    requires order { (range_of row.now site).low < (range_of row.now site).high }
    ensures exact { result ≡ secant_of row.now site }
    ensures size { FitsRow row.now result }
{
    let low = row.low[site];
    let high = row.high[site];
    let chord = chord(row.mix.rise(row.place, low, high), high - low);
    minus(chord, slope_at(row, site))
}

/// Two multipliers between which each better one lies.
#[derive(Clone, Copy)]
struct Between {
    low: i128,
    high: i128,
}

/// The best multiplier so far, the part that it gives, and where a better one may lie.
#[derive(Clone, Copy)]
struct Best {
    multiplier: i128,
    part: i128,
    between: Between,
}

/// A multiplier, and the part that it gives.
#[derive(Clone, Copy)]
pub struct Chosen {
    pub multiplier: i128,
    pub part: i128,
}

/// No multiplier is as far from 0.
const FARTHEST: i128 = 1 << 118;

/// What is left of a range of multipliers where a part at one of them rises by n less the counts for each further one.
#[tactic(auto, using(crate::proofs::Betters::narrowing))]
fn narrowed(between: Between, multiplier: i128, n: u32, counts: u32) -> Between
    ensures inside { (l : ℤ) → between.low <ℤ l → l <ℤ between.high → IsHigher multiplier n counts l → IsInside result l }
    ensures left { result.low <ℤ result.high → (l : ℤ) → between.low ≤ℤ l → l <ℤ result.low → IsLower multiplier n counts l }
    ensures right { result.low <ℤ result.high → (l : ℤ) → l ≤ℤ between.high → result.high <ℤ l → IsLower multiplier n counts l }
{
    if counts < n {
        Between {
            low: multiplier,
            high: between.high,
        }
    } else if n < counts {
        Between {
            low: between.low,
            high: multiplier,
        }
    } else {
        Between {
            low: multiplier,
            high: multiplier,
        }
    }
}

/// A multiplier alone.
#[tactic(auto, using(crate::proofs::Betters::first))]
fn first(row: &Row<'_>, multiplier: i128) -> Best
    requires row { CanRow (2 ^ 118) row.now }
    requires multiplier { FitsRow row.now multiplier }
    ensures exact { result.multiplier ≡ multiplier }
    ensures best { IsBestOf row.now result }
{
    let part = row_part(row, multiplier);
    let all = Between {
        low: -FARTHEST,
        high: FARTHEST,
    };
    Best {
        multiplier,
        part: part.height,
        between: narrowed(all, multiplier, row.mix.parts(), part.counts),
    }
}

/// The better of the one so far and another multiplier.
#[tactic(auto, using(crate::proofs::Betters::comparing))]
fn better(row: &Row<'_>, best: Best, other: i128) -> Best
    requires row { CanRow (2 ^ 118) row.now }
    requires other { FitsRow row.now other }
    requires best { IsBestOf row.now best }
    ensures exact { result.multiplier ≡ first_greatest (part_at row.now) best.multiplier (other ∷ []) }
    ensures best { IsBestOf row.now result }
{
    if other <= best.between.low {
        return best;
    }
    if best.between.high <= other {
        return best;
    }
    let part = row_part(row, other);
    let between = narrowed(best.between, other, row.mix.parts(), part.counts);
    if best.part < part.height {
        Best {
            multiplier: other,
            part: part.height,
            between,
        }
    } else {
        Best {
            multiplier: best.multiplier,
            part: best.part,
            between,
        }
    }
}

/// The best of the one so far and the secant of a site, where its low is below its high.
#[tactic(auto, using(crate::proofs::Secants::stepping))]
fn best_with(row: &Row<'_>, site: usize, best: Best) -> Best
    requires row { CanRow (2 ^ 118) row.now }
    requires slopes { AreSlopes row.now.mix.now.lattice (2 ^ 116 + 2 ^ 86) row.now.slopes.now }
    requires site { site < length row.now.slopes.now }
    requires best { IsBestOf row.now best }
    ensures exact { result.multiplier ≡ first_greatest (part_at row.now) best.multiplier (secants_of row.now site) }
    ensures best { IsBestOf row.now result }
{
    if row.low[site] < row.high[site] {
        better(row, best, secant(row, site))
    } else {
        best
    }
}

/// The first site that has a secant, if there is one.
#[tactic(auto, using(crate::proofs::Secants::opening))]
fn first_open(row: &Row<'_>) -> Option<usize>
    requires row { CanRow (2 ^ 118) row.now }
    ensures found { (site : ℕ) → result ≡ Some site → IsFirstOpen row.now site }
    ensures none { result ≡ None → all_secants row.now ≡ [] }
{
    'each: for site in 0..row.slopes.len() {
        if row.low[site] < row.high[site] {
            return Some(site);
        }
    }
    None
}

/// Whether 0 lies outside, and so gives less than the best.
#[tactic(auto, using(crate::proofs::Betters::zeros))]
fn leaves_out_zero(between: Between) -> bool
    ensures { OnTrue result (IsOutside between (pos 0)) }
{
    if between.low < between.high {
        if 0 < between.low {
            true
        } else {
            between.high < 0
        }
    } else {
        false
    }
}

/// The best so far, as it is chosen.
#[tactic(auto, using(crate::proofs::Betters::zeros))]
fn best_of(row: &Row<'_>, best: Best) -> Chosen
    requires row { CanRow (2 ^ 118) row.now }
    requires best { IsBestOf row.now best }
    ensures exact { result.multiplier ≡ best.multiplier }
    ensures part { result.part ≡ part_at row.now result.multiplier }
    ensures size { FitsRow row.now result.multiplier }
{
    Chosen {
        multiplier: best.multiplier,
        part: best.part,
    }
}

/// 0, as it is chosen.
#[tactic(auto, using(crate::proofs::Betters::zeros))]
fn zero_of(row: &Row<'_>) -> Chosen
    requires { CanRow (2 ^ 118) row.now }
    ensures exact { result.multiplier ≡ pos 0 }
    ensures part { result.part ≡ part_at row.now (pos 0) }
{
    let part = row_part(row, 0);
    Chosen {
        multiplier: 0,
        part: part.height,
    }
}

/// The best of the secants, or 0 where that is as good.
#[tactic(auto, using(crate::proofs::Betters::zeros))]
fn with_zero(row: &Row<'_>, best: Best) -> Chosen
    requires row { CanRow (2 ^ 118) row.now }
    requires best { IsBestOf row.now best }
    requires chosen { IsFirstGreatest (part_at row.now) (all_secants row.now) best.multiplier }
    ensures chosen { IsFirstGreatest (part_at row.now) (candidates_at row.now) result.multiplier }
    ensures part { result.part ≡ part_at row.now result.multiplier }
    ensures size { FitsRow row.now result.multiplier }
{
    if leaves_out_zero(best.between) {
        return best_of(row, best);
    }
    let zero = zero_of(row);
    if zero.part < best.part {
        best_of(row, best)
    } else {
        zero
    }
}

/// The first of 0 and the sites' secants that makes the sublattice's part greatest, and that part.
#[tactic(auto, using(crate::proofs::Secants::chosen))]
pub fn choose_row(row: &Row<'_>) -> Chosen
    requires row { CanRow (2 ^ 118) row.now }
    requires slopes { AreSlopes row.now.mix.now.lattice (2 ^ 116 + 2 ^ 86) row.now.slopes.now }
    ensures chosen { IsFirstGreatest (part_at row.now) (candidates_at row.now) result.multiplier }
    ensures part { result.part ≡ part_at row.now result.multiplier }
    ensures size { FitsRow row.now result.multiplier }
{
    let Some(start) = first_open(row) else {
        return zero_of(row);
    };
    let mut best = first(row, secant(row, start));
    'each: for site in start + 1..row.slopes.len() {
        best = best_with(row, site, best);
    }
    with_zero(row, best)
}
