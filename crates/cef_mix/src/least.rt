//! The least height of an energy above a slope, over a range of counts.

ghost use Rattle.std.specs.Prelude.{◌≡◌, ℕ, ◌+◌, ◌-◌, ◌*◌, ◌^◌, ◌<◌, ◌≤◌, length, pos, ◌-ℤ◌, ◌*ℤ◌, unsigned_abs};
ghost use Rattle.cal_limits.specs.declared.TheConstants.{MOST_ENERGY};
ghost use Rattle.cef_mix.specs.Mixes.{height, IsLeastOn};
ghost use Rattle.cef_mix.specs.Tables.{entry, AreRises, AreOrdered, IsGreatestFall, IsTurn};

/// The least height over a range, and a count that has it.
#[derive(Clone, Copy)]
pub struct Least {
    pub place: u16,
    pub height: i128,
}

/// The height of an energy: 2^16 times it, less the slope's share of the count.
#[tactic(auto, using(crate::proofs::Heights::heights))]
fn height_of(energy: i64, slope: i128, count: usize) -> i128
    requires energy { unsigned_abs energy ≤ MOST_ENERGY }
    requires slope { unsigned_abs slope * count ≤ 2 ^ 119 }
    ensures { result ≡ pos 65536 *ℤ energy -ℤ slope *ℤ pos count }
{
    65536 * i128::from(energy) - slope * count as i128
}

/// The same where it has 64 bits.
#[tactic(auto, using(crate::proofs::Heights::heights))]
fn narrow_height(energy: i64, slope: i64, count: usize) -> i64
    requires energy { unsigned_abs energy ≤ 2 ^ 45 }
    requires slope { unsigned_abs slope * count ≤ 2 ^ 61 }
    requires count { count < 2 ^ 16 }
    ensures { result ≡ pos 65536 *ℤ energy -ℤ slope *ℤ pos count }
{
    65536 * energy - slope * count as i64
}

/// The least height, by going over all counts.
pub fn least_of_all(energies: &[i64], low: u16, high: u16, slope: i128) -> Least
    requires order { low ≤ high }
    requires within { high < length energies.now }
    requires small { (k : ℕ) → unsigned_abs (entry energies.now k) ≤ MOST_ENERGY }
    requires slope { unsigned_abs slope * (length energies.now - 1) ≤ 2 ^ 119 }
    ensures { IsLeastOn (entry energies.now) slope low high result.place result.height }
{
    let first = usize::from(low);
    let end = usize::from(high) + 1;
    let mut place = low;
    let mut least = height_of(energies[first], slope, first);
    'each: for k in first + 1..end {
        let here = height_of(energies[k], slope, k);
        if here < least {
            least = here;
            place = k as u16;
        }
    }
    Least {
        place,
        height: least,
    }
}

/// More than any difference of two energies, in µJ per mol of formula units.
const STEEPEST: i128 = 1 << 57;

/// The greatest rise of an energy that does not lift its height: 2^16 times it is no more than the slope.
#[tactic(auto, using(crate::proofs::Rises::falls))]
fn greatest_fall(slope: i128) -> i64
    ensures { IsGreatestFall slope result }
{
    let most = slope.div_euclid(65536);
    if most < -STEEPEST {
        -(STEEPEST as i64)
    } else if STEEPEST < most {
        STEEPEST as i64
    } else {
        most as i64
    }
}

/// The same for a slope of 64 bits.
#[tactic(auto, using(crate::proofs::Rises::falls))]
fn narrow_fall(slope: i64) -> i64
    ensures { IsGreatestFall slope result }
{
    slope >> 16
}

/// The first count of a range whose rise is above a limit, or the last count: left of it the rises are within the limit.
#[tactic(auto, using(crate::proofs::Halves::turns))]
fn turn(rises: &[i64], low: u16, high: u16, most: i64) -> usize
    requires order { low ≤ high }
    requires within { high ≤ length rises.now }
    requires ordered { AreOrdered rises.now }
    ensures { IsTurn rises.now most low high result }
{
    let mut first = usize::from(low);
    let mut left = usize::from(high) - first;
    'halves: while left > 0 {
        let half = left - left / 2;
        if rises[first + half - 1] <= most {
            first += half;
        }
        left -= half;
    }
    first
}

/// The least height of energies whose rises are in order: left of its place the heights fall, right of it they do not.
#[tactic(auto, using(crate::proofs::Halves::least))]
pub fn least_by_halves(energies: &[i64], rises: &[i64], low: u16, high: u16, slope: i128) -> Least
    requires order { low ≤ high }
    requires within { high < length energies.now }
    requires small { (k : ℕ) → unsigned_abs (entry energies.now k) ≤ MOST_ENERGY }
    requires slope { unsigned_abs slope * (length energies.now - 1) ≤ 2 ^ 119 }
    requires rises { AreRises energies.now rises.now }
    requires ordered { AreOrdered rises.now }
    ensures { IsLeastOn (entry energies.now) slope low high result.place result.height }
{
    let place = turn(rises, low, high, greatest_fall(slope));
    Least {
        place: place as u16,
        height: height_of(energies[place], slope, place),
    }
}

/// The same where heights have 64 bits.
#[tactic(auto, using(crate::proofs::Halves::least))]
pub fn least_narrow(energies: &[i64], rises: &[i64], low: u16, high: u16, slope: i64) -> Least
    requires order { low ≤ high }
    requires within { high < length energies.now }
    requires small { (k : ℕ) → unsigned_abs (entry energies.now k) ≤ 2 ^ 45 }
    requires slope { unsigned_abs slope * (length energies.now - 1) ≤ 2 ^ 61 }
    requires rises { AreRises energies.now rises.now }
    requires ordered { AreOrdered rises.now }
    ensures { IsLeastOn (entry energies.now) slope low high result.place result.height }
{
    let place = turn(rises, low, high, narrow_fall(slope));
    Least {
        place: place as u16,
        height: i128::from(narrow_height(energies[place], slope, place)),
    }
}
