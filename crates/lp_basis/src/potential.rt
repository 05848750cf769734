ghost use Rattle.std.specs.Prelude.{◌≡◌, ℕ, suc, ◌+◌, ◌*◌, ◌<◌, ◌≤◌, ◌^◌};
ghost use Rattle.std.specs.Prelude.{length, ℤ, pos, ◌*ℤ◌, ◌+ℤ◌, ◌≤ℤ◌, FitsSigned, IfOk, unsigned_abs, ◌/◌, get_or};
ghost use Rattle.std.specs.Int.{w128, ◌∣◌};
ghost use Rattle.cal_math.specs.Vectors.{at};
ghost use Rattle.lp_basis.specs.declared.potential.Part.{Part};
ghost use Rattle.lp_basis.specs.Potentials.{IsPart, AreParts, IsDivisor, AreSmall, number_at, IsSummed, FitsSum, CanPrice, IsPotentials};

use crate::row::Row;
use cal_whole::{floor_quotient, floor_rest, gcd, times};
use std::alloc::{AllocError, Global};

/// Potentials of a basis, over their least common denominator.
#[derive(Drop)]
pub struct Potentials {
    pub numbers: Vec<i128>,
    pub denominator: u128,
}

/// A whole number and a rest below a denominator.
#[derive(Drop)]
struct Part {
    whole: i128,
    rest: u128,
}

/// The whole part and the rest of the sum of two fractions below 1, over the product of their denominators.
fn joined(rest: u128, large: u128, left: u128, own: u128) -> (u128, u128)
    requires rest { rest < large }
    requires left { left < own }
    requires large_small { large ≤ 2 ^ 62 }
    requires own_small { own ≤ 2 ^ 62 }
    ensures sum { result.0 * (large * own) + result.1 ≡ rest * own + left * large }
    ensures carry { result.0 ≤ 1 }
    ensures below { result.1 < large * own }
{
    let all = large * own;
    let sum = rest * own + left * large;
    if sum < all { (0, sum) } else { (1, sum - all) }
}

/// The sum of two whole numbers and a carry.
fn carried(a: i128, b: i128, carry: u128) -> i128
    requires a { unsigned_abs a ≤ 2 ^ 120 }
    requires b { unsigned_abs b ≤ 2 ^ 120 }
    requires carry { carry ≤ 1 }
    ensures { result ≡ (a +ℤ b) +ℤ pos carry }
{
    a + b + carry as i128
}

/// A ratio and one more: by whole parts and rests, so that no product of the numbers is formed.
fn part_of(number: i128, large: u128, summand: i128, own: u128) -> Part
    requires large_some { 1 ≤ large }
    requires large_small { large ≤ 2 ^ 62 }
    requires own_some { 1 ≤ own }
    requires own_small { own ≤ 2 ^ 62 }
    requires number_small { unsigned_abs number ≤ 2 ^ 100 }
    requires summand_small { unsigned_abs summand ≤ 2 ^ 118 }
    ensures { IsPart number large summand own result }
{
    let whole = floor_quotient(number, large as i128);
    let rest = floor_rest(number, large as i128);
    let also = floor_quotient(summand, own as i128);
    let left = floor_rest(summand, own as i128);
    let (carry, rest) = joined(rest, large, left, own);
    Part {
        whole: carried(whole, also, carry),
        rest,
    }
}

/// Each number with a summand more, as a whole number and a rest over `large * own`.
fn parts_of(
    alloc: Global,
    numbers: &[i128],
    large: u128,
    cost: i128,
    row: &[i128],
    own: u128,
) -> Result<Vec<Part>, AllocError>
    requires { FitsSum numbers.now large cost row.now (pos own) }
    ensures sized { IfOk result (λ parts. length parts.items ≡ length numbers.now) }
    ensures every { IfOk result (λ parts. AreParts (length numbers.now) numbers.now large cost row.now own parts.items) }
{
    let mut parts = Vec::new(alloc);
    'parts: for c in 0..numbers.len() {
        let part = part_of(numbers[c], large, times(cost, row[c]), own);
        parts.push(part)?;
    }
    Ok(parts)
}

/// The greatest common divisor of a denominator and all rests.
fn common_divisor(parts: &[Part], all: u128) -> u128
    ensures { IsDivisor parts.now all (length parts.now) result }
{
    let mut divisor = all;
    'rests: for c in 0..parts.len() {
        let part = &parts[c];
        divisor = gcd(divisor, part.rest);
    }
    divisor
}

/// The number of which this is the whole part and the rest, over a denominator that is `divisor` times less.
fn number_of(whole: i128, rest: u128, denominator: u128, divisor: u128) -> i128
    requires divisor { 1 ≤ divisor }
    requires below { rest / divisor < denominator }
    requires denominator_small { denominator ≤ 2 ^ 62 }
    requires small { unsigned_abs (whole *ℤ pos denominator +ℤ pos (rest / divisor)) ≤ 2 ^ 100 }
    ensures { result ≡ whole *ℤ pos denominator +ℤ pos (rest / divisor) }
{
    whole * denominator as i128 + (rest / divisor) as i128
}

/// The numbers of which these are the whole parts and the rests.
fn numbers_of(
    alloc: Global,
    parts: &[Part],
    denominator: u128,
    divisor: u128,
) -> Result<Vec<i128>, AllocError>
    requires divisor { 1 ≤ divisor }
    requires denominator_small { denominator ≤ 2 ^ 62 }
    requires fit { AreSmall parts.now denominator divisor }
    ensures sized { IfOk result (λ v. length v.items ≡ length parts.now) }
    ensures every { IfOk result (λ v. (c : ℕ) (d : Part) → c < length parts.now →
        at v.items c ≡ number_at (get_or parts.now c d) denominator divisor) }
{
    let mut numbers = Vec::new(alloc);
    'numbers: for c in 0..parts.len() {
        let part = &parts[c];
        let number = number_of(part.whole, part.rest, denominator, divisor);
        numbers.push(number)?;
    }
    Ok(numbers)
}

/// Potentials with `cost * row / own` more, over their least denominator.
fn added(
    alloc: Global,
    numbers: &[i128],
    denominator: u128,
    cost: i128,
    row: &[i128],
    own: u128,
) -> Result<Potentials, AllocError>
    requires { FitsSum numbers.now denominator cost row.now (pos own) }
    ensures sized { IfOk result (λ next. length next.numbers.items ≡ length numbers.now) }
    ensures summed { IfOk result (λ next. IsSummed (length numbers.now) (at numbers.now) denominator cost (at row.now) (pos own)
        (at next.numbers.items) next.denominator) }
{
    let parts = parts_of(alloc, numbers, denominator, cost, row, own)?;
    let all = denominator * own;
    let divisor = common_divisor(&parts, all);
    let least = all / divisor;
    let sums = numbers_of(alloc, &parts, least, divisor)?;
    Ok(Potentials {
        numbers: sums,
        denominator: least,
    })
}

/// As many zeros.
fn zeros(alloc: Global, size: usize) -> Result<Vec<i128>, AllocError>
    ensures sized { IfOk result (λ v. length v.items ≡ size) }
    ensures every { IfOk result (λ v. (c : ℕ) → at v.items c ≡ pos 0) }
{
    let mut numbers = Vec::new(alloc);
    'zeros: for _c in 0..size {
        numbers.push(0)?;
    }
    Ok(numbers)
}

/// The potentials of a basis: the sum over its places of cost times row over own product.
pub fn potentials_of(alloc: Global, rows: &[Row], costs: &[i128]) -> Result<Potentials, AllocError>
    requires { (b : ℕ) × (w : ℕ) × (s : ℕ) × (columns : ℕ → ℕ → ℤ)
        × CanPrice b w s columns rows.now costs.now }
    ensures { IfOk result (λ potentials. (b w s : ℕ) (columns : ℕ → ℕ → ℤ) →
        CanPrice b w s columns rows.now costs.now →
        IsPotentials (suc b) columns (at costs.now) potentials) }
{
    let mut sum = Potentials {
        numbers: zeros(alloc, rows.len())?,
        denominator: 1,
    };
    'places: for j in 0..rows.len() {
        let row = &rows[j];
        let own = row.own.unsigned_abs();
        sum = added(
            alloc,
            &sum.numbers,
            sum.denominator,
            costs[j],
            &row.numbers,
            own,
        )?;
    }
    Ok(sum)
}
