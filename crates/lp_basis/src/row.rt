ghost use Rattle.std.specs.Prelude.{◌≡◌, ℕ, ◌+◌, ◌*◌, ◌<◌, ◌≤◌};
ghost use Rattle.std.specs.Prelude.{length, ℤ, pos, ◌*ℤ◌, ◌+ℤ◌, ◌-ℤ◌, ◌≤ℤ◌, FitsSigned, IfOk, unsigned_abs};
ghost use Rattle.std.specs.Int.{w128, ◌∣◌};
ghost use Rattle.cal_math.specs.Vectors.{at, dot};
ghost use Rattle.lp_basis.specs.Rows.{FitsProduct, FitsMixed};

use cal_whole::{exact_quotient, gcd, minus, plus, times};
use std::alloc::{AllocError, Global};

/// A row of whole numbers without a common divisor above 1, and its product with the column of its place.
#[derive(Drop)]
pub struct Row {
    pub numbers: Vec<i128>,
    pub own: i128,
}

/// The product of a row with a column.
pub fn product(row: &[i128], column: &[i128]) -> i128
    requires { (m : ℕ) × (w : ℕ) × FitsProduct m w row.now column.now }
    ensures { result ≡ dot (length row.now) (at row.now) (at column.now) }
{
    let mut sum = 0;
    'sum: for i in 0..row.len() {
        let summand = times(row[i], column[i]);
        sum = plus(sum, summand);
    }
    sum
}

/// A multiple of the row less a multiple of another.
pub fn mixed(
    alloc: Global,
    p: i128,
    row: &[i128],
    q: i128,
    other: &[i128],
) -> Result<Vec<i128>, AllocError>
    requires sized { length row.now ≡ length other.now }
    requires fits { (m : ℕ) × (r : ℕ) × FitsMixed m r p row.now q other.now }
    ensures sized { IfOk result (λ v. length v.items ≡ length row.now) }
    ensures exact { IfOk result (λ v. (c : ℕ) → c < length row.now →
        at v.items c ≡ p *ℤ at row.now c -ℤ q *ℤ at other.now c) }
{
    let mut numbers = Vec::new(alloc);
    'mix: for i in 0..row.len() {
        let first = times(p, row[i]);
        let second = times(q, other[i]);
        let number = minus(first, second);
        numbers.push(number)?;
    }
    Ok(numbers)
}

/// The greatest number that divides all numbers of the row, 0 where all are 0.
pub fn shared(row: &[i128]) -> u128
    ensures divides { (c : ℕ) → c < length row.now → result ∣ unsigned_abs (at row.now c) }
    ensures greatest { (d : ℕ) → ((c : ℕ) → c < length row.now → d ∣ unsigned_abs (at row.now c)) →
        d ∣ result }
{
    let mut all = 0;
    'share: for i in 0..row.len() {
        let size = row[i].unsigned_abs();
        all = gcd(all, size);
    }
    all
}

/// The row divided by a number that divides all its numbers.
pub fn divided(alloc: Global, row: &[i128], d: i128) -> Result<Vec<i128>, AllocError>
    requires positive { pos 1 ≤ℤ d }
    requires divides { (c : ℕ) → c < length row.now → (t : ℤ) × (d *ℤ t ≡ at row.now c) }
    ensures sized { IfOk result (λ v. length v.items ≡ length row.now) }
    ensures exact { IfOk result (λ v. (c : ℕ) → c < length row.now →
        d *ℤ at v.items c ≡ at row.now c) }
{
    let mut numbers = Vec::new(alloc);
    'divide: for i in 0..row.len() {
        let number = exact_quotient(row[i], d);
        numbers.push(number)?;
    }
    Ok(numbers)
}
