ghost use Rattle.std.specs.Prelude.{◌≡◌, ℕ, suc, ◌+◌, ◌<◌, ◌≤◌, length, ℤ, pos, ◌*ℤ◌, ◌-ℤ◌, ◌≤ℤ◌, ◌⊎◌, IfOk, MatchOption};
ghost use Rattle.std.specs.Bool.{OnTrue, OnFalse};
ghost use Rattle.lp_laws.specs.Orders.{IsLexAbove};
ghost use Rattle.cal_math.specs.Vectors.{at};
ghost use Rattle.lp_basis.specs.Rows.{FitsProduct};
ghost use Rattle.lp_basis.specs.Held.{numbers_at};
ghost use Rattle.lp_stage.specs.Leaving.{amounts_at, start_product, IsChosen, MayEnter, IsBestOf, IsLeavingOf};

use cal_whole::compare_signed_ratios;
use lp_basis::{Column, Row, product};
use std::alloc::{AllocError, Global};
use std::cmp::Ordering;

/// A row whose product with the entering column is above 0, with the list by which it is compared.
#[derive(Drop)]
struct Candidate {
    place: usize,
    met: i128,
    list: Vec<i128>,
}

/// Whether the first list over `a` comes before the second over `b`: by the first place at which the ratios differ.
fn is_before(first: &[i128], a: i128, second: &[i128], b: i128) -> bool
    requires sized { length first.now ≡ length second.now }
    requires a_some { pos 1 ≤ℤ a }
    requires b_some { pos 1 ≤ℤ b }
    ensures yes { OnTrue result (IsLexAbove (length first.now) (λ k. a *ℤ at second.now k -ℤ b *ℤ at first.now k)) }
    ensures no { OnFalse result
        (IsLexAbove (length first.now) (λ k. b *ℤ at first.now k -ℤ a *ℤ at second.now k)
        ⊎ ((k : ℕ) → k < length first.now → a *ℤ at second.now k ≡ b *ℤ at first.now k)) }
{
    'places: for k in 0..first.len() {
        match compare_signed_ratios(first[k], a, second[k], b) {
            Ordering::Less => return true,
            Ordering::Greater => return false,
            Ordering::Equal => {}
        }
    }
    false
}

/// The products of a row with the starts.
fn list_of(alloc: Global, row: &[i128], starts: &[Column]) -> Result<Vec<i128>, AllocError>
    requires { (m : ℕ) × (v : ℕ)
        × ((k : ℕ) → k < length starts.now → FitsProduct m v row.now (amounts_at starts.now k)) }
    ensures sized { IfOk result (λ list. length list.items ≡ length starts.now) }
    ensures every { IfOk result (λ list. (k : ℕ) → k < length starts.now →
        at list.items k ≡ start_product (length row.now) starts.now row.now k) }
{
    let mut list = Vec::new(alloc);
    'starts: for k in 0..starts.len() {
        let start = &starts[k];
        let number = product(row, &start.amounts);
        list.push(number)?;
    }
    Ok(list)
}

/// The candidate whose list comes first.
fn chosen(old: Candidate, next: Candidate) -> Candidate
    requires sized { length next.list.items ≡ length old.list.items }
    requires old_some { pos 1 ≤ℤ old.met }
    requires next_some { pos 1 ≤ℤ next.met }
    ensures { IsChosen old next result }
{
    if is_before(&next.list, next.met, &old.list, old.met) {
        next
    } else {
        old
    }
}

/// The best of the rows up to the one at `j`, after the best of those before it.
fn compared(
    alloc: Global,
    rows: &[Row],
    column: &[i128],
    starts: &[Column],
    j: usize,
    best: Option<Candidate>,
) -> Result<Option<Candidate>, AllocError>
    requires may { MayEnter rows.now column.now starts.now }
    requires within { j < length rows.now }
    requires known { IsBestOf rows.now column.now starts.now j best }
    ensures { IfOk result (λ next. IsBestOf rows.now column.now starts.now (j + 1) next) }
{
    let row = &rows[j];
    let met = product(&row.numbers, column);
    if met <= 0 {
        return Ok(best);
    }
    let list = list_of(alloc, &row.numbers, starts)?;
    let next = Candidate {
        place: j,
        met,
        list,
    };
    match best {
        None => Ok(Some(next)),
        Some(old) => Ok(Some(chosen(old, next))),
    }
}

/// The place whose row leaves for the column: of those whose product with the column is above 0 the one whose list over that product
/// comes first. `None` where no product is above 0.
pub fn leaving(
    alloc: Global,
    rows: &[Row],
    column: &[i128],
    starts: &[Column],
) -> Result<Option<usize>, AllocError>
    requires { MayEnter rows.now column.now starts.now }
    ensures { IfOk result (λ found. IsLeavingOf rows.now column.now starts.now found) }
{
    let mut best = None;
    'rows: for j in 0..rows.len() {
        best = compared(alloc, rows, column, starts, j, best)?;
    }
    match best {
        None => Ok(None),
        Some(candidate) => Ok(Some(candidate.place)),
    }
}
