ghost use Rattle.std.specs.Prelude.{ℕ, MatchOption};
ghost use Rattle.lp_basis.specs.Columns.{IsSum};

/// A column of amounts, none of them below 0, and what a unit of it costs.
#[derive(Drop)]
pub struct Column {
    pub cost: i128,
    pub amounts: Vec<i128>,
}

/// The greatest sum of amounts that a plan takes.
const LIMIT: u128 = 1 << 62;

/// What the amounts add to: `None` where one is below 0 or the sum is above 2^62.
pub fn sum_of(amounts: &[i128]) -> Option<u128>
    ensures { MatchOption result ((sum : ℕ) → IsSum amounts.now sum → ⊥) (IsSum amounts.now) }
{
    let mut sum = 0;
    'sum: for c in 0..amounts.len() {
        let amount = amounts[c];
        if amount < 0 {
            return None;
        }
        sum += amount as u128;
        if sum > LIMIT {
            return None;
        }
    }
    Some(sum)
}
