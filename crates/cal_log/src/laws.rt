//! What is known of the logarithm, for proofs of other crates. The calls do nothing: each stands for the lemmas that its
//! clauses name.

ghost use Rattle.std.specs.Prelude.{ℕ, ◌≡◌, ◌+◌, ◌*◌, ◌<◌, ◌≤◌};
ghost use Rattle.cal_math.specs.Sums.{sum_below};
ghost use Rattle.cal_math.specs.Logarithm.{log_summand, log_step, log_of, log_between};

/// The summands of a step's series that its definition leaves out are 0.
pub fn series_ends()
    ensures { (i k : ℕ) → 2 ≤ i → 15 ≤ k → sum_below k (λ j. log_summand i (2 * j + 1)) ≡ log_step i }
{}

/// Neither the logarithm nor its linear rule falls.
pub fn logarithm_rises()
    ensures at_numbers { (m n : ℕ) → m ≤ n → log_of m ≤ log_of n }
    ensures between_thousandths { (m n : ℕ) → m ≤ n → log_between m ≤ log_between n }
{}

/// Bounds that the ranges of energies rest on, in units of 10^-15.
pub fn logarithm_is_bounded()
    ensures at_1000 { log_of 1000 ≤ 7216000000000000 }
    ensures from_1000_to_501001 { log_of 501001 ≤ log_of 1000 + 9800000000000000 }
    ensures at_600000 { log_of 600000 < 1000000000000000000 }
{}
