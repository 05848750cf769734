//! What is known of numbers in decimal places, for proofs of other crates. The calls do nothing: each stands for the lemmas that
//! its clauses name.

ghost use Rattle.std.specs.Prelude.{ℕ, ℤ, ◌/◌, ◌^◌, ◌<◌, ◌≤◌, unsigned_abs};
ghost use Rattle.std.specs.Fmt.{signed_decimal};
ghost use Rattle.cal_dec.specs.Decimals.{digits_over, whole_number};
ghost use Rattle.cal_dec.specs.Numerals.{IsReadAs};

/// Trimming drops as many digits as bring the number below `10^18`, and no more.
pub fn trimming_is_least()
    ensures enough { (n : ℕ) → n < 10 ^ 64 → n / 10 ^ digits_over n < 10 ^ 18 }
    ensures least { (n j : ℕ) → n < 10 ^ 64 → n / 10 ^ j < 10 ^ 18 → digits_over n ≤ j }
{}

/// The text that `print_whole` writes of a number of at most 18 digits is read as that number.
pub fn printed_is_read()
    ensures { (z : ℤ) → unsigned_abs z < 10 ^ 18 → IsReadAs (signed_decimal z) (whole_number z) }
{}
