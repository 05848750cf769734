ghost use Rattle.std.specs.Prelude.{◌≡◌, ℕ, ◌≤◌, ℤ, pos, ◌+ℤ◌, ◌-ℤ◌, ◌*ℤ◌, ◌≤ℤ◌, ◌<ℤ◌, unsigned_abs};
ghost use Rattle.std.specs.Int.{int_div_euclid};

/// The quotient by a number above 0, rounded down.
#[tactic(auto, using(cal_math::specs::Whole::floors))]
pub fn floor_quotient(a: i128, d: i128) -> i128
    requires divisor { pos 1 ≤ℤ d }
    ensures exact { result ≡ int_div_euclid a d }
    ensures below { (d *ℤ result) ≤ℤ a }
    ensures above { a <ℤ (d *ℤ result +ℤ d) }
    ensures size { (n : ℕ) → unsigned_abs a ≤ n → unsigned_abs result ≤ n }
{
    a.div_euclid(d)
}

/// What the quotient rounded down leaves: at least 0 and below the divisor.
pub fn floor_rest(a: i128, d: i128) -> u128
    requires divisor { pos 1 ≤ℤ d }
    ensures exact { pos result ≡ a -ℤ d *ℤ int_div_euclid a d }
    ensures below { pos result <ℤ d }
{
    a.rem_euclid(d) as u128
}
