ghost use Rattle.std.specs.Prelude.{◌≡◌, ◌*◌, ◌<◌, ◌≤◌, ◌^◌};
ghost use Rattle.std.specs.Int.{IsGcd};
ghost use Rattle.cal_whole.specs.Divisors.{IsLeastMultiple};

/// The greatest common divisor: 0 of 0 and 0.
pub fn gcd(a: u128, b: u128) -> u128
    ensures { IsGcd a b result }
{
    if b == 0 { a } else { gcd(b, a % b) }
}

/// The least common multiple.
pub fn least_common_multiple(a: u128, b: u128) -> u128
    requires first { 1 ≤ a }
    requires second { 1 ≤ b }
    requires room { a * b < 2 ^ 128 }
    ensures { IsLeastMultiple a b result }
{
    a * (b / gcd(b, a))
}
