ghost use Rattle.std.specs.Prelude.{◌≡◌, ℤ, pos, ◌+ℤ◌, ◌-ℤ◌, ◌*ℤ◌, ◌≤ℤ◌, FitsSigned};
ghost use Rattle.std.specs.Int.{w128};

/// The sum of two numbers.
pub fn plus(a: i128, b: i128) -> i128
    requires { FitsSigned w128 (a +ℤ b) }
    ensures { result ≡ a +ℤ b }
{
    a + b
}

/// The first number less the second.
pub fn minus(a: i128, b: i128) -> i128
    requires { FitsSigned w128 (a -ℤ b) }
    ensures { result ≡ a -ℤ b }
{
    a - b
}

/// The product of two numbers.
pub fn times(a: i128, b: i128) -> i128
    requires { FitsSigned w128 (a *ℤ b) }
    ensures { result ≡ a *ℤ b }
{
    a * b
}

/// The quotient of a number by one above 0 that divides it.
pub fn exact_quotient(a: i128, d: i128) -> i128
    requires divisor { pos 1 ≤ℤ d }
    requires divides { (t : ℤ) × (d *ℤ t ≡ a) }
    ensures { d *ℤ result ≡ a }
{
    a / d
}
