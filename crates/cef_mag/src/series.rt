//! The series of g, in units of 10^-9.

ghost use Rattle.std.specs.Prelude.{◌≡◌, ◌≤◌};
ghost use Rattle.cef_core.specs.Magnetism.{scaled, cubed, fifth, squared_into, series_below, series_above};

/// The unit of g and of what it is made of.
pub const UNIT: u64 = 1_000_000_000;

/// The product of two fractions.
#[tactic(auto, using(crate::proofs::Fractions::fraction_rules))]
fn scaled(x: u64, y: u64) -> u64
    requires first { x ≤ UNIT }
    requires second { y ≤ UNIT }
    ensures exact { result ≡ scaled x y }
    ensures size { result ≤ UNIT }
{
    x * y / UNIT
}

/// The third power of a fraction.
fn cubed(x: u64) -> u64
    requires { x ≤ UNIT }
    ensures exact { result ≡ cubed x }
    ensures size { result ≤ UNIT }
{
    scaled(scaled(x, x), x)
}

/// The fifth power of a fraction.
fn fifth(x: u64) -> u64
    requires { x ≤ UNIT }
    ensures exact { result ≡ fifth x }
    ensures size { result ≤ UNIT }
{
    scaled(scaled(cubed(x), x), x)
}

/// A fraction times the square of another.
fn squared_into(y: u64, x: u64) -> u64
    requires first { y ≤ UNIT }
    requires second { x ≤ UNIT }
    ensures exact { result ≡ squared_into y x }
    ensures size { result ≤ UNIT }
{
    scaled(scaled(y, x), x)
}

/// v^3/6 + v^9/135 + v^15/600, for the temperature v over the Curie temperature.
#[tactic(auto, using(crate::specs::Sizes::series_rules))]
pub fn series_below(v: u64) -> u64
    requires { v ≤ UNIT }
    ensures exact { result ≡ series_below v }
    ensures size { result ≤ 175740741 }
{
    let third = cubed(v);
    let ninth = squared_into(third, third);
    let fifteenth = squared_into(ninth, third);
    third / 6 + ninth / 135 + fifteenth / 600
}

/// w^5/10 + w^15/315 + w^25/1500, for the Curie temperature w over the temperature.
#[tactic(auto, using(crate::specs::Sizes::series_rules))]
pub fn series_above(w: u64) -> u64
    requires { w ≤ UNIT }
    ensures exact { result ≡ series_above w }
    ensures size { result ≤ 103841270 }
{
    let fifth = fifth(w);
    let fifteenth = squared_into(fifth, fifth);
    let last = squared_into(fifteenth, fifth);
    fifth / 10 + fifteenth / 315 + last / 1500
}
