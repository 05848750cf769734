//! The comparison of a sum of products that does not fit 128 bits.

ghost use Rattle.std.specs.Prelude.{◌≡◌, ◌*◌, ◌≤◌, ◌^◌, length, pos, ◌+ℤ◌, ◌*ℤ◌, ◌≤ℤ◌, ◌<ℤ◌, unsigned_abs};
ghost use Rattle.std.specs.Bool.{OnTrue, OnFalse};
ghost use Rattle.std.specs.List.{AllByRecursion};
ghost use Rattle.cal_math.specs.Vectors.{at};
ghost use Rattle.cef_core.specs.Worth.{worth};
ghost use Rattle.cef_report.specs.Certificates.{MeetsGap};
ghost use Rattle.cef_report.specs.Spelled.{IsNumber};
ghost use Rattle.eq_cert.specs.Joined.{half, joined};

/// 2^60: a number is this times its high half, and its low half.
const HALF: i128 = 1 << 60;
/// 2^44: 2^16 times this is 2^60.
const UPPER: i128 = 1 << 44;

/// A number in two halves.
#[derive(Clone, Copy)]
struct Halves {
    high: i128,
    low: i128,
}

/// A number with a low half from 0 to 2^60 - 1.
#[tactic(auto, using(cal_math::specs::Whole::floors))]
fn halved(x: i128) -> Halves
    requires { unsigned_abs x ≤ 2 ^ 125 }
    ensures exact { x ≡ joined result.high result.low }
    ensures low_least { pos 0 ≤ℤ result.low }
    ensures low_most { result.low <ℤ pos half }
{
    Halves {
        high: x.div_euclid(HALF),
        low: x.rem_euclid(HALF),
    }
}

/// The product of a half and a total.
fn product(a: i128, b: i128) -> i128
    requires a { unsigned_abs a ≤ 2 ^ 60 }
    requires b { unsigned_abs b ≤ 2 ^ 61 }
    ensures exact { result ≡ a *ℤ b }
    ensures size { unsigned_abs result ≤ 2 ^ 121 }
{
    a * b
}

/// A potential times a total.
fn part(potential: i128, total: i128) -> Halves
    requires potential { IsNumber potential }
    requires total { unsigned_abs total ≤ 2 ^ 61 }
    ensures exact { potential *ℤ total ≡ joined result.high result.low }
    ensures high { unsigned_abs result.high ≤ 2 ^ 121 }
    ensures low { unsigned_abs result.low ≤ 2 ^ 121 }
{
    let halves = halved(potential);
    Halves {
        high: product(halves.high, total),
        low: product(halves.low, total),
    }
}

/// The sums of the halves.
fn sum(a: Halves, b: Halves) -> Halves
    requires a_high { unsigned_abs a.high ≤ 2 ^ 121 }
    requires a_low { unsigned_abs a.low ≤ 2 ^ 121 }
    requires b_high { unsigned_abs b.high ≤ 2 ^ 124 }
    requires b_low { unsigned_abs b.low ≤ 2 ^ 124 }
    ensures high { result.high ≡ a.high +ℤ b.high }
    ensures low { result.low ≡ a.low +ℤ b.low }
{
    Halves {
        high: a.high + b.high,
        low: a.low + b.low,
    }
}

/// The sum of potential times total.
fn value(potentials: &[i128], totals: &[i128]) -> Halves
    requires few { length potentials.now ≤ 8 }
    requires one_each { length potentials.now ≡ length totals.now }
    requires potentials { AllByRecursion IsNumber potentials.now }
    requires totals { AllByRecursion (λ total. unsigned_abs total ≤ 2 ^ 61) totals.now }
    ensures exact { worth potentials.now (at totals.now) ≡ joined result.high result.low }
    ensures high { unsigned_abs result.high ≤ length potentials.now * 2 ^ 121 }
    ensures low { unsigned_abs result.low ≤ length potentials.now * 2 ^ 121 }
{
    match potentials.split_first() {
        None => Halves { high: 0, low: 0 },
        Some((potential, potentials)) => match totals.split_first() {
            None => Halves { high: 0, low: 0 },
            Some((total, totals)) => {
                let rest = value(potentials, totals);
                sum(part(*potential, *total), rest)
            }
        },
    }
}

/// 2^16 times a number, with a low half from 0 to 2^60 - 1.
#[tactic(auto, using(cal_math::specs::Whole::floors))]
fn raised(height: i128) -> Halves
    requires { unsigned_abs height ≤ 2 ^ 111 }
    ensures exact { pos 65536 *ℤ height ≡ joined result.high result.low }
    ensures low_least { pos 0 ≤ℤ result.low }
    ensures low_most { result.low <ℤ pos half }
{
    Halves {
        high: height.div_euclid(UPPER),
        low: 65536 * height.rem_euclid(UPPER),
    }
}

/// The same number with a low half from 0 to 2^60 - 1.
fn carried(halves: Halves) -> Halves
    requires high { unsigned_abs halves.high ≤ 2 ^ 124 }
    requires low { unsigned_abs halves.low ≤ 2 ^ 124 }
    ensures exact { joined halves.high halves.low ≡ joined result.high result.low }
    ensures low_least { pos 0 ≤ℤ result.low }
    ensures low_most { result.low <ℤ pos half }
{
    let low = halved(halves.low);
    Halves {
        high: halves.high + low.high,
        low: low.low,
    }
}

/// Whether the first is at most the second.
fn is_at_most(a: Halves, b: Halves) -> bool
    requires a_least { pos 0 ≤ℤ a.low }
    requires a_most { a.low <ℤ pos half }
    requires b_least { pos 0 ≤ℤ b.low }
    requires b_most { b.low <ℤ pos half }
    ensures yes { OnTrue result (joined a.high a.low ≤ℤ joined b.high b.low) }
    ensures no { OnFalse result (joined b.high b.low <ℤ joined a.high a.low) }
{
    if a.high < b.high {
        return true;
    }
    if b.high < a.high {
        return false;
    }
    a.low <= b.low
}

/// Whether 2^16 times a height is at most the sum of potential times total.
fn reaches(potentials: &[i128], totals: &[i128], height: i128) -> bool
    requires few { length potentials.now ≤ 8 }
    requires one_each { length potentials.now ≡ length totals.now }
    requires potentials { AllByRecursion IsNumber potentials.now }
    requires totals { AllByRecursion (λ total. unsigned_abs total ≤ 2 ^ 61) totals.now }
    requires height { unsigned_abs height ≤ 2 ^ 111 }
    ensures yes { OnTrue result ((pos 65536 *ℤ height) ≤ℤ worth potentials.now (at totals.now)) }
    ensures no { OnFalse result (worth potentials.now (at totals.now) <ℤ (pos 65536 *ℤ height)) }
{
    let sum = value(potentials, totals);
    is_at_most(raised(height), carried(sum))
}

/// The rule of the gap: 2^16*energy - M*totals <= 2^16*gap.
pub(crate) fn meets_gap(potentials: &[i128], totals: &[i128], energy: i128, gap: i128) -> bool
    requires few { length potentials.now ≤ 8 }
    requires one_each { length potentials.now ≡ length totals.now }
    requires potentials { AllByRecursion IsNumber potentials.now }
    requires totals { AllByRecursion (λ total. unsigned_abs total ≤ 2 ^ 61) totals.now }
    requires energy { unsigned_abs energy ≤ 2 ^ 110 }
    requires gap { unsigned_abs gap ≤ 2 ^ 110 }
    ensures yes { OnTrue result (MeetsGap potentials.now totals.now energy gap) }
    ensures no { OnFalse result (MeetsGap potentials.now totals.now energy gap → ⊥) }
{
    reaches(potentials, totals, energy - gap)
}
