//! Theta, or a moment, of sums of a phase's parameters.

ghost use Rattle.std.specs.Prelude.{◌≡◌, ◌≤◌, ◌^◌, ◌<◌, ◌/◌, unsigned_abs};
ghost use Rattle.cef_core.specs.Magnetism.{moment_of};
ghost use Rattle.cef_mag.specs.Ranges.{moment_low, moment_high};

/// A sum of lows and a sum of highs, of Curie temperatures in µK or of moments in millionths.
#[derive(Clone, Copy)]
pub struct Sums {
    pub low: i128,
    pub high: i128,
}

/// The least and the greatest theta in µK, or moment in millionths, of sums from a low to a high.
#[derive(Clone, Copy)]
pub struct Moments {
    pub low: u64,
    pub high: u64,
}

/// The moment of a sum: one below 0 is an antiferromagnet's, and is divided by the factor.
#[tactic(auto, using(crate::proofs::Moments::moment_rules))]
pub fn moment_of(factor: u64, sum: i128) -> u64
    requires factor { 1 ≤ factor }
    requires size { unsigned_abs sum < 2 ^ 64 }
    ensures { result ≡ moment_of factor sum }
{
    let magnitude = sum.unsigned_abs() as u64;
    if sum < 0 {
        magnitude / factor
    } else {
        magnitude
    }
}

/// The moments of sums from a low to a high.
pub fn moments_of(factor: u64, sums: Sums) -> Moments
    requires factor { 1 ≤ factor }
    requires low { unsigned_abs sums.low < 2 ^ 64 }
    requires high { unsigned_abs sums.high < 2 ^ 64 }
    ensures low { result.low ≡ moment_low factor sums.low sums.high }
    ensures high { result.high ≡ moment_high factor sums.low sums.high }
{
    let low = moment_low(factor, sums);
    let high = moment_high(factor, sums);
    Moments { low, high }
}

/// The least moment of sums from a low to a high.
#[tactic(auto, using(crate::proofs::Moments::low_rules))]
fn moment_low(factor: u64, sums: Sums) -> u64
    requires factor { 1 ≤ factor }
    requires low { unsigned_abs sums.low < 2 ^ 64 }
    requires high { unsigned_abs sums.high < 2 ^ 64 }
    ensures { result ≡ moment_low factor sums.low sums.high }
{
    let low = sums.low.unsigned_abs() as u64;
    let high = sums.high.unsigned_abs() as u64;
    if sums.low >= 0 {
        low
    } else if sums.high >= 0 {
        0
    } else {
        low.min(high) / factor
    }
}

/// The greatest one.
#[tactic(auto, using(crate::proofs::Moments::high_rules))]
fn moment_high(factor: u64, sums: Sums) -> u64
    requires factor { 1 ≤ factor }
    requires low { unsigned_abs sums.low < 2 ^ 64 }
    requires high { unsigned_abs sums.high < 2 ^ 64 }
    ensures { result ≡ moment_high factor sums.low sums.high }
{
    let moment = moment_of(factor, sums.low);
    if sums.high < 0 {
        moment
    } else {
        moment.max(sums.high.unsigned_abs() as u64)
    }
}
