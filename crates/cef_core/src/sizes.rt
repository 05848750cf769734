//! How great the energies of a phase can be.

ghost use Rattle.std.specs.Prelude.{◌≡◌, ◌≤◌, ◌<◌, ◌*◌, ◌+◌, ◌^◌, cond, unsigned_abs, pos, sum};
ghost use Rattle.cef_core.specs.Capped.{within};
ghost use Rattle.cef_core.specs.Energies.{is_energy};
ghost use Rattle.cef_core.specs.Phases.{of_kind, magnitudes, magnetic_size, sigma as size_of, IsPhase};

use crate::phase::{MagneticAt, ParamAt, PhaseAt};
use cal_limits::{HIGHEST_TEMPERATURE, MOST_ENERGY, MOST_RATIOS};
use cef_kind::Kind;

/// The power of ten that makes ratios of 5 decimals whole.
const MOST_SCALE: u32 = 100_000;

fn is_of(kind: Kind, parameter: &ParamAt) -> bool
    ensures { result ≡ of_kind kind parameter.now.kind }
{
    match (kind, parameter.kind) {
        (Kind::G, Kind::G) | (Kind::Tc, Kind::Tc) | (Kind::Beta, Kind::Beta) => true,
        _ => false,
    }
}

/// The magnitude of a parameter of the kind, and 0 of another.
fn magnitude(kind: Kind, parameter: &ParamAt) -> u128
    ensures value { result ≡ cond (of_kind kind parameter.now.kind) (unsigned_abs parameter.now.micro) 0 }
    ensures size { result ≤ 2 ^ 127 }
{
    if is_of(kind, parameter) {
        parameter.micro.unsigned_abs()
    } else {
        0
    }
}

fn sum_within(a: u64, b: u128, limit: u64) -> Option<u64>
    requires { b ≤ 2 ^ 127 }
    ensures { result ≡ within limit (a + b) }
{
    let sum = u128::from(a) + b;
    if sum <= u128::from(limit) {
        Some(sum as u64)
    } else {
        None
    }
}

/// The sum of the magnitudes of the parameters of a kind, where it is at most the limit.
pub fn magnitudes_within(parameters: &[ParamAt], kind: Kind, limit: u64) -> Option<u64>
    ensures { result ≡ within limit (magnitudes (of_kind kind) parameters.now) }
{
    let mut sum = 0;
    'parameters: for parameter in parameters {
        sum = sum_within(sum, magnitude(kind, parameter), limit)?;
    }
    Some(sum)
}

/// The sum of whole ratios.
pub fn ratio_sum(ratios: &[u32]) -> u32
    requires { sum ratios.now ≤ MOST_RATIOS }
    ensures { result ≡ sum ratios.now }
{
    ratios.iter().sum()
}

fn magnetic_size(t: u32, scale: u32, magnetic: &Option<MagneticAt>) -> u64
    requires t { t ≤ HIGHEST_TEMPERATURE }
    requires scale { scale ≤ MOST_SCALE }
    ensures value { result ≡ magnetic_size t scale magnetic.now }
    ensures size { result ≤ 2 ^ 58 }
{
    match magnetic {
        None => 0,
        Some(_) => 1_000_000 * u64::from(scale) * (u64::from(t) + 1_000_000),
    }
}

/// What mixing and magnetism have of the size.
fn other_size(phase: &PhaseAt) -> u64
    requires t { phase.now.t ≤ HIGHEST_TEMPERATURE }
    requires scale { phase.now.scale ≤ MOST_SCALE }
    requires ratios { sum phase.now.ratios ≤ MOST_RATIOS }
    ensures value { result ≡ 600000 * phase.now.t * sum phase.now.ratios + magnetic_size phase.now.t phase.now.scale phase.now.magnetic }
    ensures size { result ≤ 2 ^ 60 }
{
    let mixing = 600_000 * u64::from(phase.t) * u64::from(ratio_sum(phase.ratios.as_slice()));
    mixing + magnetic_size(phase.t, phase.scale, &phase.magnetic)
}

/// The size of the phase's energies in µJ/mol, where it is at most 2^55.
pub fn size_within(phase: &PhaseAt) -> Option<u64>
    requires t { phase.now.t ≤ HIGHEST_TEMPERATURE }
    requires scale { phase.now.scale ≤ MOST_SCALE }
    requires ratios { sum phase.now.ratios ≤ MOST_RATIOS }
    ensures { result ≡ within MOST_ENERGY (size_of phase.now) }
{
    let energies = magnitudes_within(phase.parameters.as_slice(), Kind::G, MOST_ENERGY)?;
    sum_within(energies, u128::from(other_size(phase)), MOST_ENERGY)
}

/// The size of the phase's energies in µJ/mol. None has a greater magnitude.
pub fn sigma(phase: &PhaseAt) -> i128
    requires { IsPhase phase.now }
    ensures { result ≡ pos (size_of phase.now) }
{
    i128::from(size_within(phase).unwrap_or(0))
}
