//! The limits of the selected phases.

ghost use Rattle.std.specs.Prelude.{◌≡◌, ◌≤◌, ◌<◌, ◌*◌, ◌+◌, ◌^◌, [], IfOk, map, length, sum, min, nat_lt};
ghost use Rattle.std.specs.List.{AllByRecursion, list_any};
ghost use Rattle.cef_core.specs.Capped.{within};
ghost use Rattle.cef_core.specs.Jobs.{IsJob};
ghost use Rattle.cef_core.specs.Parameters.{interacting};
ghost use Rattle.cef_core.specs.Points.{points_in};
ghost use Rattle.cef_core.specs.Systems.{all_points, greatest, dearest_of};
ghost use Rattle.cal_select.specs.Causes as causes;
ghost use Rattle.cal_select.specs.Causes.{Gives, Tells};
ghost use Rattle.cal_select.specs.Selection.{system_with};
ghost use Rattle.cal_select.specs.Measures.{IsMeasured, degree_by_lengths};
ghost use Rattle.cal_select.specs.declared.fault.SystemFault.TheVariants.{EnergyTooLarge};

use crate::fault::SystemFault;
use cal_limits::{MOST_COST, MOST_CURIE, MOST_LISTS, MOST_MOMENT, MOST_POWER, MOST_WIDTH};
use cal_list::Items;
use cal_scan::Name;
use cef_core::{
    Job, Kind, ParamAt, PhaseAt, System, count_points, magnitudes_within, power_within, ratio_sum,
    size_within,
};
use std::alloc::{AllocError, Global};

fn is_too_energetic(phase: &PhaseAt) -> bool
    requires { IsMeasured phase.now }
    ensures { result ≡ causes.is_too_energetic phase.now }
{
    let parameters = phase.parameters.as_slice();
    size_within(phase).is_none()
        || (magnitudes_within(parameters, Kind::Tc, MOST_CURIE).is_none()
            || magnitudes_within(parameters, Kind::Beta, MOST_MOMENT).is_none())
}

fn allowed_energy(phase: &PhaseAt) -> Result<(), SystemFault>
    requires { IsMeasured phase.now }
    ensures { Tells result (causes.cause_if (causes.is_too_energetic phase.now) (EnergyTooLarge phase.now.name)) }
{
    if is_too_energetic(phase) {
        return Err(SystemFault::EnergyTooLarge(phase.name.copy()?));
    }
    Ok(())
}

/// Refuses the first phase whose energies are too large.
pub(crate) fn allowed_energies(phases: &[PhaseAt]) -> Result<(), SystemFault>
    requires { AllByRecursion IsMeasured phases.now }
    ensures { Tells result (causes.energy_causes phases.now) }
{
    'phases: for phase in phases {
        allowed_energy(phase)?;
    }
    Ok(())
}

fn sum_within(a: u64, b: u64) -> Option<u64>
    requires a { a ≤ MOST_LISTS }
    requires b { b ≤ MOST_LISTS }
    ensures { result ≡ within MOST_LISTS (a + b) }
{
    let sum = a + b;
    if sum <= MOST_LISTS { Some(sum) } else { None }
}

/// The lists of one more phase beside so many of those before.
fn with_points(points: u64, phase: &PhaseAt) -> Option<u64>
    requires points { points ≤ MOST_LISTS }
    requires measured { IsMeasured phase.now }
    ensures { result ≡ within MOST_LISTS (points + points_in phase.now) }
{
    let more = count_points(phase)?;
    sum_within(points, more)
}

/// How many lists of counts the phases have, where these are at most 2^40.
pub(crate) fn points_of_all(phases: &[PhaseAt]) -> Option<u64>
    requires { AllByRecursion IsMeasured phases.now }
    ensures { result ≡ within MOST_LISTS (all_points phases.now) }
{
    let mut points = 0;
    'phases: for phase in phases {
        points = with_points(points, phase)?;
    }
    Some(points)
}

/// The greatest sum of ratios.
pub(crate) fn greatest_ratios(phases: &[PhaseAt]) -> u32
    requires { AllByRecursion IsMeasured phases.now }
    ensures { result ≡ greatest (map (λ phase. sum phase.ratios) phases.now) }
{
    let mut most: u32 = 0;
    'phases: for phase in phases {
        most = most.max(ratio_sum(phase.ratios.as_slice()));
    }
    most
}

/// The greatest size of energies.
fn dearest(phases: &[PhaseAt]) -> u64
    requires measured { AllByRecursion IsMeasured phases.now }
    requires energies { causes.energy_causes phases.now ≡ [] }
    ensures { result ≡ dearest_of phases.now }
{
    let mut most: u64 = 0;
    'phases: for phase in phases {
        most = most.max(size_within(phase).unwrap_or(0));
    }
    most
}

fn is_product_above(power: u128, size: u64) -> bool
    requires { power ≤ MOST_WIDTH }
    ensures { result ≡ nat_lt MOST_COST (power * size) }
{
    power * u128::from(size) > MOST_COST
}

/// How many constituents an array has, and 100 where there are more.
fn constituents(array: &[Items<u16>]) -> usize
    ensures { result ≡ min 100 (sum (map length array.now)) }
{
    let mut count: usize = 0;
    'lists: for places in array {
        count = (count + places.len().min(100)).min(100);
    }
    count
}

/// How many constituents each list of two or more has.
fn interactions(alloc: Global, array: &[Items<u16>]) -> Result<Items<usize>, AllocError>
    ensures { IfOk result (λ lengths. lengths ≡ map length (interacting array.now)) }
{
    let mut lengths = Items::new(alloc);
    'lists: for places in array {
        if places.len() > 1 {
            lengths.push(places.len())?;
        }
    }
    Ok(lengths)
}

/// The powers of N behind those of the counts.
fn factor_degree(order: u8, weighted: bool, lengths: &[usize]) -> u8
    ensures { result ≡ degree_by_lengths order weighted lengths.now }
{
    match lengths {
        [n] => {
            if *n == 2 {
                return order;
            }
            if *n == 3 && weighted {
                return 1;
            }
            0
        }
        _ => 0,
    }
}

/// Whether a power of N is too great.
fn is_power_above(lattice: u32, exponent: usize) -> bool
    ensures { result ≡ nat_lt MOST_POWER (lattice ^ exponent) }
{
    power_within(u64::from(lattice), exponent, MOST_POWER).is_none()
}

/// Whether the divisor of a parameter's value has too high a power of N.
fn is_too_high(alloc: Global, parameter: &ParamAt, lattice: u32) -> Result<bool, AllocError>
    requires { 10 ≤ lattice }
    ensures { IfOk result (λ b. b ≡ causes.is_too_high parameter.now lattice) }
{
    let array = parameter.array.as_slice();
    let lengths = interactions(alloc, array)?;
    let more = factor_degree(parameter.order, parameter.weighted, lengths.as_slice());
    let exponent = constituents(array) + usize::from(more);
    Ok(is_power_above(lattice, exponent))
}

fn has_too_high(alloc: Global, phase: &PhaseAt, lattice: u32) -> Result<bool, AllocError>
    requires { 10 ≤ lattice }
    ensures { IfOk result (λ b. b ≡ causes.has_too_high lattice phase.now) }
{
    'parameters: for parameter in phase.parameters.as_slice() {
        let high = is_too_high(alloc, parameter, lattice)?;
        if high {
            return Ok(true);
        }
    }
    Ok(false)
}

fn some_too_high(alloc: Global, phases: &[PhaseAt], lattice: u32) -> Result<bool, AllocError>
    requires { 10 ≤ lattice }
    ensures { IfOk result (λ b. b ≡ list_any (causes.has_too_high lattice) phases.now) }
{
    'phases: for phase in phases {
        let high = has_too_high(alloc, phase, lattice)?;
        if high {
            return Ok(true);
        }
    }
    Ok(false)
}

/// Whether the contents are too fine for the limits.
fn is_too_fine(alloc: Global, system: &System) -> Result<bool, AllocError>
    requires lattice { 10 ≤ system.now.lattice }
    requires measured { AllByRecursion IsMeasured system.now.phases }
    requires energies { causes.energy_causes system.now.phases ≡ [] }
    ensures { IfOk result (λ b. b ≡ causes.is_too_fine system.now) }
{
    match power_within(system.widest, system.elements.len(), MOST_WIDTH) {
        None => Ok(true),
        Some(power) => {
            let phases = system.phases.as_slice();
            if is_product_above(power, dearest(phases)) {
                return Ok(true);
            }
            let high = some_too_high(alloc, phases, system.lattice)?;
            Ok(high)
        }
    }
}

/// The system of these phases, or the first limit that it passes.
pub(crate) fn limited(
    alloc: Global,
    job: &Job,
    elements: Items<Name>,
    phases: Items<PhaseAt>,
) -> Result<System, SystemFault>
    requires job { IsJob job.now }
    requires measured { AllByRecursion IsMeasured phases }
    ensures { Gives result (causes.limit_causes (system_with job.now elements phases)) (system_with job.now elements phases) }
{
    allowed_energies(phases.as_slice())?;
    match points_of_all(phases.as_slice()) {
        None => Err(SystemFault::LatticeTooLarge),
        Some(lists) => {
            let widest = u64::from(job.lattice) * u64::from(greatest_ratios(phases.as_slice()));
            let system = System {
                t: job.t,
                lattice: job.lattice,
                elements,
                phases,
                lists,
                widest,
            };
            let fine = is_too_fine(alloc, &system)?;
            if fine {
                return Err(SystemFault::TooFine);
            }
            Ok(system)
        }
    }
}
