ghost use Rattle.std.specs.Prelude.{◌≡◌, ℕ, ◌+◌, ◌*◌, ◌/◌, ◌<◌, ◌≤◌, ◌^◌, length, map, All, IfOk, pos, ◌+ℤ◌, ◌*ℤ◌, ◌≤ℤ◌, ◌<ℤ◌, ◌-ℤ◌, unsigned_abs};
ghost use Rattle.std.specs.Int.{int_div_euclid};
ghost use Rattle.cal_limits.specs.declared.TheConstants.{LEAST_GAP, MOST_GAP};
ghost use Rattle.eq_solve.specs.Prices.{lowered};

use std::alloc::{AllocError, Global};

/// How far the plane is kept below the known constitutions, in 2^-16 µJ/mol per 1/N: `floor (2^16 * gap / N) - 1`.
pub(crate) fn margin_of(gap: u64, lattice: u32) -> u64
    requires gap_low { LEAST_GAP ≤ gap }
    requires gap_high { gap ≤ MOST_GAP }
    requires lattice_low { 1 ≤ lattice }
    requires lattice_high { lattice ≤ 1000 }
    ensures is { result + 1 ≡ 65536 * gap / lattice }
    ensures some { 1 ≤ result }
    ensures size { result ≤ 2 ^ 56 }
{
    65536 * gap / u64::from(lattice) - 1
}

/// The potential of a component: 2^16 times the plan's, rounded down, less the margin.
fn lowered_of(number: i128, denominator: i128, margin: u64) -> i128
    requires number { unsigned_abs number ≤ 2 ^ 99 }
    requires denominator { pos 1 ≤ℤ denominator }
    requires margin { margin ≤ 2 ^ 56 }
    ensures { result ≡ lowered denominator margin number }
{
    (65536 * number).div_euclid(denominator) - i128::from(margin)
}

/// The potentials under which the phases are swept.
pub(crate) fn potentials_of(
    alloc: Global,
    numbers: &[i128],
    denominator: i128,
    margin: u64,
) -> Result<Vec<i128>, AllocError>
    requires numbers { All (λ number. unsigned_abs number ≤ 2 ^ 99) numbers.now }
    requires denominator { pos 1 ≤ℤ denominator }
    requires margin { margin ≤ 2 ^ 56 }
    ensures { IfOk result (λ potentials. potentials.items ≡ map (lowered denominator margin) numbers.now) }
{
    let mut potentials = Vec::new(alloc);
    'numbers: for number in numbers {
        potentials.push(lowered_of(*number, denominator, margin))?;
    }
    Ok(potentials)
}
