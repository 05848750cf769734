//! The magnetic energy of a sum of Curie temperatures and a sum of moments, in µJ/mol.

ghost use Rattle.std.specs.Prelude.{◌≤◌};

use cal_limits::{MOST_CURIE, MOST_MOMENT};
use cal_log::Logs;
use cef_core::MagneticAt;
use cef_mag::Magnet;
use std::test::Fail;

/// A temperature, a scale of ratios, and a magnetism.
pub fn magnet(t: u32, scale: u32, factor: u8, p4: u32, logs: &Logs) -> Result<Magnet<'_>, Fail>
    requires { 501001 ≤ logs.now }
{
    if t < 100 || t > 600_000 || scale > 100_000 {
        return Err("no temperature or no scale".into());
    }
    if factor < 1 || p4 < 1000 || p4 > 10_000 {
        return Err("no magnetism".into());
    }
    Ok(Magnet::new(t, scale, &MagneticAt { factor, p4 }, logs))
}

/// The energy of a sum of Curie temperatures in µK and a sum of moments in millionths.
pub fn energy(magnet: &Magnet<'_>, curie: i128, moment: i128) -> Result<i128, Fail> {
    if curie.unsigned_abs() > u128::from(MOST_CURIE) {
        return Err("too great a Curie temperature".into());
    }
    if moment.unsigned_abs() > u128::from(MOST_MOMENT) {
        return Err("too great a moment".into());
    }
    Ok(magnet.energy(curie, moment))
}

#[test]
fn sums_of_0_and_little_below_0_give_no_energy(rt: HostRuntime) -> Result<(), Fail> {
    let logs = Logs::build(rt.alloc(), 501_001)?;
    let ferrite = magnet(100_000, 1, 1, 4000, &logs)?;
    assert_eq!(rt; energy(&ferrite, 0, 2_220_000)?, 0);
    assert_eq!(rt; energy(&ferrite, 1_043_000_000, 0)?, 0);
    let austenite = magnet(100_000, 1, 3, 2800, &logs)?;
    assert_eq!(rt; energy(&austenite, -1, -1)?, 0);
    assert_eq!(rt; energy(&austenite, -2, 2_000_000)?, 0);
    Ok(())
}

#[test]
fn sums_below_0_are_divided_by_the_factor(rt: HostRuntime) -> Result<(), Fail> {
    let logs = Logs::build(rt.alloc(), 501_001)?;
    let austenite = magnet(60_000, 1, 3, 2800, &logs)?;
    assert_eq!(rt;
        energy(&austenite, -1_800_000_000, -2_100_000)?,
        -117_348_280
    );
    let whole = magnet(60_000, 1, 1, 2800, &logs)?;
    assert_eq!(rt; energy(&whole, -1_800_000_000, -2_100_000)?, -8_960_102_239);
    Ok(())
}

#[test]
fn a_member_of_ferrite_at_1273_kelvin(rt: HostRuntime) -> Result<(), Fail> {
    let logs = Logs::build(rt.alloc(), 501_001)?;
    let ferrite = magnet(127_315, 1, 1, 4000, &logs)?;
    assert_eq!(rt; energy(&ferrite, 973_467_000, 1_621_620)?, -171_480_698);
    Ok(())
}

#[test]
fn energies_at_the_limits_of_sums_factors_and_structures(rt: HostRuntime) -> Result<(), Fail> {
    let logs = Logs::build(rt.alloc(), 501_001)?;
    let cold = magnet(100, 1, 1, 10_000, &logs)?;
    assert_eq!(rt;
        energy(&cold, 10_000_000_000, 500_000_000)?,
        -633_397_565_945
    );
    let hot = magnet(600_000, 1, 1, 1000, &logs)?;
    assert_eq!(rt;
        energy(&hot, 10_000_000_000, 500_000_000)?,
        -117_359_540_832
    );
    let ninth = magnet(29_815, 1, 9, 1000, &logs)?;
    assert_eq!(rt;
        energy(&ninth, -10_000_000_000, -500_000_000)?,
        -19_884_807_074
    );
    let scaled = magnet(29_815, 100_000, 1, 1000, &logs)?;
    assert_eq!(rt;
        energy(&scaled, -10_000_000_000, -500_000_000)?,
        -39_845_057_997_575_920
    );
    Ok(())
}
