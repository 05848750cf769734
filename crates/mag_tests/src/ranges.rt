//! The low and the high of the magnetic energy, for sums from lows to highs.

use crate::energies::{energy, magnet};
use cal_limits::{MOST_CURIE, MOST_MOMENT};
use cal_log::Logs;
use cef_mag::{Magnet, Sums};
use std::test::Fail;

/// The low and the high of an energy.
#[derive(Clone, Copy)]
struct Bounds {
    low: i128,
    high: i128,
}

/// The bounds for sums of Curie temperatures in µK and of moments in millionths.
fn bounds_of(magnet: &Magnet<'_>, curie: Sums, moment: Sums) -> Result<Bounds, Fail> {
    if curie.low.unsigned_abs() > u128::from(MOST_CURIE) {
        return Err("too low a Curie temperature".into());
    }
    if curie.high.unsigned_abs() > u128::from(MOST_CURIE) {
        return Err("too high a Curie temperature".into());
    }
    if moment.low.unsigned_abs() > u128::from(MOST_MOMENT) {
        return Err("too low a moment".into());
    }
    if moment.high.unsigned_abs() > u128::from(MOST_MOMENT) {
        return Err("too high a moment".into());
    }
    let low = magnet.low(curie, moment);
    let high = magnet.high(curie, moment);
    Ok(Bounds { low, high })
}

fn sums(low: i128, high: i128) -> Sums {
    Sums { low, high }
}

#[test]
fn a_box_that_crosses_the_curie_temperature_has_two_parts(rt: HostRuntime) -> Result<(), Fail> {
    let logs = Logs::build(rt.alloc(), 501_001)?;
    let ferrite = magnet(104_300, 1, 1, 4000, &logs)?;
    let of = bounds_of(
        &ferrite,
        sums(-170_000_000, 1_868_000_000),
        sums(125_000, 2_220_000),
    )?;
    assert_eq!(rt; of.low, -7_937_483_762);
    assert_eq!(rt; of.high, 689_890_928);
    let austenite = magnet(100_000, 1, 3, 2800, &logs)?;
    let of = bounds_of(
        &austenite,
        sums(1_000_000_000, 1_000_000_001),
        sums(1_000_000, 1_000_000),
    )?;
    assert_eq!(rt; of.low, -255_482_154);
    assert_eq!(rt; of.high, -255_482_148);
    Ok(())
}

#[test]
fn sums_that_pass_0_and_sums_below_it(rt: HostRuntime) -> Result<(), Fail> {
    let logs = Logs::build(rt.alloc(), 501_001)?;
    let austenite = magnet(100_000, 1, 3, 2800, &logs)?;
    let of = bounds_of(&austenite, sums(-1, 1_000_000_000), sums(0, 1_000_000))?;
    assert_eq!(rt; of.low, -255_482_154);
    assert_eq!(rt; of.high, 0);
    let cold = magnet(29_815, 1, 3, 2800, &logs)?;
    let of = bounds_of(
        &cold,
        sums(-900_000_000, -300_000_000),
        sums(-2_000_000, -1_000_000),
    )?;
    assert_eq!(rt; of.low, -62_896_147);
    assert_eq!(rt; of.high, -129_223);
    Ok(())
}

#[test]
fn a_low_above_its_high_counts_for_both(rt: HostRuntime) -> Result<(), Fail> {
    let logs = Logs::build(rt.alloc(), 501_001)?;
    let austenite = magnet(100_000, 1, 3, 2800, &logs)?;
    let of = bounds_of(&austenite, sums(1_000_000_000, -1), sums(1_000_000, 0))?;
    assert_eq!(rt; of.low, -255_482_154);
    assert_eq!(rt; of.high, -255_482_154);
    Ok(())
}

/// Whether an energy lies within bounds, and is both bounds of its own sums.
fn is_bounded(magnet: &Magnet<'_>, of: Bounds, curie: i128, moment: i128) -> Result<bool, Fail> {
    let value = energy(magnet, curie, moment)?;
    let own = bounds_of(magnet, sums(curie, curie), sums(moment, moment))?;
    let is_own = own.low == value && own.high == value;
    Ok(is_own && of.low <= value && value <= of.high)
}

/// How many of 31 times 31 sums, which pass 0 and the Curie temperature, have energies within the bounds of all.
fn bounded(magnet: &Magnet<'_>) -> Result<u32, Fail> {
    let of = bounds_of(
        magnet,
        sums(-600_000_000, 900_000_000),
        sums(-1_000_000, 2_000_000),
    )?;
    let mut count = 0u32;
    'sums: for k in 0..961u32 {
        let curie = i128::from(k / 31) * 50_000_000 - 600_000_000;
        let moment = i128::from(k % 31) * 100_000 - 1_000_000;
        if is_bounded(magnet, of, curie, moment)? {
            count = count.saturating_add(1);
        }
    }
    Ok(count)
}

#[test]
fn bounds_hold_every_energy_of_a_grid(rt: HostRuntime) -> Result<(), Fail> {
    let logs = Logs::build(rt.alloc(), 501_001)?;
    assert_eq!(rt; bounded(&magnet(29_815, 1, 1, 4000, &logs)?)?, 961);
    assert_eq!(rt; bounded(&magnet(29_815, 10, 3, 2800, &logs)?)?, 961);
    assert_eq!(rt; bounded(&magnet(60_000, 1, 9, 1000, &logs)?)?, 961);
    assert_eq!(rt; bounded(&magnet(60_000, 1, 2, 10_000, &logs)?)?, 961);
    Ok(())
}
