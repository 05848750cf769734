//! g, in 10^-9, at a temperature, a theta and a structure factor p.

use cef_mag::g_of;
use std::test::Fail;

#[test]
fn g_has_the_values_of_the_model(rt: HostRuntime) -> Result<(), Fail> {
    assert_eq!(rt; g_of(100_000, 1_043_000_000, 4000), -84_550_000);
    assert_eq!(rt; g_of(29_815, 1_043_000_000, 4000), -2_170_527_922);
    assert_eq!(rt; g_of(127_315, 1_043_000_000, 4000), -23_785_015);
    assert_eq!(rt; g_of(127_315, 67_000_000, 2800), -17);
    assert_eq!(rt; g_of(100, 10_000_000_000, 10_000), -12_254_239_945_640);
    assert_eq!(rt; g_of(600_000, 1, 1000), 0);
    Ok(())
}

#[test]
fn the_branches_meet_at_the_curie_temperature_but_for_their_rounding(
    rt: HostRuntime,
) -> Result<(), Fail> {
    assert_eq!(rt; g_of(29_815, 298_150_000, 4000), -66_638_183);
    assert_eq!(rt; g_of(29_815, 298_150_001, 4000), -66_638_182);
    assert_eq!(rt; g_of(29_815, 298_150_000, 1000), -14_734_510);
    assert_eq!(rt; g_of(29_815, 298_150_001, 1000), -14_734_508);
    assert_eq!(rt; g_of(29_815, 298_150_000, 10_000), -225_523_991);
    assert_eq!(rt; g_of(29_815, 298_150_001, 10_000), -225_523_996);
    Ok(())
}
