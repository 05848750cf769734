ghost use Rattle.std.specs.Prelude.{unsigned_abs, ◌≡◌, ◌<◌, ◌^◌};

use cal_dec::{Dec, TooLarge, below, mul, power, print_fixed, print_whole, to_nano};
use std::test::Fail;

fn dec(mantissa: i64, exponent: i16) -> Dec
    requires { unsigned_abs mantissa < 10 ^ 18 }
    ensures mantissa { result.mantissa ≡ mantissa }
    ensures exponent { result.exponent ≡ exponent }
{
    Dec { mantissa, exponent }
}

#[test]
fn products_and_powers_are_cut_towards_zero(rt: HostRuntime) -> Result<(), Fail> {
    let largest = dec(999999999999999999, 0);
    assert_eq!(rt; mul(largest, dec(1, 0)), largest);
    assert_eq!(rt; mul(dec(999999999, 0), dec(1000000001, 0)), largest);
    assert_eq!(rt;
        mul(dec(1000000000, 0), dec(1000000000, 0)),
        dec(100000000000000000, 1)
    );
    assert_eq!(rt;
        mul(dec(999999999999999999, 3), dec(999999999999999999, -5)),
        dec(999999999999999998, 16)
    );
    assert_eq!(rt;
        mul(dec(-999999999999999999, 0), dec(11, 0)),
        dec(-109999999999999999, 2)
    );
    assert_eq!(rt; mul(dec(-15, -1), dec(15, -1)), dec(-225, -2));
    assert_eq!(rt; mul(dec(0, 5), dec(3, -7)), dec(0, -2));
    assert_eq!(rt; power(dec(100000, -2), -1), dec(100000000000000000, -20));
    assert_eq!(rt; power(dec(-7, 3), 0), dec(1, 0));
    assert_eq!(rt; power(dec(2, 0), 10), dec(1024, 0));
    assert_eq!(rt; power(dec(10, 0), 17), dec(100000000000000000, 0));
    assert_eq!(rt; power(dec(10, 0), 18), dec(100000000000000000, 1));
    assert_eq!(rt; power(dec(10, 0), 20), dec(100000000000000000, 3));
    assert_eq!(rt; power(dec(-3, -1), 3), dec(-27, -3));
    assert_eq!(rt; power(largest, 3), dec(999999999999999997, 36));
    assert_eq!(rt; power(dec(3, 0), -1), dec(333333333333333333, -18));
    assert_eq!(rt; power(dec(-4, 1), -2), dec(625000000000000000, -21));
    Ok(())
}

#[test]
fn units_are_floors_at_every_exponent(rt: HostRuntime) -> Result<(), Fail> {
    assert_eq!(rt; to_nano(dec(-147721, -11)), Ok(-1478));
    assert_eq!(rt; to_nano(dec(29815, -2)), Ok(298150000000));
    assert_eq!(rt; to_nano(dec(5, -10)), Ok(0));
    assert_eq!(rt; to_nano(dec(-5, -10)), Ok(-1));
    assert_eq!(rt; to_nano(dec(-1000, -12)), Ok(-1));
    assert_eq!(rt; to_nano(dec(-1, -9)), Ok(-1));
    assert_eq!(rt; to_nano(dec(-999999999999999999, -27)), Ok(-1));
    assert_eq!(rt; to_nano(dec(1, -32768)), Ok(0));
    assert_eq!(rt; to_nano(dec(-1, -32768)), Ok(-1));
    assert_eq!(rt; to_nano(dec(0, 32767)), Ok(0));
    assert_eq!(rt; to_nano(dec(1, 18)), Ok(1000000000000000000000000000));
    assert_eq!(rt; to_nano(dec(-1, 18)), Ok(-1000000000000000000000000000));
    assert_eq!(rt;
        to_nano(dec(999999999999999999, 0)),
        Ok(999999999999999999000000000)
    );
    assert_eq!(rt; to_nano(dec(100000000000000001, 1)), Err(TooLarge));
    assert_eq!(rt; to_nano(dec(-100000000000000001, 1)), Err(TooLarge));
    assert_eq!(rt; to_nano(dec(1, 19)), Err(TooLarge));
    assert_eq!(rt; to_nano(dec(-1, 32767)), Err(TooLarge));
    Ok(())
}

#[test]
fn hundredths_are_compared_exactly(rt: HostRuntime) -> Result<(), Fail> {
    assert!(rt; below(29814, dec(29815, -2)));
    assert!(rt; !below(29815, dec(29815, -2)));
    assert!(rt; below(9, dec(1, -1)));
    assert!(rt; !below(10, dec(1, -1)));
    assert!(rt; below(599999, dec(6, 3)));
    assert!(rt; !below(600000, dec(6, 3)));
    assert!(rt; below(4294967295, dec(42949673, 0)));
    assert!(rt; !below(4294967295, dec(42949672, 0)));
    assert!(rt; below(4294967295, dec(1, 32767)));
    assert!(rt; below(0, dec(1, -32768)));
    assert!(rt; !below(1, dec(1, -32768)));
    assert!(rt; !below(0, dec(0, 0)));
    assert!(rt; !below(0, dec(-1, 0)));
    Ok(())
}

#[test]
fn numbers_have_one_text(rt: HostRuntime) -> Result<(), Fail> {
    let mut out = Vec::new(rt.alloc());
    for value in [0, 7, -7, 1000000000000000000, i128::MAX, i128::MIN] {
        print_whole(value, &mut out)?;
        out.push(b' ')?;
    }
    let wholes =
        b"0 7 -7 1000000000000000000 170141183460469231731687303715884105727 -170141183460469231731687303715884105728 ";
    assert_eq!(rt; out.as_slice(), wholes.as_slice());
    let mut out = Vec::new(rt.alloc());
    for (value, places) in [
        (0, 0),
        (7, 0),
        (7, 2),
        (29815, 2),
        (100, 2),
        (5, 9),
        (u64::MAX, 9),
    ] {
        print_fixed(value, places, &mut out)?;
        out.push(b' ')?;
    }
    let fixed = b"0 7 0.07 298.15 1.00 0.000000005 18446744073.709551615 ";
    assert_eq!(rt; out.as_slice(), fixed.as_slice());
    Ok(())
}
