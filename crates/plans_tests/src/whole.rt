use cal_whole::{compare_ratios, compare_signed_ratios};
use std::cmp::Ordering;

#[test]
fn ratios_are_compared_without_their_products(rt: HostRuntime) {
    let large = i128::MAX;
    let cases = [
        (1, 3, 2, 6, Ordering::Equal),
        (7, 3, 9, 4, Ordering::Greater),
        (9, 4, 7, 3, Ordering::Less),
        (5, 3, 8, 5, Ordering::Greater),
        (-1, 2, -1, 3, Ordering::Less),
        (-7, 2, -4, 1, Ordering::Greater),
        (0, 5, 0, 9, Ordering::Equal),
        (large, large - 1, large - 1, large - 2, Ordering::Less),
        (-large, 1, large, 1, Ordering::Less),
    ];
    for (a, b, c, d, want) in cases {
        assert!(rt; b > 0);
        assert!(rt; d > 0);
        assert_eq!(rt;
            compare_signed_ratios(a, b, c, d),
            want,
            "{a} / {b} and {c} / {d}"
        );
    }
    assert_eq!(rt;
        compare_ratios(u128::MAX, u128::MAX - 1, u128::MAX - 1, u128::MAX),
        Ordering::Greater
    );
}
