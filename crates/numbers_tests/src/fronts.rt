use cal_dec::{capped_value, longest_number, split_digits, trimmed};
use cal_scan::{behind_spaces, name_bytes_at};

/// Each text with the longest front that is a number, or with nothing where no front is one.
const FRONTS: [(&str, &str); 34] = [
    ("1", "1"),
    ("1E+X", "1"),
    ("1E+5X", "1E+5"),
    ("1E5", "1E5"),
    ("1E", "1"),
    ("1E-", "1"),
    ("1EE5", "1"),
    ("1E5E5", "1E5"),
    ("1E5.5", "1E5"),
    ("1.2.3", "1.2"),
    ("1..2", "1."),
    ("1.", "1."),
    (".5", ".5"),
    (".5.", ".5"),
    ("-1*T", "-1"),
    ("+.5E-2;", "+.5E-2"),
    ("298.15 -8856", "298.15"),
    ("2180 Y", "2180"),
    ("6000N", "6000"),
    ("1E05Y", "1E05"),
    ("1 2", "1"),
    ("0012", "0012"),
    ("1e5", "1"),
    ("1-2", "1"),
    (
        "12345678901234567890123456789012345678901234567890123456789012345678901234567890X",
        "12345678901234567890123456789012345678901234567890123456789012345678901234567890",
    ),
    ("", ""),
    (".", ""),
    ("+", ""),
    ("-.", ""),
    (".E5", ""),
    ("E5", ""),
    (" 1", ""),
    ("--1", ""),
    ("X", ""),
];

#[test]
fn the_longest_front_that_is_a_number_is_taken(rt: HostRuntime) {
    for (text, expected) in FRONTS {
        match longest_number(text.as_bytes()) {
            None => assert_eq!(rt; "", expected, "{text}"),
            Some((number, rest)) => {
                assert_eq!(rt; number, expected.as_bytes(), "{text}");
                assert_eq!(rt; number.len() + rest.len(), text.len(), "{text}");
            }
        }
    }
}

#[test]
fn digits_spaces_and_names_are_taken_from_the_front(rt: HostRuntime) {
    assert_eq!(rt;
        split_digits(b"0020)"),
        (b"0020".as_slice(), b")".as_slice())
    );
    assert_eq!(rt; split_digits(b"X1"), (b"".as_slice(), b"X1".as_slice()));
    assert_eq!(rt; capped_value(b"0020"), 20);
    assert_eq!(rt; capped_value(b"99999999999999999999"), 10000);
    assert_eq!(rt; behind_spaces(b"  A B "), b"A B ".as_slice());
    assert_eq!(rt; behind_spaces(b"\tA"), b"\tA".as_slice());
    assert_eq!(rt; behind_spaces(b"   "), b"".as_slice());
    assert_eq!(rt;
        name_bytes_at(b"G_1#*T"),
        (b"G_1".as_slice(), b"#*T".as_slice())
    );
    assert_eq!(rt; name_bytes_at(b"#"), (b"".as_slice(), b"#".as_slice()));
    assert_eq!(rt; name_bytes_at(b"Ab"), (b"A".as_slice(), b"b".as_slice()));
}

#[test]
fn numbers_are_cut_to_18_digits(rt: HostRuntime) {
    let cut = trimmed(-4611686018427387880, -9);
    assert_eq!(rt; cut.mantissa, -461168601842738788);
    assert_eq!(rt; cut.exponent, -8);
    assert_eq!(rt; trimmed(i128::MIN, 0).mantissa, -170141183460469231);
    assert_eq!(rt; trimmed(i128::MIN, 0).exponent, 21);
}
