ghost use Rattle.std.specs.Prelude.{◌≤◌, ◌^◌, length};

use cal_lines::{
    Place, TextFault, all_integers, integer_of, names, natural_of, next_begins_with, read_line,
    words_at,
};
use cal_scan::is_word;
use std::alloc::Global;
use std::test::Fail;

#[test]
fn a_natural_number_has_digits_alone_and_no_leading_zero(rt: HostRuntime) {
    let rows: [(&[u8], u128, Option<u128>); 15] = [
        (b"0", 0, Some(0)),
        (b"1", 0, None),
        (b"9", 9, Some(9)),
        (b"10", 9, None),
        (b"65535", 65535, Some(65535)),
        (b"65536", 65535, None),
        (
            b"1329227995784915872903807060280344576",
            1 << 120,
            Some(1 << 120),
        ),
        (b"1329227995784915872903807060280344577", 1 << 120, None),
        (b"340282366920938463463374607431768211457", 1 << 120, None),
        (b"", 9, None),
        (b"00", 9, None),
        (b"007", 9, None),
        (b"+1", 9, None),
        (b"-1", 9, None),
        (b"1\r", 99, None),
    ];
    for (word, limit, number) in rows {
        assert_eq!(rt; natural_of(word, limit), number);
    }
}

#[test]
fn an_integer_has_a_minus_alone_and_no_minus_zero(rt: HostRuntime) {
    let rows: [(&[u8], u128, Option<i128>); 13] = [
        (b"0", 0, Some(0)),
        (b"-1", 1, Some(-1)),
        (b"-2", 1, None),
        (
            b"1329227995784915872903807060280344576",
            1 << 120,
            Some(1 << 120),
        ),
        (
            b"-1329227995784915872903807060280344576",
            1 << 120,
            Some(-(1 << 120)),
        ),
        (b"-1329227995784915872903807060280344577", 1 << 120, None),
        (b"", 9, None),
        (b"-", 9, None),
        (b"-0", 9, None),
        (b"-07", 9, None),
        (b"--7", 9, None),
        (b"+7", 9, None),
        (b"\t7", 9, None),
    ];
    for (word, limit, number) in rows {
        assert_eq!(rt; integer_of(word, limit), number);
    }
}

/// The words of a line with `|` behind each.
fn marked(alloc: Global, words: &[&[u8]]) -> Result<Vec<u8>, Fail> {
    let mut text = Vec::new(alloc);
    for word in words {
        text.extend_from_slice(*word)?;
        text.push(b'|')?;
    }
    Ok(text)
}

#[test]
fn words_stand_between_single_spaces(rt: HostRuntime) -> Result<(), Fail> {
    let rows: [(&[u8], &[u8]); 7] = [
        (b"a b\nc\n", b"a|b|"),
        (b"a  b\n", b"a||b|"),
        (b" a\n", b"|a|"),
        (b"a \n", b"a||"),
        (b"\n", b"|"),
        (b"a\r\n", b"a\r|"),
        (b"a\tb\n", b"a\tb|"),
    ];
    for (text, words) in rows {
        let (found, after) = words_at(rt.alloc(), Place::start(text))?;
        assert_eq!(rt; marked(rt.alloc(), found.as_slice())?.as_slice(), words);
        assert_eq!(rt; after.number, 2);
    }
    Ok(())
}

/// The line of the fault of three lines and nothing behind them, or 0.
fn fault_of_three_lines(alloc: Global, text: &[u8]) -> u32
    requires { length text.now ≤ 2 ^ 28 }
{
    match three_lines(alloc, text) {
        Ok(()) => 0,
        Err(TextFault::Line(line)) => line,
        Err(TextFault::Memory) => u32::MAX,
    }
}

fn three_lines(alloc: Global, text: &[u8]) -> Result<(), TextFault>
    requires { length text.now ≤ 2 ^ 28 }
{
    let (_, second) = words_at(alloc, Place::start(text))?;
    let (_, third) = words_at(alloc, second)?;
    let (_, after) = words_at(alloc, third)?;
    after.expect_end()
}

#[test]
fn a_line_that_is_unfinished_or_left_over_is_at_fault(rt: HostRuntime) {
    let rows: [(&[u8], u32); 8] = [
        (b"", 1),
        (b"a", 1),
        (b"a\n", 2),
        (b"a\nb", 2),
        (b"a\nb\nc", 3),
        (b"a\nb\nc\n", 0),
        (b"a\nb\nc\n\n", 4),
        (b"a\nb\nc\nd", 4),
    ];
    for (text, line) in rows {
        assert_eq!(rt; fault_of_three_lines(rt.alloc(), text), line);
    }
    assert!(rt; Place::start(b"").is_end());
    assert!(rt; !Place::start(b"\n").is_end());
}

#[test]
fn names_stand_once_behind_their_key(rt: HostRuntime) -> Result<(), Fail> {
    let rows: [(&[u8], Option<usize>, Option<usize>); 15] = [
        (b"elements AL FE NI\n", None, Some(3)),
        (b"elements AL FE NI\n", Some(3), Some(3)),
        (b"elements AL FE NI\n", Some(2), None),
        (b"elements A A_ A1 AA A_1 B\n", None, Some(6)),
        (b"elements A A_ A1 AA A_1 A\n", None, None),
        (
            b"elements A B C D E F G H I J K L M N O P Q R S T U V W X Y Z F\n",
            None,
            None,
        ),
        (b"elements A A\n", None, None),
        (b"elements\n", None, None),
        (b"elements \n", None, None),
        (b"elements AL  FE\n", None, None),
        (b"elements AL fe\n", None, None),
        (
            b"elements A234567890123456789012345678901234567890\n",
            None,
            Some(1),
        ),
        (
            b"elements A2345678901234567890123456789012345678901\n",
            None,
            None,
        ),
        (b"element AL\n", None, None),
        (b"\n", None, None),
    ];
    for (text, most, count) in rows {
        let (words, _) = words_at(rt.alloc(), Place::start(text))?;
        let found = names(rt.alloc(), b"elements", most, words.as_slice())?;
        assert_eq!(rt; found.map(|names| names.len()), count);
    }
    Ok(())
}

#[test]
fn the_first_word_of_the_next_line_tells_its_kind(rt: HostRuntime) {
    let rows: [(&[u8], bool); 7] = [
        (b"step 1\n", true),
        (b"step\nend\n", true),
        (b"step", false),
        (b"steps 1\n", false),
        (b" step\n", false),
        (b"step\t1\n", false),
        (b"", false),
    ];
    for (text, begins) in rows {
        assert_eq!(rt; next_begins_with(Place::start(text), b"step"), begins);
    }
}

#[test]
fn a_list_of_numbers_keeps_their_order(rt: HostRuntime) -> Result<(), Fail> {
    let (words, _) = words_at(rt.alloc(), Place::start(b"7 -3 0 12\n"))?;
    let found = all_integers(rt.alloc(), words.as_slice(), 12)?;
    let values: [i128; 4] = [7, -3, 0, 12];
    assert!(rt; found.is_some_and(|found| found.as_slice() == values.as_slice()));
    let found = all_integers(rt.alloc(), words.as_slice(), 11)?;
    assert!(rt; found.is_none());
    Ok(())
}

#[test]
fn a_fault_tells_its_line(rt: HostRuntime) -> Result<(), Fail> {
    let text = format!(in rt.alloc(); "{}", TextFault::Line(7))?;
    assert_eq!(rt; text.as_str(), "line 7 is at fault");
    Ok(())
}

#[test]
fn a_line_that_is_not_understood_is_at_fault(rt: HostRuntime) -> Result<(), Fail> {
    let text = b"total 7\nenergy -3\n";
    let (total, after) = read_line(rt.alloc(), Place::start(text), |words| {
        Ok(number_behind(words, b"total"))
    })?;
    assert_eq!(rt; total, 7);
    assert_eq!(rt; after.number, 2);
    let fault = read_line(rt.alloc(), after, |words| {
        Ok(number_behind(words, b"tolerance"))
    });
    assert!(rt; matches!(&fault, Err(TextFault::Line(2))));
    Ok(())
}

fn number_behind(words: &[&[u8]], key: &[u8]) -> Option<i128> {
    match words {
        [word, number] => {
            if is_word(*word, key) {
                integer_of(*number, 99)
            } else {
                None
            }
        }
        _ => None,
    }
}
