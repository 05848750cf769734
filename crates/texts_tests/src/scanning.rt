//! Names, lists of names, parts and digits.

ghost use Rattle.std.specs.Prelude.{◌≡◌, true};

use cal_scan::{Name, capped_value, names, parts_at, tokens, whole};
use std::test::Fail;

#[test]
fn a_name_is_its_bytes(rt: HostRuntime) -> Result<(), Fail> {
    let iron = Name::from_bytes(rt.alloc(), b"FE")?;
    let copy = iron.copy()?;
    assert!(rt; copy == iron);
    assert_eq!(rt; copy.bytes(), b"FE".as_slice());
    let other = Name::from_bytes(rt.alloc(), b"FE_1")?;
    assert!(rt; copy != other);
    Ok(())
}

#[test]
fn a_text_is_cut_at_each_mark(rt: HostRuntime) -> Result<(), Fail> {
    let rows: [(&[u8], usize, usize); 6] = [
        (b"a b", 2, 2),
        (b"a  b", 3, 2),
        (b" a", 2, 1),
        (b"a,b", 1, 1),
        (b" ", 2, 0),
        (b"", 1, 0),
    ];
    for (text, part_count, token_count) in rows {
        assert_eq!(rt; parts_at(rt.alloc(), text, b' ')?.len(), part_count);
        assert_eq!(rt; tokens(rt.alloc(), text)?.len(), token_count);
    }
    Ok(())
}

#[test]
fn many_names_are_read_in_their_order(rt: HostRuntime) -> Result<(), Fail> {
    let words = parts_at(rt.alloc(), b"NI AL FE CR CO TI MN SI", b' ')?;
    assert!(rt; names(rt.alloc(), Some(7), words.as_slice())?.is_none());
    let found = names(rt.alloc(), Some(8), words.as_slice())?.ok_or("no names")?;
    let mut text = Vec::new(rt.alloc());
    for name in found.as_slice() {
        text.extend_from_slice(name.bytes())?;
        text.push(b'|')?;
    }
    assert_eq!(rt; text.as_slice(), b"NI|AL|FE|CR|CO|TI|MN|SI|".as_slice());
    Ok(())
}

#[test]
fn the_value_of_digits_stops_at_its_cap(rt: HostRuntime) {
    assert_eq!(rt; whole(b"007", 3), Some(7));
    assert_eq!(rt; whole(b"999999999", 9), Some(999_999_999));
    assert_eq!(rt; whole(b"1000000000", 9), None);
    assert_eq!(rt;
        capped_value(b"0000000000000000000000000000000000000000012", 100),
        12
    );
    assert_eq!(rt; capped_value(b"100", 100), 100);
    assert_eq!(rt;
        capped_value(b"99999999999999999999999999999999999999999999", 100),
        100
    );
}
