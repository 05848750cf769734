//! What is read of a path.

use crate::example::{MOST, whole, with_line};
use cef_path::{Finish, PathText};
use path_text::{Document, read_document};
use std::alloc::Global;
use std::test::Fail;

fn path_of(alloc: Global, text: &[u8]) -> Result<Option<PathText>, Fail> {
    if text.len() > MOST {
        return Ok(None);
    }
    match read_document(alloc, text)? {
        Document::One(_) => Ok(None),
        Document::Path(path) => Ok(Some(path)),
    }
}

#[test]
fn a_path_has_its_head_and_its_ledger(rt: HostRuntime) -> Result<(), Fail> {
    let text = whole(rt.alloc())?;
    let path = path_of(rt.alloc(), text.as_slice())?.ok_or("no path")?;
    assert_eq!(rt; path.liquid.bytes(), b"LIQUID".as_slice());
    assert_eq!(rt; path.descent, 100);
    assert_eq!(rt; path.floor, 99_000);
    assert_eq!(rt; path.stop, 0);
    assert!(rt; path.finish == Finish::NoLiquid);
    assert_eq!(rt; path.solids.as_slice(), [10_000_000_000i128].as_slice());
    assert_eq!(rt; path.remains.as_slice(), [0i128].as_slice());
    assert_eq!(rt; path.lost.as_slice(), [0i128].as_slice());
    Ok(())
}

#[test]
fn each_step_has_its_number_its_temperature_what_is_left_and_its_line(
    rt: HostRuntime,
) -> Result<(), Fail> {
    let text = whole(rt.alloc())?;
    let path = path_of(rt.alloc(), text.as_slice())?.ok_or("no path")?;
    let rows: [(u32, u32, i128, u32); 3] = [
        (1, 100_150, 10_000_000_000, 6),
        (2, 100_050, 10_000_000_000, 26),
        (3, 99_950, 0, 46),
    ];
    assert_eq!(rt; path.steps.len(), 3);
    for (step, (number, t, left, line)) in path.steps.as_slice().iter().zip(rows) {
        assert_eq!(rt; step.number, number);
        assert_eq!(rt; step.report.t, t);
        assert_eq!(rt; step.left.as_slice(), [left].as_slice());
        assert_eq!(rt; step.line, line);
    }
    Ok(())
}

#[test]
fn what_is_left_is_the_number_that_stands_there(rt: HostRuntime) -> Result<(), Fail> {
    let text = whole(rt.alloc())?;
    let other = with_line(rt.alloc(), text.as_slice(), 25, b"left 10000000001")?;
    let path = path_of(rt.alloc(), other.as_slice())?.ok_or("no path")?;
    let first = path.steps.as_slice().first().ok_or("no step")?;
    assert_eq!(rt; first.left.as_slice(), [10_000_000_001i128].as_slice());
    Ok(())
}

#[test]
fn each_finish_is_read(rt: HostRuntime) -> Result<(), Fail> {
    let text = whole(rt.alloc())?;
    let rows: [(&[u8], Finish); 3] = [
        (b"finish no-liquid", Finish::NoLiquid),
        (b"finish fraction", Finish::Fraction),
        (b"finish temperature", Finish::Temperature),
    ];
    for (line, finish) in rows {
        let other = with_line(rt.alloc(), text.as_slice(), 66, line)?;
        let path = path_of(rt.alloc(), other.as_slice())?.ok_or("no path")?;
        assert!(rt; path.finish == finish);
    }
    Ok(())
}
