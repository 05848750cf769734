//! The line of the first fault of a document.

use crate::example::{LINES, PAIR, fault_line, first_lines, whole, with_line, with_steps};
use std::alloc::{AllocError, Global};
use std::test::Fail;

/// The fault of the path with another text in place of a line.
fn fault_with(alloc: Global, line: usize, instead: &[u8]) -> Result<u32, AllocError> {
    let path = whole(alloc)?;
    let text = with_line(alloc, path.as_slice(), line, instead)?;
    fault_line(alloc, text.as_slice())
}

#[test]
fn a_path_that_is_cut_is_at_fault_behind_its_last_line(rt: HostRuntime) -> Result<(), Fail> {
    let path = whole(rt.alloc())?;
    assert_eq!(rt; fault_line(rt.alloc(), path.as_slice())?, 0);
    for count in 0..LINES {
        let text = first_lines(rt.alloc(), path.as_slice(), count)?;
        let line = fault_line(rt.alloc(), text.as_slice())?;
        assert_eq!(rt; line as usize, count + 1);
    }
    Ok(())
}

#[test]
fn an_unfinished_last_line_is_the_fault(rt: HostRuntime) -> Result<(), Fail> {
    let rows: [(&[u8], u32); 4] = [
        (b"", 1),
        (b"path 1", 1),
        (b"path 1\nliquid LIQUID", 2),
        (b"\n", 1),
    ];
    for (text, line) in rows {
        assert_eq!(rt; fault_line(rt.alloc(), text)?, line);
    }
    Ok(())
}

#[test]
fn the_head_has_its_limits(rt: HostRuntime) -> Result<(), Fail> {
    let rows: [(usize, &[u8], u32); 16] = [
        (1, b"path 1", 0),
        (1, b"path 2", 1),
        (1, b"path", 1),
        (1, b"equilibrium 1", 2),
        (2, b"liquid ALPHA", 0),
        (2, b"liquid liquid", 2),
        (3, b"descent 600000", 0),
        (3, b"descent 600001", 3),
        (3, b"descent 0", 3),
        (4, b"floor 100", 0),
        (4, b"floor 99", 4),
        (4, b"floor 600000", 0),
        (4, b"floor 600001", 4),
        (5, b"stop 1000000", 0),
        (5, b"stop 1000001", 5),
        (5, b"stop 00", 5),
    ];
    for (line, instead, fault) in rows {
        assert_eq!(rt; fault_with(rt.alloc(), line, instead)?, fault);
    }
    Ok(())
}

#[test]
fn a_step_has_a_number_a_report_and_what_is_left(rt: HostRuntime) -> Result<(), Fail> {
    let rows: [(usize, &[u8], u32); 14] = [
        (6, b"step 0", 6),
        (6, b"step 1", 0),
        (6, b"step 10000", 0),
        (6, b"step 10001", 6),
        (6, b"finish no-liquid", 6),
        (7, b"equilibrium 2", 7),
        (25, b"left 9999999999", 0),
        (25, b"left -1", 0),
        (25, b"left", 25),
        (25, b"left 1 2", 25),
        (26, b"step 1", 0),
        (30, b"elements B", 0),
        (30, b"elements A B", 32),
        (46, b"finish no-liquid", 47),
    ];
    for (line, instead, fault) in rows {
        assert_eq!(rt; fault_with(rt.alloc(), line, instead)?, fault);
    }
    Ok(())
}

#[test]
fn the_end_has_a_finish_and_three_lists(rt: HostRuntime) -> Result<(), Fail> {
    let rows: [(usize, &[u8], u32); 14] = [
        (66, b"finish no-liquid", 0),
        (66, b"finish fraction", 0),
        (66, b"finish temperature", 0),
        (66, b"finish", 66),
        (66, b"finish none", 66),
        (66, b"step 4", 67),
        (67, b"solids 1 2", 67),
        (67, b"remains 0", 67),
        (68, b"remains -1", 0),
        (68, b"remains -0", 68),
        (69, b"lost 1329227995784915872903807060280344576", 0),
        (69, b"lost 1329227995784915872903807060280344577", 69),
        (69, b"lost 0\n", 70),
        (69, b"lost 0\nend", 70),
    ];
    for (line, instead, fault) in rows {
        assert_eq!(rt; fault_with(rt.alloc(), line, instead)?, fault);
    }
    Ok(())
}

#[test]
fn a_report_alone_is_a_document(rt: HostRuntime) -> Result<(), Fail> {
    let rows: [(usize, &[u8], u32); 4] = [
        (1, b"equilibrium 1", 0),
        (1, b"path 1", 2),
        (1, b"step 1", 1),
        (20, b"end\npath 1", 21),
    ];
    for (line, instead, fault) in rows {
        let text = with_line(rt.alloc(), PAIR, line, instead)?;
        assert_eq!(rt; fault_line(rt.alloc(), text.as_slice())?, fault);
    }
    Ok(())
}

#[test]
fn the_step_behind_the_last_that_may_be_is_the_fault(rt: HostRuntime) -> Result<(), Fail> {
    let most = with_steps(rt.alloc(), 10_000)?;
    assert_eq!(rt; fault_line(rt.alloc(), most.as_slice())?, 0);
    let more = with_steps(rt.alloc(), 10_001)?;
    assert_eq!(rt; fault_line(rt.alloc(), more.as_slice())?, 200_006);
    Ok(())
}
