//! The parts of a path as they are written.

ghost use Rattle.std.specs.Prelude.{All};
ghost use Rattle.cef_path.specs.Spelled.{IsSpelledPath, IsSpelledStep};

use crate::example::{ENDING, FIRST, HEAD, MOST, SECOND, THIRD, whole};
use cal_scan::Name;
use cef_path::{Finish, PathText, StepText};
use eq_text::read_report;
use path_text::{Document, read_document, write_finish, write_head, write_step};
use std::alloc::{AllocError, Global};
use std::test::Fail;

#[test]
fn a_head_is_written_line_by_line(rt: HostRuntime) -> Result<(), Fail> {
    let liquid = Name::from_bytes(rt.alloc(), b"LIQUID")?;
    let text = write_head(rt.alloc(), &liquid, 100, 99_000, 0)?;
    assert_eq!(rt; text.as_slice(), HEAD);
    Ok(())
}

#[test]
fn a_step_is_its_number_its_report_and_what_is_left(rt: HostRuntime) -> Result<(), Fail> {
    let rows: [(&[u8], &[u8], u32, &[u8], i128); 3] = [
        (FIRST, b"step 1\n", 1, b"left 10000000000\n", 10_000_000_000),
        (
            SECOND,
            b"step 2\n",
            2,
            b"left 10000000000\n",
            10_000_000_000,
        ),
        (THIRD, b"step 3\n", 3, b"left 0\n", 0),
    ];
    for (wanted, first, number, last, left) in rows {
        let inner = wanted.strip_prefix(first).ok_or("another first line")?;
        let report = inner.strip_suffix(last).ok_or("another last line")?;
        assert!(rt; report.len() < 1000);
        let report = read_report(rt.alloc(), report)?;
        let text = write_step(rt.alloc(), number, &report, &[left])?;
        assert_eq!(rt; text.as_slice(), wanted);
    }
    Ok(())
}

#[test]
fn each_finish_is_written_with_the_ledger(rt: HostRuntime) -> Result<(), Fail> {
    let text = write_finish(rt.alloc(), Finish::NoLiquid, &[10_000_000_000], &[0], &[0])?;
    assert_eq!(rt; text.as_slice(), ENDING);
    let rows: [(Finish, &[u8]); 2] = [
        (
            Finish::Fraction,
            b"finish fraction\nsolids 7\nremains 0\nlost -2\n",
        ),
        (
            Finish::Temperature,
            b"finish temperature\nsolids 7\nremains 0\nlost -2\n",
        ),
    ];
    for (finish, wanted) in rows {
        let text = write_finish(rt.alloc(), finish, &[7], &[0], &[-2])?;
        assert_eq!(rt; text.as_slice(), wanted);
    }
    Ok(())
}

fn put_steps(alloc: Global, out: &mut Vec<u8>, steps: &[StepText]) -> Result<(), AllocError>
    requires { All IsSpelledStep steps.now }
{
    for step in steps {
        let text = write_step(alloc, step.number, &step.report, step.left.as_slice())?;
        out.extend_from_slice(text.as_slice())?;
    }
    Ok(())
}

/// The parts of a path one behind the other.
fn written(alloc: Global, path: &PathText) -> Result<Vec<u8>, AllocError>
    requires { IsSpelledPath path.now }
{
    let mut out = write_head(alloc, &path.liquid, path.descent, path.floor, path.stop)?;
    put_steps(alloc, &mut out, path.steps.as_slice())?;
    let end = write_finish(
        alloc,
        path.finish,
        path.solids.as_slice(),
        path.remains.as_slice(),
        path.lost.as_slice(),
    )?;
    out.extend_from_slice(end.as_slice())?;
    Ok(out)
}

fn written_again(alloc: Global, text: &[u8]) -> Result<Vec<u8>, Fail> {
    if text.len() > MOST {
        return Ok(Vec::new(alloc));
    }
    match read_document(alloc, text)? {
        Document::One(_) => Ok(Vec::new(alloc)),
        Document::Path(path) => {
            let again = written(alloc, &path)?;
            Ok(again)
        }
    }
}

#[test]
fn a_path_is_read_and_written_again(rt: HostRuntime) -> Result<(), Fail> {
    let text = whole(rt.alloc())?;
    let again = written_again(rt.alloc(), text.as_slice())?;
    assert_eq!(rt; again.as_slice(), text.as_slice());
    Ok(())
}
