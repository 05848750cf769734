ghost use Rattle.std.specs.Prelude.{◌≤◌, IfOk};
ghost use Rattle.temp_fun.specs.Functions.{AreFunctions};

use crate::fixture::{ROOT, nothing, ranged, with};
use crate::values::value_of;
use cal_log::Logs;
use cal_scan::Name;
use indexmap::IndexMap;
use std::alloc::{AllocError, Global};
use std::test::Fail;
use tdb_expr::Ranged;
use temp_fun::EvalFault;

/// The functions F1, F2 and so on, of which each names the next one, or adds it to itself, and the last one is this text. F1 is
/// at line 1.
fn chain(
    alloc: Global,
    count: u32,
    doubled: bool,
    last: &[u8],
) -> Result<IndexMap<Name, Ranged>, AllocError>
    ensures { IfOk result (λ all. AreFunctions all.entries) }
{
    let mut all = nothing(alloc);
    'functions: for k in 0..count {
        let line = k.saturating_add(1);
        let next = line.saturating_add(1);
        let name = format!(in alloc; "F{line}")?;
        let text = if doubled {
            format!(in alloc; "F{next}+F{next}")?
        } else {
            format!(in alloc; "F{next}")?
        };
        let own = if line == count { last } else { text.as_bytes() };
        let function = ranged(alloc, line, &[(600000, own)])?;
        all = with(alloc, all, name.as_bytes(), function)?;
    }
    Ok(all)
}

#[test]
fn chains_are_followed_to_their_ends(rt: HostRuntime) -> Result<(), Fail> {
    let logs = Logs::build(rt.alloc(), 600000)?;
    let rows: [(u32, &[u8], Result<i128, EvalFault>); 8] = [
        (63, b"2*T", Ok(2000000000)),
        (64, b"2*T", Ok(2000000000)),
        (65, b"2*T", Err(EvalFault::Unsupported(ROOT))),
        (66, b"2*T", Err(EvalFault::Unsupported(1))),
        (70, b"2*T", Err(EvalFault::Unsupported(5))),
        (70, b"X", Err(EvalFault::Missing(70))),
        (70, b"F1", Err(EvalFault::Cycle(70))),
        (70, b"1E19", Err(EvalFault::TooLarge(70))),
    ];
    for (count, last, expected) in rows {
        let all = chain(rt.alloc(), count, false, last)?;
        let found = value_of(rt.alloc(), &all, &logs, b"F1", 100);
        assert_eq!(rt; found, expected, "{count}");
    }
    Ok(())
}

#[test]
fn functions_that_name_the_next_one_twice_are_read_once(rt: HostRuntime) -> Result<(), Fail> {
    let logs = Logs::build(rt.alloc(), 600000)?;
    let all = chain(rt.alloc(), 63, true, b"1E-9")?;
    assert_eq!(rt;
        value_of(rt.alloc(), &all, &logs, b"F1", 100),
        Ok(4611686018427387880)
    );
    Ok(())
}

#[test]
fn a_chain_of_400000_functions_takes_no_stack(rt: HostRuntime) -> Result<(), Fail> {
    let logs = Logs::build(rt.alloc(), 600000)?;
    let missing = chain(rt.alloc(), 400000, false, b"X")?;
    assert_eq!(rt;
        value_of(rt.alloc(), &missing, &logs, b"F1", 100),
        Err(EvalFault::Missing(400000))
    );
    let high = chain(rt.alloc(), 400000, false, b"1")?;
    assert_eq!(rt;
        value_of(rt.alloc(), &high, &logs, b"F1", 100),
        Err(EvalFault::Unsupported(399935))
    );
    Ok(())
}
