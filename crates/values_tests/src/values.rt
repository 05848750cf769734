ghost use Rattle.std.specs.Prelude.{◌≡◌, ◌≤◌, IfOk};
ghost use Rattle.temp_fun.specs.Functions.{AreFunctions};

use crate::fixture::{ROOT, functions, nothing, ranged, with};
use cal_log::Logs;
use cal_scan::Name;
use indexmap::IndexMap;
use std::alloc::{AllocError, Global};
use std::test::Fail;
use tdb_expr::Ranged;
use temp_fun::{EvalFault, value};

/// The value of a text that is not a function's.
pub fn value_of(
    alloc: Global,
    functions: &IndexMap<Name, Ranged>,
    logs: &Logs,
    text: &[u8],
    t: u32,
) -> Result<i128, EvalFault>
    requires functions { AreFunctions functions.now.entries }
    requires least { 100 ≤ t }
    requires greatest { t ≤ 600000 }
    requires table { logs.now ≡ 600000 }
{
    let root = ranged(alloc, ROOT, &[(600000, text)])?;
    value(alloc, functions, logs, &root, t)
}

/// The functions of an assessment of iron, chromium and carbon, with their values in units of 10^-9 J/mol at 1273.15 K.
const ASSESSED: [(&[u8], u32, &[u8], &[u8], i128); 8] = [
    (
        b"GC",
        600000,
        b"-17368.441+170.73*T-24.3*T*LN(T)-4.723E-04*T**2+2562600*T**(-1)-2.643E+08*T**(-2)+1.2E+10*T**(-3)",
        b"0",
        -20093762149261,
    ),
    (
        b"GCR",
        218000,
        b"-8856.94+157.48*T-26.908*T*LN(T)+.00189435*T**2-1.47721E-06*T**3+139250*T**(-1)",
        b"-34869.344+344.18*T-50*T*LN(T)-2.88526E+32*T**(-9)",
        -53148210482120,
    ),
    (
        b"GFE",
        181100,
        b"+1225.7+124.134*T-23.5143*T*LN(T)-.00439752*T**2-5.8927E-08*T**3+77359*T**(-1)",
        b"-25383.581+299.31255*T-46*T*LN(T)+2.29603E+31*T**(-9)",
        -61950661451270,
    ),
    (
        b"GFEFCC",
        181100,
        b"-1462.4+8.282*T-1.15*T*LN(T)+6.4E-04*T**2+GFE#",
        b"-27097.396+300.25256*T-46*T*LN(T)+2.78854E+31*T**(-9)",
        -62298827099790,
    ),
    (
        b"GFELIQ",
        181100,
        b"+12040.17-6.55843*T-3.6751551E-21*T**7+GFE#",
        b"-10838.83+291.302*T-46*T*LN(T)",
        -58280283182356,
    ),
    (
        b"GCEM",
        600000,
        b"-10745+706.04*T-120.6*T*LN(T)",
        b"0",
        -209559442551064,
    ),
    (
        b"GCRM",
        600000,
        b"-521983+3622.24*T-620.965*T*LN(T)-.126431*T**2",
        b"0",
        -1767326507517647,
    ),
    (
        b"GFEM",
        600000,
        b"+7.666667*GCEM#-1.666667*GC#+66920-40*T",
        b"0",
        -1557138852464617,
    ),
];

fn assessed(alloc: Global) -> Result<IndexMap<Name, Ranged>, AllocError>
    ensures { IfOk result (λ all. AreFunctions all.entries) }
{
    let mut all = nothing(alloc);
    'functions: for k in 0..ASSESSED.len() {
        let (name, high, low_text, high_text, _) = ASSESSED[k];
        let function = ranged(alloc, 1, &[(high, low_text), (600000, high_text)])?;
        all = with(alloc, all, name, function)?;
    }
    Ok(all)
}

#[test]
fn assessed_functions_have_the_values_of_an_independent_program(
    rt: HostRuntime,
) -> Result<(), Fail> {
    let logs = Logs::build(rt.alloc(), 600000)?;
    let all = assessed(rt.alloc())?;
    for (name, _, _, _, expected) in ASSESSED {
        let found = value_of(rt.alloc(), &all, &logs, name, 127315);
        assert_eq!(rt; found, Ok(expected), "{name:?}");
    }
    Ok(())
}

/// Texts at 2 K, without functions.
const ALONE: [(&[u8], Result<i128, EvalFault>); 19] = [
    (b"-1.5*T+3*T**2", Ok(9000000000)),
    (b"T**(-1)", Ok(500000000)),
    (b"-T**(-1)/1", Err(EvalFault::Unsupported(ROOT))),
    (b"LN(T)", Ok(693147180)),
    (b"-LN(T)", Ok(-693147181)),
    (b"R", Ok(8314510000)),
    (b"R*T", Ok(16629020000)),
    (b"1E18", Ok(1000000000000000000000000000)),
    (b"1E18+1E-9", Err(EvalFault::TooLarge(ROOT))),
    (b"1E18-1E-9+1E-9", Ok(1000000000000000000000000000)),
    (b"-1E18+1E18+1E18", Ok(1000000000000000000000000000)),
    (b"1E18+1E18-1E18", Err(EvalFault::TooLarge(ROOT))),
    (b"1E19-1E19", Err(EvalFault::TooLarge(ROOT))),
    (b"1E19*0", Ok(0)),
    (b"1E19+X", Err(EvalFault::TooLarge(ROOT))),
    (b"X+1E19", Err(EvalFault::Missing(ROOT))),
    (b"1E19*X", Err(EvalFault::Missing(ROOT))),
    (b"-5E-10", Ok(-1)),
    (b"EXP(T)", Err(EvalFault::Unsupported(ROOT))),
];

#[test]
fn the_value_or_the_first_refusal_of_a_text_alone(rt: HostRuntime) -> Result<(), Fail> {
    let logs = Logs::build(rt.alloc(), 600000)?;
    let none = nothing(rt.alloc());
    for (text, expected) in ALONE {
        let found = value_of(rt.alloc(), &none, &logs, text, 200);
        assert_eq!(rt; found, expected, "{text:?}");
    }
    Ok(())
}

#[test]
fn the_first_piece_whose_limit_is_above_holds_or_the_last(rt: HostRuntime) -> Result<(), Fail> {
    let logs = Logs::build(rt.alloc(), 600000)?;
    let none = nothing(rt.alloc());
    let steps = ranged(rt.alloc(), 7, &[(100000, b"10"), (200000, b"20")])?;
    for (t, expected) in [
        (100, 10000000000),
        (99999, 10000000000),
        (100000, 20000000000),
        (199999, 20000000000),
        (200000, 20000000000),
        (600000, 20000000000),
    ] {
        let found = value(rt.alloc(), &none, &logs, &steps, t);
        assert_eq!(rt; found, Ok(expected), "{t}");
    }
    let partly = ranged(
        rt.alloc(),
        7,
        &[(100000, b"P"), (50000, b"1"), (200000, b"X")],
    )?;
    assert_eq!(rt;
        value(rt.alloc(), &none, &logs, &partly, 99999),
        Err(EvalFault::Unsupported(7))
    );
    assert_eq!(rt;
        value(rt.alloc(), &none, &logs, &partly, 100000),
        Err(EvalFault::Missing(7))
    );
    Ok(())
}

/// Names, at 1 K, where A names itself at line 1, B and C one another at lines 2 and 3, D leads to B by line 4, E is outside the
/// grammar at line 5, F has a missing name at line 6, G is too large at line 7 and R names itself at line 8.
const NAMED: [(&[u8], EvalFault); 12] = [
    (b"A", EvalFault::Cycle(1)),
    (b"B", EvalFault::Cycle(3)),
    (b"C", EvalFault::Cycle(2)),
    (b"D", EvalFault::Cycle(3)),
    (b"E", EvalFault::Unsupported(5)),
    (b"F", EvalFault::Missing(6)),
    (b"G", EvalFault::TooLarge(7)),
    (b"R", EvalFault::Cycle(8)),
    (b"F+G", EvalFault::Missing(6)),
    (b"G+F", EvalFault::TooLarge(7)),
    (b"1E19*E", EvalFault::Unsupported(5)),
    (b"2*X*G", EvalFault::Missing(ROOT)),
];

#[test]
fn refusals_stand_at_the_line_of_the_expression_in_question(rt: HostRuntime) -> Result<(), Fail> {
    let logs = Logs::build(rt.alloc(), 600000)?;
    let all = functions(
        rt.alloc(),
        &[
            (b"A", b"1+2*A"),
            (b"B", b"C"),
            (b"C", b"B#"),
            (b"D", b"T*B"),
            (b"E", b"EXP(T)"),
            (b"F", b"1+X"),
            (b"G", b"1E18+1"),
            (b"R", b"R"),
        ],
    )?;
    for (text, expected) in NAMED {
        let found = value_of(rt.alloc(), &all, &logs, text, 100);
        assert_eq!(rt; found, Err(expected), "{text:?}");
    }
    let named = functions(rt.alloc(), &[(b"R", b"2"), (b"TWO", b"R*R")])?;
    assert_eq!(rt;
        value_of(rt.alloc(), &named, &logs, b"R", 100),
        Ok(2000000000)
    );
    assert_eq!(rt;
        value_of(rt.alloc(), &named, &logs, b"TWO+R", 100),
        Ok(6000000000)
    );
    Ok(())
}
