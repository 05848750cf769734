use crate::systems::{report_of, two_compounds, unequal_ratios};
use cal_log::Logs;
use cef_report::Report;
use eq_solve::SolveFault;
use std::process::Abort;
use std::test::Fail;

/// What a report is to say: for each entry the phase and the amount, the totals, the energy and the tolerance.
#[derive(Drop)]
struct Want<'a> {
    entries: &'a [(usize, i128)],
    totals: &'a [i128],
    energy: i128,
    tolerance: i128,
}

fn check(rt: &impl Abort, report: &Report, want: &Want<'_>) {
    assert_eq!(rt; report.entries.len(), want.entries.len());
    for (entry, (phase, amount)) in report.entries.as_slice().iter().zip(want.entries) {
        assert_eq!(rt; entry.phase, *phase);
        assert_eq!(rt; entry.amount, *amount);
    }
    assert_eq!(rt; report.totals.as_slice(), want.totals);
    assert_eq!(rt; report.energy, want.energy);
    assert_eq!(rt; report.tolerance, want.tolerance);
}

/// How many numbers the proof of none has.
fn numbers_in(fault: &SolveFault) -> usize {
    match fault {
        SolveFault::Infeasible(v) => v.len(),
        SolveFault::GapNotClosed(_) => 0,
        SolveFault::Memory => 0,
    }
}

#[test]
fn equal_amounts_take_as_much_of_both_compounds(rt: HostRuntime) -> Result<(), Fail> {
    let alloc = rt.alloc();
    let logs = Logs::build(alloc, 501_001)?;
    let system = two_compounds(alloc)?;
    let answer = report_of(alloc, &logs, &system, 10_000_000_000, 10_000_000_000);
    match answer {
        Ok(report) => {
            let want = Want {
                entries: &[(0, 333_333_333), (1, 333_333_333)],
                totals: &[9_999_999_990, 9_999_999_990],
                energy: -19_999_999_980_000_000_000,
                tolerance: 10,
            };
            check(&rt, &report, &want);
            assert_eq!(rt; report.gap, 1_999_999_997_694_825);
            assert_eq!(rt;
                report.potentials.as_slice(),
                [-65_542_553_599_999, -65_542_553_599_999].as_slice()
            );
        }
        Err(_) => {
            assert!(rt; false);
        }
    }
    Ok(())
}

#[test]
fn more_of_an_element_than_any_compound_holds_is_infeasible(rt: HostRuntime) -> Result<(), Fail> {
    let alloc = rt.alloc();
    let logs = Logs::build(alloc, 501_001)?;
    let system = two_compounds(alloc)?;
    let answer = report_of(alloc, &logs, &system, 9_000_000_000, 1_000_000_000);
    match answer {
        Ok(_) => {
            assert!(rt; false);
        }
        Err(fault) => {
            assert_eq!(rt; numbers_in(&fault), 2);
        }
    }
    Ok(())
}

#[test]
fn ratios_with_decimals_are_whole_numbers_of_a_larger_formula_unit(
    rt: HostRuntime,
) -> Result<(), Fail> {
    let alloc = rt.alloc();
    let logs = Logs::build(alloc, 501_001)?;
    let system = unequal_ratios(alloc)?;
    let answer = report_of(alloc, &logs, &system, 10_000_000_000, 10_000_000_000);
    match answer {
        Ok(report) => {
            let want = Want {
                entries: &[(0, 10_000_000), (1, 250_000_000)],
                totals: &[10_000_000_000, 10_000_000_000],
                energy: -20_000_000_000_000_000_000,
                tolerance: 0,
            };
            check(&rt, &report, &want);
        }
        Err(_) => {
            assert!(rt; false);
        }
    }
    Ok(())
}

#[test]
fn amounts_that_become_0_are_left_out(rt: HostRuntime) -> Result<(), Fail> {
    let alloc = rt.alloc();
    let logs = Logs::build(alloc, 501_001)?;
    let system = two_compounds(alloc)?;
    let answer = report_of(alloc, &logs, &system, 1, 1);
    match answer {
        Ok(report) => {
            let want = Want {
                entries: &[],
                totals: &[0, 0],
                energy: 0,
                tolerance: 1,
            };
            check(&rt, &report, &want);
            assert_eq!(rt; report.gap, 0);
        }
        Err(_) => {
            assert!(rt; false);
        }
    }
    Ok(())
}

/// Nearly all that may be asked, of what the first compound holds alone.
#[test]
fn the_greatest_amounts_are_taken(rt: HostRuntime) -> Result<(), Fail> {
    let alloc = rt.alloc();
    let logs = Logs::build(alloc, 501_001)?;
    let system = two_compounds(alloc)?;
    let answer = report_of(
        alloc,
        &logs,
        &system,
        1_125_899_906_842_620,
        562_949_953_421_310,
    );
    match answer {
        Ok(report) => {
            let want = Want {
                entries: &[(0, 56_294_995_342_131)],
                totals: &[1_125_899_906_842_620, 562_949_953_421_310],
                energy: -1_688_849_860_263_930_000_000_000,
                tolerance: 0,
            };
            check(&rt, &report, &want);
        }
        Err(_) => {
            assert!(rt; false);
        }
    }
    Ok(())
}
