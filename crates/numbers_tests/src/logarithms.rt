use cal_log::Logs;
use std::test::Fail;

#[test]
fn the_table_holds_the_series_and_its_linear_rule(rt: HostRuntime) -> Result<(), Fail> {
    let logs = Logs::build(rt.alloc(), 600000)?;
    let numbers = [
        logs.at(1),
        logs.at(2),
        logs.at(3),
        logs.at(10),
        logs.at(100),
        logs.at(1000),
        logs.at(100000),
        logs.at(501001),
        logs.at(600000),
    ];
    let expected = [
        0,
        693147180559937,
        1098612288668098,
        2302585092994009,
        4605170185987887,
        6907755278980781,
        11512925464881583,
        13124363375780069,
        13304684933855945,
    ];
    assert_eq!(rt; numbers, expected);
    let thousandths = [
        logs.between(0),
        logs.between(1),
        logs.between(999),
        logs.between(1000),
        logs.between(220000),
        logs.between(2220000),
        logs.between(500000000),
    ];
    let expected = [
        0,
        999500333,
        998500832749,
        999500333083,
        198850858744937,
        1169381359554108,
        6216606100793296,
    ];
    assert_eq!(rt; thousandths, expected);
    assert_eq!(rt;
        logs.at(10) / 10000,
        230258509299,
        "the first twelve digits of ln 10"
    );
    Ok(())
}
