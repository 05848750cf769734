//! The tables of documents.

use crate::example::{MOST, PAIR, whole, with_line};
use cal_table::table;
use path_text::read_document;
use std::alloc::Global;
use std::test::Fail;

fn table_of(alloc: Global, text: &[u8]) -> Result<Vec<u8>, Fail> {
    if text.len() > MOST {
        return Ok(Vec::new(alloc));
    }
    let document = read_document(alloc, text)?;
    let table = table(alloc, &document)?;
    Ok(table)
}

#[test]
fn a_path_has_a_record_for_each_entry_of_each_step(rt: HostRuntime) -> Result<(), Fail> {
    let path = whole(rt.alloc())?;
    let table = table_of(rt.alloc(), path.as_slice())?;
    let wanted: &[u8] = b"step,temperature,phase,amount,constitution
1,1001.50,LIQUID,1000000000,10
2,1000.50,LIQUID,1000000000,10
3,999.50,SOLID,1000000000,10
";
    assert_eq!(rt; table.as_slice(), wanted);
    Ok(())
}

#[test]
fn a_step_has_the_number_of_its_line(rt: HostRuntime) -> Result<(), Fail> {
    let path = whole(rt.alloc())?;
    let text = with_line(rt.alloc(), path.as_slice(), 26, b"step 10000")?;
    let table = table_of(rt.alloc(), text.as_slice())?;
    let wanted: &[u8] = b"step,temperature,phase,amount,constitution
1,1001.50,LIQUID,1000000000,10
10000,1000.50,LIQUID,1000000000,10
3,999.50,SOLID,1000000000,10
";
    assert_eq!(rt; table.as_slice(), wanted);
    Ok(())
}

#[test]
fn a_report_is_step_1_and_its_sublattices_are_spelled_as_there(
    rt: HostRuntime,
) -> Result<(), Fail> {
    let table = table_of(rt.alloc(), PAIR)?;
    let wanted: &[u8] = b"step,temperature,phase,amount,constitution
1,1000.00,A2B,7,100 : 100
1,1000.00,AB_2,8,30 70 : 100
1,1000.00,AB_2,1125899906842624,31 69 : 0
";
    assert_eq!(rt; table.as_slice(), wanted);
    Ok(())
}

#[test]
fn a_temperature_has_two_decimals(rt: HostRuntime) -> Result<(), Fail> {
    let rows: [(&[u8], &[u8]); 5] = [
        (b"temperature 100", b"1,1.00,A2B,7,100 : 100"),
        (b"temperature 101", b"1,1.01,A2B,7,100 : 100"),
        (b"temperature 29815", b"1,298.15,A2B,7,100 : 100"),
        (b"temperature 99990", b"1,999.90,A2B,7,100 : 100"),
        (b"temperature 600000", b"1,6000.00,A2B,7,100 : 100"),
    ];
    for (line, wanted) in rows {
        let text = with_line(rt.alloc(), PAIR, 2, line)?;
        let table = table_of(rt.alloc(), text.as_slice())?;
        let record = table.as_slice().split(|byte| *byte == b'\n').nth(1);
        assert_eq!(rt; record.ok_or("no record")?, wanted);
    }
    Ok(())
}

#[test]
fn a_report_without_entries_has_the_names_alone(rt: HostRuntime) -> Result<(), Fail> {
    let text: &[u8] = b"equilibrium 1
temperature 100000
lattice 10
elements A
phases ALPHA
asked 0
entries 0
total 0
energy 0
tolerance 0
gap 0
potentials 0
tree ALPHA
L 0
end
";
    let table = table_of(rt.alloc(), text)?;
    assert_eq!(rt;
        table.as_slice(),
        b"step,temperature,phase,amount,constitution\n".as_slice()
    );
    Ok(())
}
