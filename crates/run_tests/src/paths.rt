use crate::runs::words_of;
use cal_base::{MemoryLibrary, MemorySink, Status};
use cal_top::run;
use std::alloc::{AllocError, Global};
use std::test::Fail;

/// An element that freezes at 1000 K.
const MELT: &str =
    "ELEMENT A ALPHA 10 0 0 !\nPHASE LIQUID:L % 1 1 !\nCONSTITUENT LIQUID:L :A: !\nPARAMETER G(LIQUID,A;0) 1 1000-1*T; 6000 N !\nPHASE SOLID % 1 1 !\nCONSTITUENT SOLID :A: !\nPARAMETER G(SOLID,A;0) 1 0; 6000 N !\n";

const FREEZE: &str =
    "scheil --db X1 --t 1001.5 --amounts A=1 --lattice 10 --gap 0.1 --budget 0 --step 1 --end 990 --stop 0 --liquid LIQUID";

const CHECK: &str = "check --db X1 --report R";

const TABLE: &str = "table --report R";

/// The path of a mol of A from 1001.5 K in steps of 1 K: its head with the first step, the second step, the third, the finish.
const PATH: [&str; 4] = [
    "path 1\nliquid LIQUID\ndescent 100\nfloor 99000\nstop 0\nstep 1\nequilibrium 1\ntemperature 100150\nlattice 10\nelements A\nphases LIQUID SOLID\nasked 10000000000\nentries 1\nentry LIQUID 1000000000 10\ntotal 10000000000\nenergy -1500000000000000\ntolerance 0\ngap 99999999847413\npotentials -10485759999\ntree LIQUID\nL 0\ntree SOLID\nL 0\nend\nleft 10000000000\n",
    "step 2\nequilibrium 1\ntemperature 100050\nlattice 10\nelements A\nphases LIQUID SOLID\nasked 10000000000\nentries 1\nentry LIQUID 1000000000 10\ntotal 10000000000\nenergy -500000000000000\ntolerance 0\ngap 99999999847413\npotentials -3932159999\ntree LIQUID\nL 0\ntree SOLID\nL 0\nend\nleft 10000000000\n",
    "step 3\nequilibrium 1\ntemperature 99950\nlattice 10\nelements A\nphases LIQUID SOLID\nasked 10000000000\nentries 1\nentry SOLID 1000000000 10\ntotal 10000000000\nenergy 0\ntolerance 0\ngap 99999999847413\npotentials -655359999\ntree LIQUID\nL 0\ntree SOLID\nL 0\nend\nleft 0\n",
    "finish no-liquid\nsolids 10000000000\nremains 0\nlost 0\n",
];

/// The first parts of the path.
fn front(alloc: Global, parts: usize) -> Result<Vec<u8>, AllocError> {
    let mut bytes = Vec::new(alloc);
    for part in PATH.iter().take(parts) {
        bytes.extend_from_slice(part.as_bytes())?;
    }
    Ok(bytes)
}

/// The melt, and the path as the report.
fn files(alloc: Global) -> Result<MemoryLibrary, AllocError> {
    let path = front(alloc, 4)?;
    let mut files = MemoryLibrary::new(alloc);
    files.add("X1", MELT.as_bytes())?;
    files.add("R", path.as_slice())?;
    Ok(files)
}

/// Whether a run of which one put fails ends so, behind just these bytes.
fn leaves(
    alloc: Global,
    line: &str,
    put: u64,
    printed: &[u8],
    status: Status,
) -> Result<bool, AllocError> {
    let words = words_of(alloc, line)?;
    let mut files = files(alloc)?;
    let mut out = MemorySink::new(alloc, 4096, 8192)?;
    out.fail_at(put)?;
    let ended = run(alloc, words.as_slice(), &mut files, &mut out);
    Ok(ended == status && out.written() == printed)
}

/// Whether a run of which one call to the files fails ends so, behind just these bytes.
fn reads(
    alloc: Global,
    line: &str,
    call: u64,
    printed: &[u8],
    status: Status,
) -> Result<bool, AllocError> {
    let words = words_of(alloc, line)?;
    let mut files = files(alloc)?;
    files.fail_at(call)?;
    let mut out = MemorySink::new(alloc, 4096, 8192)?;
    let ended = run(alloc, words.as_slice(), &mut files, &mut out);
    Ok(ended == status && out.written() == printed)
}

#[test]
fn each_part_of_a_path_is_written_by_itself(rt: HostRuntime) -> Result<(), Fail> {
    let alloc = rt.alloc();
    // The put that fails, how many parts stand before it, and the status.
    let rows: [(u64, usize, Status); 5] = [
        (1, 0, Status::WriteFault),
        (2, 1, Status::WriteFault),
        (3, 2, Status::WriteFault),
        (4, 3, Status::WriteFault),
        (5, 4, Status::Done),
    ];
    for (put, parts, status) in rows {
        let printed = front(alloc, parts)?;
        assert!(rt;
            leaves(alloc, FREEZE, put, printed.as_slice(), status)?,
            "put {put} fails"
        );
    }
    Ok(())
}

#[test]
fn what_is_printed_of_a_document_is_written_at_once(rt: HostRuntime) -> Result<(), Fail> {
    let alloc = rt.alloc();
    // The words, and what is printed where no put fails.
    let rows: [(&str, &str); 2] = [
        (CHECK, "accepted 3\n"),
        (
            TABLE,
            "step,temperature,phase,amount,constitution\n1,1001.50,LIQUID,1000000000,10\n2,1000.50,LIQUID,1000000000,10\n3,999.50,SOLID,1000000000,10\n",
        ),
    ];
    for (line, printed) in rows {
        assert!(rt; leaves(alloc, line, 1, b"", Status::WriteFault)?, "{line}");
        assert!(rt;
            leaves(alloc, line, 2, printed.as_bytes(), Status::Done)?,
            "{line}"
        );
    }
    Ok(())
}

#[test]
fn each_file_is_read_by_two_calls_and_none_is_passed_over(rt: HostRuntime) -> Result<(), Fail> {
    let alloc = rt.alloc();
    // The words, and the call that fails.
    let refused: [(&str, u64); 6] = [
        (FREEZE, 1),
        (FREEZE, 2),
        (CHECK, 1),
        (CHECK, 2),
        (CHECK, 3),
        (CHECK, 4),
    ];
    for (line, call) in refused {
        let same = reads(alloc, line, call, b"refused read\n", Status::ReadFault)?;
        assert!(rt; same, "{line}, call {call} fails");
    }
    let path = front(alloc, 4)?;
    assert!(rt; reads(alloc, FREEZE, 3, path.as_slice(), Status::Done)?);
    assert!(rt; reads(alloc, CHECK, 5, b"accepted 3\n", Status::Done)?);
    Ok(())
}

/// The status of a check of the path without its last byte.
fn check_without_the_last_byte(alloc: Global, out: &mut MemorySink) -> Result<Status, AllocError> {
    let mut path = front(alloc, 4)?;
    path.pop();
    let mut files = MemoryLibrary::new(alloc);
    files.add("X1", MELT.as_bytes())?;
    files.add("R", path.as_slice())?;
    let words = words_of(alloc, CHECK)?;
    Ok(run(alloc, words.as_slice(), &mut files, out))
}

#[test]
fn a_last_line_without_a_line_feed_is_a_fault(rt: HostRuntime) -> Result<(), Fail> {
    let mut out = MemorySink::new(rt.alloc(), 4096, 8192)?;
    let status = check_without_the_last_byte(rt.alloc(), &mut out)?;
    assert_eq!(rt; status, Status::Rejected);
    assert_eq!(rt;
        str::from_utf8(out.written())?,
        "refused report line 69 rule text\n"
    );
    Ok(())
}
