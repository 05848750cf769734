ghost use Rattle.std.specs.Prelude.{None};

use cal_base::{Failed, Library, MemoryLibrary, MemorySink, Sink, Status};
use cal_top::run;
use std::alloc::{AllocError, Global};
use std::test::Fail;

const DATABASE: &str =
    "ELEMENT VA VACUUM 0 0 0 !\nELEMENT A ALPHA 10 0 0 !\nPHASE ALPHA % 1 1 !\nCONSTITUENT ALPHA :A: !\nPARAMETER G(ALPHA,A;0) 1 -1000; 6000 N !\nPHASE BETA % 1 1 !\nCONSTITUENT BETA :A: !\nPARAMETER G(BETA,A;0) 1 -500-1*T; 6000 N !\n";

const AT_1000: &str = "equilibrium --db X1 --t 1000 --amounts A=1 --lattice 10 --gap 1 --budget 0";

const AT_OTHER: &str = "equilibrium --db X2 --t 1000 --amounts A=1 --lattice 10 --gap 1 --budget 0";

const AT_500: &str = "equilibrium --budget 0 --gap 1 --lattice 10 --amounts A=1 --t 500 --db X1";

const REPORT: &str =
    "equilibrium 1\ntemperature 100000\nlattice 10\nelements A\nphases ALPHA BETA\nasked 10000000000\nentries 1\nentry BETA 1000000000 10\ntotal 10000000000\nenergy -1500000000000000000\ntolerance 0\ngap 999999999847413\npotentials -9836953599999\ntree ALPHA\nL 0\ntree BETA\nL 0\nend\n";

/// The words of a line.
pub fn words_of(alloc: Global, line: &str) -> Result<Vec<String>, AllocError> {
    let mut words = Vec::new(alloc);
    for word in line.split(' ') {
        words.push(String::from_str(alloc, word)?)?;
    }
    Ok(words)
}

/// The status of a run over a file of this text.
fn run_over(
    alloc: Global,
    line: &str,
    text: &str,
    out: &mut MemorySink,
) -> Result<Status, AllocError> {
    let mut files = MemoryLibrary::new(alloc);
    files.add("X1", text.as_bytes())?;
    let words = words_of(alloc, line)?;
    Ok(run(alloc, words.as_slice(), &mut files, out))
}

/// Whether a run ends so, with just this text.
fn gives(
    alloc: Global,
    line: &str,
    text: &str,
    printed: &str,
    status: Status,
) -> Result<bool, AllocError> {
    let mut out = MemorySink::new(alloc, 4096, 8192)?;
    let ended = run_over(alloc, line, text, &mut out)?;
    Ok(ended == status && out.written() == printed.as_bytes())
}

#[test]
fn the_phase_of_least_energy_is_printed_with_its_certificate(rt: HostRuntime) -> Result<(), Fail> {
    assert!(rt; gives(rt.alloc(), AT_1000, DATABASE, REPORT, Status::Done)?);
    Ok(())
}

/// Whether a report of both phases at the same energy has the entry of one and that energy.
fn is_of_one_phase(text: &str) -> bool {
    text.contains("\nentries 1\nentry ")
        && text.contains(" 1000000000 10\ntotal 10000000000\nenergy -1000000000000000000\n")
}

#[test]
fn of_two_phases_of_one_energy_either_is_printed(rt: HostRuntime) -> Result<(), Fail> {
    let mut out = MemorySink::new(rt.alloc(), 4096, 8192)?;
    assert_eq!(rt;
        run_over(rt.alloc(), AT_500, DATABASE, &mut out)?,
        Status::Done
    );
    let text = str::from_utf8(out.written())?;
    assert!(rt; is_of_one_phase(text));
    Ok(())
}

#[test]
fn each_refusal_has_its_line_and_status(rt: HostRuntime) -> Result<(), Fail> {
    let alloc = rt.alloc();
    // The words, the text of the database, what is printed, and the status.
    let rows: [(&str, &str, &str, Status); 6] = [
        ("equilibrium", "", "refused usage\n", Status::Usage),
        (
            AT_1000,
            "",
            "refused system unknown-element A\n",
            Status::BadSystem,
        ),
        (
            AT_1000,
            "ELEMENT A X !",
            "refused system no-phase\n",
            Status::BadSystem,
        ),
        (
            AT_1000,
            "ELEMENT A X !\nX !",
            "refused database line 2 rule word\n",
            Status::BadDatabase,
        ),
        (
            AT_1000,
            "\nPHASE A % 1 1",
            "refused database line 2 rule unfinished\n",
            Status::BadDatabase,
        ),
        (AT_OTHER, "", "refused read\n", Status::ReadFault),
    ];
    for (line, text, printed, status) in rows {
        assert!(rt; gives(alloc, line, text, printed, status)?);
    }
    Ok(())
}

/// Two compounds of two elements, of which the asked totals have more of the first than either holds.
const COMPOUNDS: &str =
    "ELEMENT A X 1 0 0 !\nELEMENT B X 1 0 0 !\nPHASE A2B % 2 2 1 !\nCONSTITUENT A2B :A:B: !\nPARAMETER G(A2B,A:B;0) 1 -30000; 6000 N !\nPHASE AB2 % 2 1 2 !\nCONSTITUENT AB2 :A:B: !\nPARAMETER G(AB2,A:B;0) 1 -30000; 6000 N !\n";

const TOO_RICH: &str =
    "equilibrium --db X1 --t 1000 --amounts A=0.9,B=0.1 --lattice 10 --gap 1 --budget 0";

#[test]
fn totals_outside_of_all_compounds_are_infeasible(rt: HostRuntime) -> Result<(), Fail> {
    let mut out = MemorySink::new(rt.alloc(), 4096, 8192)?;
    assert_eq!(rt;
        run_over(rt.alloc(), TOO_RICH, COMPOUNDS, &mut out)?,
        Status::BadSystem
    );
    let text = str::from_utf8(out.written())?;
    assert!(rt; text.starts_with("refused system infeasible "));
    Ok(())
}

/// Two compounds, one of them written in ratios of two decimals.
const TWO_RATIOS: &str =
    "ELEMENT A X 1 0 0 !\nELEMENT B X 1 0 0 !\nPHASE LO % 2 .75 .25 !\nCONSTITUENT LO :A:B: !\nPARAMETER G(LO,A:B;0) 1 -10000; 6000 N !\nPHASE HI % 2 1 3 !\nCONSTITUENT HI :A:B: !\nPARAMETER G(HI,A:B;0) 1 -40000; 6000 N !\n";

const BOTH: &str = "equilibrium --db X1 --t 1000 --amounts A=1,B=1 --lattice 10 --gap 1 --budget 0";

/// Whether a report has the two entries, in formula units of their own ratios, and meets the totals.
fn is_of_two_ratios(text: &str) -> bool {
    text.contains("\nentry LO 10000000 10 : 10\nentry HI 250000000 10 : 10\n")
        && text.contains(
            "\ntotal 10000000000 10000000000\nenergy -20000000000000000000\ntolerance 0\n",
        )
}

#[test]
fn ratios_of_two_decimals_make_a_formula_unit_of_a_hundred(rt: HostRuntime) -> Result<(), Fail> {
    let mut out = MemorySink::new(rt.alloc(), 4096, 8192)?;
    assert_eq!(rt;
        run_over(rt.alloc(), BOTH, TWO_RATIOS, &mut out)?,
        Status::Done
    );
    let text = str::from_utf8(out.written())?;
    assert!(rt; is_of_two_ratios(text));
    Ok(())
}

/// Whether a failing put, or a full sink, leaves the first 16 bytes of a report.
fn leaves_a_front(alloc: Global, call: u64, most: usize) -> Result<bool, AllocError> {
    let mut out = MemorySink::new(alloc, 16, most)?;
    out.fail_at(call)?;
    let ended = run_over(alloc, AT_1000, DATABASE, &mut out)?;
    Ok(ended == Status::WriteFault && out.written() == b"equilibrium 1\nte".as_slice())
}

/// Whether a run over a file of spaces, of which one piece fails, ends so.
fn gives_over_spaces(
    alloc: Global,
    length: usize,
    call: u64,
    printed: &str,
    status: Status,
) -> Result<bool, AllocError> {
    let spaces = vec![in alloc; b' '; length]?;
    let mut files = MemoryLibrary::new(alloc);
    files.add("X1", spaces.as_slice())?;
    files.fail_at(call)?;
    let words = words_of(alloc, AT_1000)?;
    let mut out = MemorySink::new(alloc, 4096, 4096)?;
    let ended = run(alloc, words.as_slice(), &mut files, &mut out);
    Ok(ended == status && out.written() == printed.as_bytes())
}

#[test]
fn faults_of_the_outside_end_a_run_at_their_place(rt: HostRuntime) -> Result<(), Fail> {
    let alloc = rt.alloc();
    assert!(rt; leaves_a_front(alloc, 2, 16777216)?);
    assert!(rt; leaves_a_front(alloc, 0, 16)?);
    assert!(rt; gives_over_spaces(alloc, 10000, 3, "refused read\n", Status::ReadFault)?);
    let unknown = "refused system unknown-element A\n";
    assert!(rt; gives_over_spaces(alloc, 16777216, 0, unknown, Status::BadSystem)?);
    assert!(rt; gives_over_spaces(alloc, 16777217, 0, "refused long\n", Status::TooLong)?);
    Ok(())
}

/// Files that can't be read, and a sink that takes nothing.
#[derive(Drop)]
struct Broken {
    faults: u64,
}

impl Library for Broken {
    ghost told = { λ _. None };

    ghost given = { λ _. 0 };

    ghost faults = { λ b. b.faults };

    fn piece(&mut self, _name: &str, _from: u64, _buf: &mut [u8]) -> Result<usize, Failed> {
        self.faults = self.faults.saturating_add(1);
        Err(Failed)
    }
}

impl Sink for Broken {
    ghost written = { λ _. None };

    ghost faults = { λ b. b.faults };

    fn put(&mut self, _piece: &[u8]) -> Result<usize, Failed> {
        self.faults = self.faults.saturating_add(1);
        Err(Failed)
    }
}

#[test]
fn a_run_over_a_broken_outside_calls_it_once(rt: HostRuntime) -> Result<(), Fail> {
    let words = words_of(rt.alloc(), AT_1000)?;
    let mut files = Broken { faults: 0 };
    let mut out = Broken { faults: 0 };
    assert_eq!(rt;
        run(rt.alloc(), words.as_slice(), &mut files, &mut out),
        Status::WriteFault
    );
    assert_eq!(rt; files.faults, 1);
    assert_eq!(rt; out.faults, 1);
    Ok(())
}
