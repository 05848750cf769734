//! Reports that are read and written again.

use eq_text::{read_report, write_report};
use std::alloc::{AllocError, Global};
use std::test::Fail;

pub(crate) const ONE_ELEMENT: &[u8] = b"equilibrium 1
temperature 100000
lattice 10
elements A
phases ALPHA BETA
asked 10000000000
entries 1
entry BETA 1000000000 10
total 10000000000
energy -1500000000000000000
tolerance 0
gap 999999999847413
potentials -9836953599999
tree ALPHA
L 0
tree BETA
L 0
end
";

const TWO_ELEMENTS: &[u8] = b"equilibrium 1
temperature 100000
lattice 10
elements A B
phases A2B AB2
asked 10000000000 10000000000
entries 2
entry A2B 333333333 10 : 10
entry AB2 333333333 10 : 10
total 9999999990 9999999990
energy -19999999980000000000
tolerance 10
gap 1999999997694825
potentials -65542553599999 -65542553599999
tree A2B
L 0 0
tree AB2
L 0 0
end
";

/// Trees with every kind of node.
const EVERY_NODE: &[u8] = b"equilibrium 1
temperature 100000
lattice 10
elements A
phases ALPHA BETA
asked 10000000000
entries 1
entry BETA 1000000000 10
total 10000000000
energy -1500000000000000000
tolerance 0
gap 999999999847413
potentials -9836953599999
tree ALPHA
A 0
tree BETA
S 0 5
S 1 2
A -7 1329227995784915872903807060280344576
E
L 12 0
end
";

#[test]
fn a_text_is_read_and_written_again(rt: HostRuntime) -> Result<(), Fail> {
    for text in [ONE_ELEMENT, TWO_ELEMENTS, EVERY_NODE] {
        assert!(rt; text.len() < 1000);
        let report = read_report(rt.alloc(), text)?;
        let written = write_report(rt.alloc(), &report)?;
        assert_eq!(rt; written.as_slice(), text);
    }
    Ok(())
}

/// The text of one element with a tree of so many splits and one more empty box, one split inside the other.
fn with_splits(alloc: Global, splits: usize) -> Result<Vec<u8>, AllocError> {
    let mut out = Vec::new(alloc);
    for line in ONE_ELEMENT.split(|byte| *byte == b'\n').take(14) {
        out.extend_from_slice(line)?;
        out.push(b'\n')?;
    }
    for _ in 0..splits {
        out.extend_from_slice(b"S 0 0\n")?;
    }
    for _ in 0..splits {
        out.extend_from_slice(b"E\n")?;
    }
    out.extend_from_slice(b"E\ntree BETA\nL 0\nend\n")?;
    Ok(out)
}

#[test]
fn a_long_text_is_read_and_written_again(rt: HostRuntime) -> Result<(), Fail> {
    // 8 KiB, and more than 1 MiB
    for splits in [1000, 140_000] {
        let text = with_splits(rt.alloc(), splits)?;
        let whole = text.len() > 8 * splits && text.len() < 1 << 28;
        assert!(rt; whole);
        let report = read_report(rt.alloc(), text.as_slice())?;
        let written = write_report(rt.alloc(), &report)?;
        assert!(rt; written.as_slice() == text.as_slice());
    }
    Ok(())
}

#[test]
fn what_is_written_is_read_as_the_report(rt: HostRuntime) -> Result<(), Fail> {
    let report = read_report(rt.alloc(), TWO_ELEMENTS)?;
    let written = write_report(rt.alloc(), &report)?;
    assert!(rt; written.len() < 1000);
    let again = read_report(rt.alloc(), written.as_slice())?;
    let lengths = [
        again.elements.len(),
        again.phases.len(),
        again.entries.len(),
        again.trees.len(),
    ];
    assert_eq!(rt; lengths, [2, 2, 2, 2]);
    let numbers = [again.energy, again.tolerance, again.gap];
    assert_eq!(rt;
        numbers,
        [-19_999_999_980_000_000_000, 10, 1_999_999_997_694_825]
    );
    Ok(())
}
