use cal_base::{LoadFault, Sink, load};
use cal_fs::{DiskLibrary, OutSink};
use std::fmt::Display;
use std::test::Fail;
use std::{fs, io};

#[test]
fn a_file_of_three_pieces_is_read_back_and_a_missing_one_is_not(
    rt: HostRuntime,
) -> Result<(), Fail> {
    let mut bytes = Vec::new(rt.alloc());
    for place in 0..9000u16 {
        bytes.push((place % 251) as u8)?;
    }
    fs::write(&rt, "three-pieces", bytes.as_slice())?;
    fs::write(&rt, "other", "other")?;
    let mut files = DiskLibrary::new(&rt);
    // The name, and whether its file has these bytes, or why not.
    let rows: [(&str, Result<bool, LoadFault>); 5] = [
        ("three-pieces", Ok(true)),
        ("other", Ok(false)),
        ("missing", Err(LoadFault::Failed)),
        ("three-pieces", Ok(true)),
        ("", Err(LoadFault::Failed)),
    ];
    for (name, answer) in rows {
        let read = load(rt.alloc(), &mut files, name, 16384);
        let same = read.map(|read| read.as_slice() == bytes.as_slice());
        assert_eq!(rt; same, answer, "{name}");
    }
    fs::remove_file(&rt, "three-pieces")?;
    fs::remove_file(&rt, "other")?;
    Ok(())
}

/// An output that takes so many bytes at a time.
#[derive(Drop)]
struct Narrow {
    width: usize,
}

impl Print for Narrow {
    fn print<D: Display + Drop>(&self, _value: D) -> io::Result<()> {
        Ok(())
    }

    fn println<D: Display + Drop>(&self, _value: D) -> io::Result<()> {
        Ok(())
    }

    fn write_all(&self, _bytes: &[u8]) -> io::Result<()> {
        Ok(())
    }

    fn write_some(&self, bytes: &[u8]) -> io::Result<usize> {
        Ok(self.width.min(bytes.len()))
    }
}

#[test]
fn a_short_write_takes_what_was_written_and_none_is_a_fault(rt: HostRuntime) {
    // The bytes that the output takes at once, and the answer to seven.
    let rows: [(usize, Option<usize>); 4] = [(0, None), (1, Some(1)), (6, Some(6)), (9, Some(7))];
    for (width, taken) in rows {
        let narrow = Narrow { width };
        let mut out = OutSink::new(&narrow);
        assert_eq!(rt; out.put(b"seven..").ok(), taken, "{width}");
    }
}
