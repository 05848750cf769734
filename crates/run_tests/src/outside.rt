ghost use Rattle.std.specs.Prelude.{None, IsErrOf, IsOk};

use cal_base::{
    Failed, Library, LoadFault, MemoryLibrary, MemorySink, Sink, Status, load, write_all,
};
use std::alloc::{AllocError, Global};
use std::test::Fail;

/// Bytes that tell their places apart.
fn sample(alloc: Global, length: u16) -> Result<Vec<u8>, AllocError> {
    let mut bytes = Vec::new(alloc);
    for place in 0..length {
        bytes.push((place % 251) as u8)?;
    }
    Ok(bytes)
}

#[test]
fn a_file_is_loaded_but_for_a_failing_call_and_a_length_above_the_limit(
    rt: HostRuntime,
) -> Result<(), Fail> {
    // The name, the length of its file, the call that fails, the limit, and the answer.
    let rows: [(&str, u16, u64, u16, Result<bool, LoadFault>); 9] = [
        ("X1", 10000, 3, 20000, Err(LoadFault::Failed)),
        ("X1", 10000, 4, 20000, Err(LoadFault::Failed)),
        ("X1", 10000, 5, 20000, Ok(true)),
        ("X2", 10000, 0, 20000, Err(LoadFault::Failed)),
        ("X1", 100, 0, 100, Ok(true)),
        ("X1", 101, 0, 100, Err(LoadFault::TooLong)),
        ("X1", 4096, 3, 4096, Ok(true)),
        ("X1", 0, 0, 0, Ok(true)),
        ("X1", 1, 0, 0, Err(LoadFault::TooLong)),
    ];
    for (name, length, call, limit, answer) in rows {
        let bytes = sample(rt.alloc(), length)?;
        let mut files = MemoryLibrary::new(rt.alloc());
        files.add("X1", b"replaced")?;
        files.add("X1", bytes.as_slice())?;
        files.fail_at(call)?;
        let read = load(rt.alloc(), &mut files, name, limit as u64);
        let same = read.map(|read| read.as_slice() == bytes.as_slice());
        assert_eq!(rt;
            same,
            answer,
            "{name} of {length} bytes, call {call} fails, limit {limit}"
        );
    }
    Ok(())
}

#[test]
fn after_a_failed_put_a_front_of_the_bytes_stands(rt: HostRuntime) -> Result<(), Fail> {
    // The most bytes of the sink, the put that fails, how many bytes stand, and the answer.
    let rows: [(usize, u64, usize, Result<(), Failed>); 6] = [
        (100, 2, 16, Err(Failed)),
        (16, 0, 16, Err(Failed)),
        (100, 7, 96, Err(Failed)),
        (100, 8, 100, Ok(())),
        (99, 0, 99, Err(Failed)),
        (0, 0, 0, Err(Failed)),
    ];
    let bytes = sample(rt.alloc(), 100)?;
    for (most, call, standing, answer) in rows {
        let mut out = MemorySink::new(rt.alloc(), 16, most)?;
        out.fail_at(call)?;
        let written = write_all(&mut out, bytes.as_slice());
        assert_eq!(rt; written, answer, "at most {most} bytes, put {call} fails");
        assert_eq!(rt; Some(out.written()), bytes.get(..standing));
    }
    assert_eq!(rt; Status::Done.number(), 0);
    assert_eq!(rt; Status::Memory.number(), 9);
    Ok(())
}

/// A library whose every file is endless. It tells nothing of its files.
#[derive(Drop)]
struct Zeros {
    given: u64,
}

impl Library for Zeros {
    ghost told = { λ _. None };

    ghost given = { λ z. z.given };

    ghost faults = { λ _. 0 };

    fn piece(&mut self, _name: &str, _from: u64, buf: &mut [u8]) -> Result<usize, Failed> {
        buf[0] = 0;
        self.given = self.given.saturating_add(1);
        Ok(1)
    }
}

/// A sink that takes a byte at a time and tells nothing of them.
#[derive(Drop)]
struct Counter {
    taken: u64,
}

impl Sink for Counter {
    ghost written = { λ _. None };

    ghost faults = { λ _. 0 };

    fn put(&mut self, _piece: &[u8]) -> Result<usize, Failed> {
        self.taken = self.taken.saturating_add(1);
        Ok(1)
    }
}

/// Reading from a library whose count is constant is never answered by a failure.
fn load_zeros(alloc: Global, files: &mut Zeros, limit: u16) -> Result<Vec<u8>, LoadFault>
    ensures { IsErrOf result LoadFault.Failed → ⊥ }
{
    load(alloc, files, "X1", limit as u64)
}

/// Writing to a sink whose count is constant is never answered by a failure.
fn count_bytes(out: &mut Counter, bytes: &[u8]) -> Result<(), Failed>
    ensures { IsOk result }
{
    write_all(out, bytes)
}

#[test]
fn an_endless_file_is_read_one_byte_behind_the_limit(rt: HostRuntime) {
    let mut files = Zeros { given: 0 };
    assert_eq!(rt;
        load_zeros(rt.alloc(), &mut files, 5000).err(),
        Some(LoadFault::TooLong)
    );
    assert_eq!(rt; files.given, 5001);
    let mut out = Counter { taken: 0 };
    assert_eq!(rt; count_bytes(&mut out, b"five."), Ok(()));
    assert_eq!(rt; out.taken, 5);
}
