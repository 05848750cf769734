ghost use Rattle.std.specs.Prelude.{◌≡◌, ◌≤◌, None, IfOk, length};

use cal_base::{Failed, Library};
use std::fs::File;
use std::io;
use std::os::unix::fs::FileExt;
use std::rt::Files;

/// A file that was opened by its name.
#[derive(Drop)]
struct Opened {
    name: String,
    file: File,
}

/// The files of the disk, by their paths. Nothing is told of their bytes. A file is opened once and kept until another
/// name is asked for.
#[derive(Drop)]
pub struct DiskLibrary<'a, R> {
    rt: &'a R,
    opened: Option<Opened>,
    given: u64,
    faults: u64,
}

impl<'a, R: Files<File = File> + AllocGlobal> DiskLibrary<'a, R> {
    /// Each of its counts starts at 0.
    pub fn new(rt: &'a R) -> Self
        ensures given { result.given ≡ 0 }
        ensures faults { result.faults ≡ 0 }
    {
        DiskLibrary {
            rt,
            opened: None,
            given: 0,
            faults: 0,
        }
    }
}

fn open<R: Files<File = File> + AllocGlobal>(rt: &R, name: &str) -> io::Result<Opened> {
    let file = File::open(rt, name)?;
    let name = name.to_string(rt.alloc())?;
    Ok(Opened { name, file })
}

/// Reads from the file of the name, which is opened where it is not the one that is kept.
fn read<R: Files<File = File> + AllocGlobal>(
    rt: &R,
    kept: &mut Option<Opened>,
    name: &str,
    from: u64,
    buf: &mut [u8],
) -> io::Result<usize>
    ensures { IfOk result (λ n. n ≤ length buf.old) }
{
    let opened = match kept.take() {
        Some(opened) if opened.name.as_bytes() == name.as_bytes() => opened,
        _ => open(rt, name)?,
    };
    let count = opened.file.read_at(buf, from);
    *kept = Some(opened);
    count
}

impl<'a, R: Files<File = File> + AllocGlobal> Library for DiskLibrary<'a, R> {
    ghost told = { λ _. None };

    ghost given = { λ d. d.given };

    ghost faults = { λ d. d.faults };

    fn piece(&mut self, name: &str, from: u64, buf: &mut [u8]) -> Result<usize, Failed> {
        match read(self.rt, &mut self.opened, name, from, buf) {
            Ok(count) => {
                self.given = self.given.saturating_add(count as u64);
                Ok(count)
            }
            Err(_) => {
                self.faults = self.faults.saturating_add(1);
                Err(Failed)
            }
        }
    }
}
