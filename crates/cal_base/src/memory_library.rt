ghost use Rattle.std.specs.Prelude.{◌≡◌, ◌<◌, ◌≤◌, ◌+◌, ◌-◌, ◌⊎◌, ◌++◌, ◌∷◌, [], List, ℕ, Some, None, Ok, Err, OnOk, OnErr, IfOk, IsErr, IsErrOf, IsSome, IfSome, Contains, min, length, find, position, bytes_eq, cond};
ghost use Rattle.std.specs.Option.{option_copied, MatchOption};
ghost use Rattle.cal_base.specs.Outside.{Reads, TellsFile, LacksFile, Rose, RaisedBy, next_count};
ghost use Rattle.cal_base.specs.InMemory.{LibraryState, file_of};

use crate::fault::Failed;
use crate::outside::Library;
use std::alloc::{AllocError, Global};
use std::marker::Model;

/// A name and its bytes.
#[derive(Drop)]
struct File {
    name: Vec<u8>,
    bytes: Vec<u8>,
}

impl Model for File {
    ghost use Rattle.std.specs.Prelude.{List, ℕ};

    ghost Value = { List ℕ × List ℕ };

    ghost view = { λ f. (f.name.items, f.bytes.items) };
}

impl File {
    fn new(alloc: Global, name: &str, bytes: &[u8]) -> Result<File, AllocError>
        ensures { IfOk result (λ f. f ≡ (name.now, bytes.now)) }
    {
        Ok(File {
            name: Vec::from_slice(alloc, name.as_bytes())?,
            bytes: Vec::from_slice(alloc, bytes)?,
        })
    }

    fn is_named(&self, name: &str) -> bool
        ensures { result ≡ bytes_eq self.now.0 name.now }
    {
        self.name.as_slice() == name.as_bytes()
    }
}

/// Files in memory. The calls of `piece` are numbered from 1, up to the last number of a `u64`. A call fails where its
/// number was named, or where there is no file of the name.
#[derive(Drop)]
pub struct MemoryLibrary {
    files: Vec<File>,
    failing: Vec<u64>,
    calls: u64,
    given: u64,
    faults: u64,
}

impl Model for MemoryLibrary {
    ghost use Rattle.cal_base.specs.InMemory.{LibraryState};

    ghost Value = { LibraryState };

    ghost view = { λ m. record { files = m.files.items; failing = m.failing.items; calls = m.calls; given = m.given; faults = m.faults } };
}

impl MemoryLibrary {
    /// A library without files.
    pub fn new(alloc: Global) -> MemoryLibrary
        ensures { result ≡ record { files = []; failing = []; calls = 0; given = 0; faults = 0 } }
    {
        MemoryLibrary {
            files: Vec::new(alloc),
            failing: Vec::new(alloc),
            calls: 0,
            given: 0,
            faults: 0,
        }
    }

    /// Adds a file. One of this name before is replaced.
    #[tactic(auto, using(crate::proofs::Files::files))]
    pub fn add(&mut self, name: &str, bytes: &[u8]) -> Result<(), AllocError>
        ensures ok { OnOk result ((other : List ℕ) → file_of self.new.files other ≡ cond (bytes_eq name.now other) (Some bytes.now) (file_of self.old.files other)) }
        ensures kept { self.new ≡ record self.old { files = self.new.files } }
        ensures err { OnErr result (self.new ≡ self.old) }
    {
        let file = File::new(*self.files.allocator(), name, bytes)?;
        let place = place_of(self.files.as_slice(), name);
        match place {
            Some(at) => self.files[at] = file,
            None => self.files.push(file)?,
        }
        Ok(())
    }

    /// Names the number of a call that fails.
    pub fn fail_at(&mut self, call: u64) -> Result<(), AllocError>
        ensures ok { OnOk result (self.new ≡ record self.old { failing = self.old.failing ++ call ∷ [] }) }
        ensures err { OnErr result (self.new ≡ self.old) }
    {
        self.failing.push(call)?;
        Ok(())
    }
}

/// Where the file of a name stands.
fn place_of(files: &[File], name: &str) -> Option<usize>
    ensures { result ≡ position (λ f. bytes_eq f.0 name.now) files.now }
{
    files.iter().position(|f| f.is_named(name))
}

fn find_file<'a>(files: &'a [File], name: &str) -> Option<&'a File>
    ensures { option_copied result ≡ find (λ f. bytes_eq f.0 name.now) files.now }
{
    files.iter().find(|f| f.is_named(name))
}

/// The bytes of the file of a name.
#[tactic(auto, using(crate::proofs::Files::files))]
fn bytes_of<'a>(files: &'a [File], name: &str) -> Option<&'a [u8]>
    ensures { MatchOption result (file_of files.now name.now ≡ None) (λ bytes. file_of files.now name.now ≡ Some bytes.now) }
{
    match find_file(files, name) {
        None => None,
        Some(file) => Some(file.bytes.as_slice()),
    }
}

/// Copies as many bytes from a place on as there is room for, and says how many.
fn copy_from(bytes: &[u8], from: u64, buf: &mut [u8]) -> usize
    requires { 0 < length buf.old }
    ensures most { result ≡ min (length buf.old) (length bytes.now - from) }
    ensures read { Reads bytes.now from result buf.new }
{
    if from >= bytes.len() as u64 {
        return 0;
    }
    let (_, rest) = bytes.split_at(from as usize);
    let count = rest.len().min(buf.len());
    let (front, _) = rest.split_at(count);
    let (room, _) = buf.split_at_mut(count);
    room.copy_from_slice(front);
    count
}

impl Library for MemoryLibrary {
    ghost told = { λ m. Some (file_of m.files) };

    ghost given = { λ m. m.given };

    ghost faults = { λ m. m.faults };

    fn piece(&mut self, name: &str, from: u64, buf: &mut [u8]) -> Result<usize, Failed>
        requires { 0 < length buf.old }
        ensures kept { self.new ≡ record self.old { calls = next_count self.old.calls; given = self.new.given; faults = self.new.faults } }
        ensures unknown { file_of self.old.files name.now ≡ None → IsErr result × (self.new.faults ≡ self.old.faults) }
        ensures failing { IsSome (file_of self.old.files name.now) → Contains self.old.failing self.new.calls → IsErr result × (self.new.faults ≡ next_count self.old.faults) }
        ensures read { (bytes : List ℕ) → file_of self.old.files name.now ≡ Some bytes → ¬ Contains self.old.failing self.new.calls → (result ≡ Ok (min (length buf.old) (length bytes - from))) × (self.new.faults ≡ self.old.faults) }

        ensures told { Some (file_of self.new.files) ≡ Some (file_of self.old.files) }
        ensures within { IfOk result (λ n. n ≤ length buf.old) }
        ensures bytes { IfOk result (λ n. (bytes : List ℕ) → TellsFile (Some (file_of self.old.files)) name.now bytes → Reads bytes from n buf.new) }
        ensures given { RaisedBy self.old.given self.new.given result }
        ensures later { self.old.faults ≤ self.new.faults }
        ensures lacks { LacksFile (Some (file_of self.old.files)) name.now → IsErr result × (self.new.faults ≡ self.old.faults) }
        ensures cause { OnErr result (Rose self.old.faults self.new.faults ⊎ LacksFile (Some (file_of self.old.files)) name.now) }
    {
        self.calls = self.calls.saturating_add(1);
        let failing = self.failing.contains(&self.calls);
        match bytes_of(self.files.as_slice(), name) {
            None => Err(Failed),
            Some(_) if failing => {
                self.faults = self.faults.saturating_add(1);
                Err(Failed)
            }
            Some(bytes) => {
                let count = copy_from(bytes, from, buf);
                self.given = self.given.saturating_add(count as u64);
                Ok(count)
            }
        }
    }
}
