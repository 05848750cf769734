ghost use Rattle.std.specs.Prelude.{◌≡◌, ◌<◌, ◌≤◌, ◌-◌, ◌⊎◌, ◌++◌, ◌∷◌, [], Some, Ok, OnOk, OnErr, IfOk, IsErr, is_err, if◌then◌else◌, Contains, min, take, length, vec_len, vec_capacity};
ghost use Rattle.cal_base.specs.Outside.{Rose, Appends, next_count};

use crate::fault::Failed;
use crate::outside::Sink;
use std::alloc::{AllocError, Global};
use std::marker::Model;

/// A sink in memory. It takes at most `room` bytes of a put and `most` in all. The calls of `put` are numbered from 1,
/// up to the last number of a `u64`. A call fails where its number was named, or where `most` bytes are taken.
#[derive(Drop)]
pub struct MemorySink {
    room: usize,
    most: usize,
    taken: Vec<u8>,
    failing: Vec<u64>,
    calls: u64,
    faults: u64,
}

impl Model for MemorySink {
    ghost use Rattle.std.specs.Prelude.{◌<◌, ◌≤◌, vec_len, vec_capacity};
    ghost use Rattle.cal_base.specs.InMemory.{SinkState};

    ghost Value = { SinkState };

    ghost view = { λ s. record { room = s.room; most = s.most; taken = s.taken.items; failing = s.failing.items; calls = s.calls; faults = s.faults } };

    ghost invariant = { λ s. (0 < s.room) × (vec_len s.taken ≤ s.most) × (s.most ≤ vec_capacity s.taken) };
}

impl MemorySink {
    /// An empty sink, with memory for all that it can take.
    pub fn new(alloc: Global, room: usize, most: usize) -> Result<MemorySink, AllocError>
        requires { 0 < room }
        ensures { IfOk result (λ s. s ≡ record { room = room; most = most; taken = []; failing = []; calls = 0; faults = 0 }) }
    {
        Ok(MemorySink {
            room,
            most,
            taken: Vec::with_capacity(alloc, most)?,
            failing: Vec::new(alloc),
            calls: 0,
            faults: 0,
        })
    }

    /// The bytes that were taken.
    pub fn written(&self) -> &[u8]
        ensures { result.now ≡ self.now.taken }
    {
        self.taken.as_slice()
    }

    /// Names the number of a put that fails.
    pub fn fail_at(&mut self, call: u64) -> Result<(), AllocError>
        ensures ok { OnOk result (self.new ≡ record self.old { failing = self.old.failing ++ call ∷ [] }) }
        ensures err { OnErr result (self.new ≡ self.old) }
    {
        self.failing.push(call)?;
        Ok(())
    }
}

impl Sink for MemorySink {
    ghost written = { λ s. Some s.taken };

    ghost faults = { λ s. s.faults };

    fn put(&mut self, piece: &[u8]) -> Result<usize, Failed>
        requires { 0 < length piece.now }
        ensures kept { self.new ≡ record self.old { taken = self.new.taken; calls = next_count self.old.calls; faults = self.new.faults } }
        ensures failing { Contains self.old.failing self.new.calls → IsErr result }
        ensures full { self.old.most ≤ length self.old.taken → IsErr result }
        ensures takes { ¬ Contains self.old.failing self.new.calls → length self.old.taken < self.old.most → result ≡ Ok (min (min self.old.room (length piece.now)) (self.old.most - length self.old.taken)) }
        ensures count { self.new.faults ≡ (if is_err result then next_count self.old.faults else self.old.faults) }

        ensures some { IfOk result (λ n. 0 < n) }
        ensures within { IfOk result (λ n. n ≤ length piece.now) }
        ensures bytes { Appends (Some self.old.taken) (Some self.new.taken) result piece.now }
        ensures later { self.old.faults ≤ self.new.faults }
        ensures cause { OnErr result (Rose self.old.faults self.new.faults) }
    {
        self.calls = self.calls.saturating_add(1);
        let left = self.most - self.taken.len();
        if left == 0 || self.failing.contains(&self.calls) {
            self.faults = self.faults.saturating_add(1);
            return Err(Failed);
        }
        let count = self.room.min(piece.len()).min(left);
        let (front, _) = piece.split_at(count);
        match self.taken.extend_from_slice(front) {
            Ok(()) => Ok(count),
            Err(_) => unreachable!(),
        }
    }
}
