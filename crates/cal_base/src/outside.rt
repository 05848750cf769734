ghost use Rattle.std.specs.Prelude.{◌≡◌, ◌<◌, ◌≤◌, ◌⊎◌, List, ℕ, length, Option, OnErr, IfOk, IsErr};
ghost use Rattle.cal_base.specs.Outside.{Files, TellsFile, LacksFile, Reads, Rose, RaisedBy, Appends};

use crate::fault::Failed;

/// Named files.
pub trait Library {
    /// The bytes of each file, where the library tells them.
    ghost told: { Self → Option Files };

    /// How many bytes were given, up to the last number of a `u64`.
    ghost given: { Self → ℕ };

    /// How often reading failed, up to the last number of a `u64`.
    ghost faults: { Self → ℕ };

    /// Reads bytes of a file from a place on, and says how many. None are read only at the end of the file.
    fn piece(&mut self, name: &str, from: u64, buf: &mut [u8]) -> Result<usize, Failed>
        requires { 0 < length buf.old }
        ensures told { told self.new ≡ told self.old }
        ensures within { IfOk result (λ n. n ≤ length buf.old) }
        ensures bytes { IfOk result (λ n. (bytes : List ℕ) → TellsFile (told self.old) name.now bytes → Reads bytes from n buf.new) }
        ensures given { RaisedBy (given self.old) (given self.new) result }
        ensures later { faults self.old ≤ faults self.new }
        ensures lacks { LacksFile (told self.old) name.now → IsErr result × (faults self.new ≡ faults self.old) }
        ensures cause { OnErr result (Rose (faults self.old) (faults self.new) ⊎ LacksFile (told self.old) name.now) };
}

/// Where bytes are written.
pub trait Sink {
    /// The bytes that were taken, where the sink tells them.
    ghost written: { Self → Option (List ℕ) };

    /// How often writing failed, up to the last number of a `u64`.
    ghost faults: { Self → ℕ };

    /// Takes bytes from the front of the piece, and says how many. A failure takes none.
    fn put(&mut self, piece: &[u8]) -> Result<usize, Failed>
        requires { 0 < length piece.now }
        ensures some { IfOk result (λ n. 0 < n) }
        ensures within { IfOk result (λ n. n ≤ length piece.now) }
        ensures bytes { Appends (written self.old) (written self.new) result piece.now }
        ensures later { faults self.old ≤ faults self.new }
        ensures cause { OnErr result (Rose (faults self.old) (faults self.new)) };
}
