ghost use Rattle.std.specs.Prelude.{◌≡◌, None};

use cal_base::{Failed, Sink};

/// Standard output. Nothing is told of what it takes, and a put that takes nothing is a fault.
#[derive(Drop)]
pub struct OutSink<'a, P> {
    rt: &'a P,
    faults: u64,
}

impl<'a, P: Print> OutSink<'a, P> {
    /// Its count starts at 0.
    pub fn new(rt: &'a P) -> Self
        ensures { result.faults ≡ 0 }
    {
        OutSink { rt, faults: 0 }
    }
}

impl<'a, P: Print> Sink for OutSink<'a, P> {
    ghost written = { λ _. None };

    ghost faults = { λ s. s.faults };

    fn put(&mut self, piece: &[u8]) -> Result<usize, Failed> {
        match self.rt.write_some(piece) {
            Ok(count) if count > 0 => Ok(count),
            _ => {
                self.faults = self.faults.saturating_add(1);
                Err(Failed)
            }
        }
    }
}
