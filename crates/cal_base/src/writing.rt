ghost use Rattle.std.specs.Prelude.{◌≡◌, ◌≤◌, List, ℕ, OnOk, OnErr};
ghost use Rattle.cal_base.specs.Outside.{Rose, append_told, AppendsAllBut};

use crate::fault::Failed;
use crate::outside::Sink;

/// Writes all bytes, or after a failure a front of them. Each put is offered all that is left.
#[tactic(auto, using(crate::proofs::Pieces::pieces))]
pub fn write_all<K: Sink>(out: &mut K, bytes: &[u8]) -> Result<(), Failed>
    ensures ok { OnOk result (K.written out.new ≡ append_told (K.written out.old) bytes.now) }
    ensures err { OnErr result ((rest : List ℕ) × AppendsAllBut rest (K.written out.old) (K.written out.new) bytes.now) }
    ensures cause { OnErr result (Rose (K.faults out.old) (K.faults out.new)) }
    ensures later { K.faults out.old ≤ K.faults out.new }
{
    let mut rest = bytes;
    while rest.len() > 0 {
        let taken = out.put(rest)?;
        let (_, tail) = rest.split_at(taken);
        rest = tail;
    }
    Ok(())
}
