ghost use Rattle.std.specs.Prelude.{◌≡◌, ◌≢◌, ◌⊎◌, List, ℕ, map, string_bytes};
ghost use Rattle.cal_base.specs.declared.status.Status.{Status};
ghost use Rattle.cal_base.specs.Outside.{Rose, append_told, AppendsAllBut};
ghost use Rattle.cal_top.specs.Seen.{seen};
ghost use Rattle.cal_top.specs.Complete.{IsAnswerable};
ghost use Rattle.cal_top.specs.Replies.{Replied, RepliedPartly};

use crate::answer::{Answer, PathAsked};
use crate::reply::Reply;
use crate::words::answer;
use cal_base::{Library, Sink, Status, write_all};
use path_run::run_path;
use path_text::one_document;
use std::alloc::Global;
use tdb_read::one_outcome;

/// A run of the program over the words behind its name: the text of its one reply is appended to what the sink has, and
/// the status says which it was. `equilibrium` reads a database and prints the equilibrium of what is asked; `scheil` prints
/// the steps of a solidification path, each as soon as it was made; `check` judges a report or a path over a database;
/// `table` prints the fields of one, separated by commas.
pub fn run<L: Library, K: Sink>(
    alloc: Global,
    words: &[String],
    files: &mut L,
    out: &mut K,
) -> Status
    // What was appended, and why.
    ensures replied { result ≢ Status.WriteFault →
        Replied
        (seen (L.told files.old) (L.faults files.old) (L.faults files.new) (L.given files.old) (L.given files.new))
        (K.written out.old) (K.written out.new) (map (λ word. string_bytes word) words.now) result }

    // A failed write leaves a front of a reply.
    ensures write { result ≡ Status.WriteFault → Rose (K.faults out.old) (K.faults out.new) }
    ensures partly { result ≡ Status.WriteFault →
        RepliedPartly
        (seen (L.told files.old) (L.faults files.old) (L.faults files.new) (L.given files.old) (L.given files.new))
        (K.written out.old) (K.written out.new) (map (λ word. string_bytes word) words.now) }

    // The library tells the same files as before.
    ensures told { L.told files.new ≡ L.told files.old }

    // Where no cause of a refusal stands and no count rose, the run is done, or has no memory.
    ensures complete { IsAnswerable (L.told files.old) (map (λ word. string_bytes word) words.now) →
        ¬ Rose (L.faults files.old) (L.faults files.new) → ¬ Rose (K.faults out.old) (K.faults out.new) →
        (result ≡ Status.Done) ⊎ (result ≡ Status.Memory) }
{
    one_outcome();
    one_document();
    let answered = answer(alloc, words, files);
    match answered {
        Err(_) => Status::Memory,
        Ok(Answer::Reply(reply)) => write(reply, out),
        Ok(Answer::Path(PathAsked { db, logs, job })) => run_path(alloc, &db, &logs, job, out),
    }
}

fn write<K: Sink>(reply: Reply, out: &mut K) -> Status
    requires { reply.status ≢ Status.WriteFault }
    ensures ok { result ≢ Status.WriteFault →
        (result ≡ reply.status) × (K.written out.new ≡ append_told (K.written out.old) reply.text.items) }
    ensures write { result ≡ Status.WriteFault →
        Rose (K.faults out.old) (K.faults out.new)
        × ((rest : List ℕ) × AppendsAllBut rest (K.written out.old) (K.written out.new) reply.text.items) }
{
    match write_all(out, reply.text.as_slice()) {
        Ok(()) => reply.status,
        Err(_) => Status::WriteFault,
    }
}
