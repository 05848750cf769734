ghost use Rattle.std.specs.Prelude.{◌≡◌, ◌<◌, ◌≤◌, ◌+◌, ◌^◌, ◌⊎◌, List, ℕ, length, Err, IfOk, IsErr, IsErrOf, vec_len};
ghost use Rattle.cal_limits.specs.declared.TheConstants.{MOST_REPORT_BYTES};
ghost use Rattle.cal_base.specs.Outside.{TellsFile, LacksFile, Rose, Raised, IsFront};

use crate::fault::LoadFault;
use crate::outside::Library;
use std::alloc::Global;

/// The most bytes that are asked for at once.
const PIECE: usize = 4096;

/// Appends the next piece of a file, of at most the buffer's length, and says how long it is.
#[tactic(auto, using(crate::proofs::Pieces::pieces))]
fn append_piece<L: Library>(
    files: &mut L,
    name: &str,
    buf: &mut [u8],
    bytes: &mut Vec<u8>,
) -> Result<usize, LoadFault>
    requires { 0 < length buf.old }
    ensures told { L.told files.new ≡ L.told files.old }
    ensures length { IfOk result (λ n. (vec_len bytes.new ≡ vec_len bytes.old + n) × (n ≤ length buf.old)) }
    ensures front { IfOk result (λ n. (all : List ℕ) → TellsFile (L.told files.old) name.now all → IsFront all bytes.old.items → IsFront all bytes.new.items) }
    ensures end { IfOk result (λ n. (all : List ℕ) → TellsFile (L.told files.old) name.now all → IsFront all bytes.old.items → n ≡ 0 → bytes.new.items ≡ all) }
    ensures given { IfOk result (λ n. Raised (L.given files.old) (L.given files.new) n) }
    ensures given_most { L.given files.new ≤ L.given files.old + length buf.old }
    ensures later { L.faults files.old ≤ L.faults files.new }
    ensures failed { IsErrOf result LoadFault.Failed → Rose (L.faults files.old) (L.faults files.new) ⊎ LacksFile (L.told files.old) name.now }
    ensures not_long { IsErrOf result LoadFault.TooLong → ⊥ }
    ensures lacks { LacksFile (L.told files.old) name.now → (result ≡ Err LoadFault.Failed) × (L.faults files.new ≡ L.faults files.old) }
{
    let count = files.piece(name, bytes.len() as u64, buf)?;
    let (piece, _) = buf.split_at(count);
    bytes.extend_from_slice(piece)?;
    Ok(count)
}

/// The bytes of a file of at most `limit` bytes. It is read from the front in pieces of at most 4096 bytes, up to
/// the first piece that has none, and never further than one byte behind the limit.
#[tactic(auto, using(crate::proofs::Pieces::loads))]
pub fn load<L: Library>(
    alloc: Global,
    files: &mut L,
    name: &str,
    limit: u64,
) -> Result<Vec<u8>, LoadFault>
    requires { limit ≤ MOST_REPORT_BYTES }
    ensures told { L.told files.new ≡ L.told files.old }

    ensures bytes { IfOk result (λ v. (all : List ℕ) → TellsFile (L.told files.old) name.now all → v.items ≡ all) }
    ensures small { IfOk result (λ v. vec_len v ≤ limit) }

    ensures too_long { IsErrOf result LoadFault.TooLong → (all : List ℕ) → TellsFile (L.told files.old) name.now all → limit < length all }
    ensures longer { (all : List ℕ) → TellsFile (L.told files.old) name.now all → limit < length all → IsErr result }
    ensures too_long_given { IsErrOf result LoadFault.TooLong → Raised (L.given files.old) (L.given files.new) (limit + 1) }

    ensures failed { IsErrOf result LoadFault.Failed → Rose (L.faults files.old) (L.faults files.new) ⊎ LacksFile (L.told files.old) name.now }
    ensures lacks { LacksFile (L.told files.old) name.now → (result ≡ Err LoadFault.Failed) × (L.faults files.new ≡ L.faults files.old) }

    // What the library's counts are afterwards.
    ensures given_bytes { IfOk result (λ v. Raised (L.given files.old) (L.given files.new) (vec_len v)) }
    ensures given { L.given files.new ≤ L.given files.old + (limit + 1) }
    ensures later { L.faults files.old ≤ L.faults files.new }
{
    let mut bytes = Vec::new(alloc);
    let mut buf = [0u8; PIECE];
    'pieces: while bytes.len() as u64 <= limit {
        let ask = (limit + 1 - bytes.len() as u64).min(PIECE as u64) as usize;
        let count = append_piece(files, name, &mut buf[..ask], &mut bytes)?;
        if count == 0 {
            return Ok(bytes);
        }
    }
    Err(LoadFault::TooLong)
}
