ghost use Rattle.std.specs.Prelude.{◌≡◌, ◌≤◌, ◌<◌, ◌+◌, ◌-◌, ◌^◌, ◌⊎◌, false, IsTrue, Some, None, length, IfOk, IsSomeAnd};
ghost use Rattle.cc_edge.specs.Faults.{Rose, raised};
ghost use Rattle.cc_edge.specs.Files.{KeepsFiles};

use crate::store::{Got, PIECE, Store};
use std::alloc::Global;
use thiserror::Error;

/// Why a file was not read whole.
#[derive(Clone, Copy, Debug, Drop, Error)]
pub enum ReadEnd {
    /// The store had a fault, or the file is not there.
    #[error("read fault")]
    ReadFault,
    /// The file has more bytes than the limit.
    #[error("too long")]
    TooLong,
    /// Memory ran out.
    #[error("out of memory")]
    NoMemory,
}

/// The whole of a file that has at most `limit` bytes. At most `limit + 1` bytes are read, and
/// each turn reads at least one.
#[tactic(auto, using(crate::proofs::Prefixes::of_reads))]
pub fn read_whole<F: Store>(
    alloc: Global,
    store: &mut F,
    name: &str,
    limit: u64,
) -> Result<Vec<u8>, ReadEnd>
    requires { limit < 2 ^ 64 - 1 }
    ensures told { F.told store.new ≡ F.told store.old }
    ensures later { F.faults store.old ≤ F.faults store.new }
    ensures short { IfOk result (λ bytes. length bytes.items ≤ limit) }
    ensures fault { result ≡ Err ReadEnd.ReadFault → Rose (F.faults store.old) (F.faults store.new)
        ⊎ (IsTrue (F.told store.old) × (F.files store.old name.now ≡ None)) }

    // Where the files are told:
    ensures stay { IsTrue (F.told store.old) → KeepsFiles (F.files store.old) (F.files store.new) }
    ensures whole { IfOk result (λ bytes. IsTrue (F.told store.old) → F.files store.old name.now ≡ Some bytes.items) }
    ensures long { result ≡ Err ReadEnd.TooLong → IsTrue (F.told store.old) →
        IsSomeAnd (F.files store.old name.now) (λ bytes. limit < length bytes) }

    // Where they are not: TooLong comes where limit + 1 bytes were taken, and ReadFault where fewer
    // were. Ok comes where the store found the end behind the bytes that it gave.
    ensures taken { IfOk result (λ bytes. F.told store.old ≡ false →
        F.taken store.new ≡ raised (length bytes.items) (F.taken store.old)) }
    ensures end { IfOk result (λ bytes. F.told store.old ≡ false → F.end store.new ≡ Some (length bytes.items)) }
    ensures over { result ≡ Err ReadEnd.TooLong → F.told store.old ≡ false →
        F.taken store.new ≡ raised (limit + 1) (F.taken store.old) }
    ensures under { result ≡ Err ReadEnd.ReadFault → F.told store.old ≡ false →
        F.taken store.new ≤ raised limit (F.taken store.old) }
    ensures most { F.told store.old ≡ false → F.taken store.new ≤ raised (limit + 1) (F.taken store.old) }
{
    let mut bytes: Vec<u8> = Vec::new(alloc);
    let mut piece = [0u8; PIECE];
    while bytes.len() as u64 <= limit {
        let room = limit + 1 - bytes.len() as u64;
        let most = room.min(PIECE as u64) as usize;
        match store.read_at(name, bytes.len() as u64, &mut piece[..most]) {
            Got::Failed => return Err(ReadEnd::ReadFault),
            Got::End => return Ok(bytes),
            Got::Bytes(n) => {
                if bytes.extend_from_slice(&piece[..n]).is_err() {
                    return Err(ReadEnd::NoMemory);
                }
            }
        }
    }
    Err(ReadEnd::TooLong)
}
