ghost use Rattle.std.specs.Prelude.{◌≡◌, ◌≤◌, ◌⊎◌, ◌++◌, ℕ, IsTrue, Some, take, OnOk, OnErr};
ghost use Rattle.cc_edge.specs.Faults.{Rose};
ghost use Rattle.cc_edge.specs.Files.{KeepsOthers, HoldsPrefix};

use crate::sink::Sink;
use crate::store::{Made, PIECE, Put, Store};
use thiserror::Error;

/// Not all bytes were written.
#[derive(Clone, Copy, Debug, Drop, Error)]
#[error("write fault")]
pub struct WriteFault;

/// Makes a file of exactly these bytes. It takes no memory.
#[tactic(auto, using(crate::proofs::Prefixes::of_writes))]
pub fn write_whole<F: Store>(store: &mut F, name: &str, bytes: &[u8]) -> Result<(), WriteFault>
    ensures told { F.told store.new ≡ F.told store.old }
    ensures later { F.faults store.old ≤ F.faults store.new }
    ensures taken { F.taken store.new ≡ F.taken store.old }
    ensures end { F.end store.new ≡ F.end store.old }
    ensures fault { OnErr result (Rose (F.faults store.old) (F.faults store.new)) }

    // Where the files are told:
    ensures others { IsTrue (F.told store.old) → KeepsOthers name.now (F.files store.old) (F.files store.new) }
    ensures whole { OnOk result (IsTrue (F.told store.old) → F.files store.new name.now ≡ Some bytes.now) }
    ensures left { OnErr result (IsTrue (F.told store.old) →
        (F.files store.new name.now ≡ F.files store.old name.now) ⊎ HoldsPrefix bytes.now (F.files store.new name.now)) }
{
    if store.create(name) == Made::Failed {
        return Err(WriteFault);
    }
    let mut rest = bytes;
    while !rest.is_empty() {
        let piece = &rest[..rest.len().min(PIECE)];
        match store.append(name, piece) {
            Put::Failed => return Err(WriteFault),
            Put::Bytes(n) => rest = &rest[n..],
        }
    }
    Ok(())
}

/// Says all of these bytes. It takes no memory.
#[tactic(auto, using(crate::proofs::Prefixes::of_words))]
pub fn say_whole<O: Sink>(sink: &mut O, bytes: &[u8]) -> Result<(), WriteFault>
    ensures told { O.told sink.new ≡ O.told sink.old }
    ensures later { O.faults sink.old ≤ O.faults sink.new }
    ensures fault { OnErr result (Rose (O.faults sink.old) (O.faults sink.new)) }

    // Where the sink tells what was said:
    ensures whole { OnOk result (IsTrue (O.told sink.old) → O.said sink.new ≡ O.said sink.old ++ bytes.now) }
    ensures left { OnErr result (IsTrue (O.told sink.old) →
        (n : ℕ) × (O.said sink.new ≡ O.said sink.old ++ take n bytes.now)) }
{
    let mut rest = bytes;
    while !rest.is_empty() {
        let piece = &rest[..rest.len().min(PIECE)];
        match sink.put(piece) {
            Put::Failed => return Err(WriteFault),
            Put::Bytes(n) => rest = &rest[n..],
        }
    }
    Ok(())
}
