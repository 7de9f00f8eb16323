//! What is written.

ghost use Rattle.std.specs.Prelude.{◌≡◌, ◌≤◌, IsTrue, IsSomeAnd, OnOk, OnErr, Err, option_map};
ghost use Rattle.cc_edge.specs.Faults.{Rose};
ghost use Rattle.cc_packing.specs.Asked.{IsApart};
ghost use Rattle.cc_packing.specs.Outputs.{AreWritten, IsOutLeft, IsTableLeft};

use cc_edge::{Store, write_whole};

/// The text of the output, and that of the table.
#[derive(Drop)]
pub struct Texts {
    pub out: Vec<u8>,
    pub table: Vec<u8>,
}

/// The file that was not written whole.
#[derive(Clone, Copy, Debug, PartialEq, Eq)]
pub enum Unwritten {
    Out,
    Table,
}

/// Writes the output, and then the table where it is named. It takes no memory.
pub fn write<F: Store>(
    store: &mut F,
    out: &str,
    table: Option<&str>,
    texts: &Texts,
) -> Result<(), Unwritten>
    requires apart { IsApart out.now (option_map (λ t. t.now) table) }
    ensures told { F.told store.new ≡ F.told store.old }
    ensures later { F.faults store.old ≤ F.faults store.new }
    ensures fault { OnErr result (Rose (F.faults store.old) (F.faults store.new)) }

    // Where the files are told:
    ensures whole { OnOk result (IsTrue (F.told store.old) → AreWritten out.now (option_map (λ t. t.now) table.entry) texts.now.out.items texts.now.table.items (F.files store.old) (F.files store.new)) }
    ensures output { result ≡ Err Unwritten.Out → IsTrue (F.told store.old) → IsOutLeft out.now texts.now.out.items (F.files store.old) (F.files store.new) }
    ensures table { result ≡ Err Unwritten.Table → IsSomeAnd (option_map (λ t. t.now) table.entry) (λ name.
        IsTrue (F.told store.old) → IsTableLeft out.now name texts.now.out.items texts.now.table.items (F.files store.old) (F.files store.new)) }
{
    if write_whole(store, out, &texts.out).is_err() {
        return Err(Unwritten::Out);
    }
    match table {
        None => Ok(()),
        Some(name) => match write_whole(store, name, &texts.table) {
            Ok(()) => Ok(()),
            Err(_) => Err(Unwritten::Table),
        },
    }
}
