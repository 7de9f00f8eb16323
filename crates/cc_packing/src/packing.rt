//! The command.

ghost use Rattle.std.specs.Prelude.{◌≡◌, ◌≢◌, ◌≤◌, ◌<◌, ◌^◌, ℕ, List as ListOf, [], false, true, IsTrue, length, option_map, unwrap_or, IfOk, IfErr};
ghost use Rattle.cc_edge.specs.Faults.{Rose};
ghost use Rattle.cc_edge.specs.Files.{KeepsFiles};
ghost use Rattle.cc_packing.specs.Asked.{asked_of, IsApart, IsUntold};
ghost use Rattle.cc_packing.specs.Ends.{PackEnds, is_pack_refusal};
ghost use Rattle.cc_packing.specs.Headline.{AreAsked, IsAtFault, Packs};
ghost use Rattle.cc_status.specs.Statuses.{may_write};
ghost use Rattle.cc_status.specs.declared.status.Status.TheVariants as status;

use crate::material::read_material;
use crate::outputs::{Texts, Unwritten, write};
use crate::texts::texts_of_sources;
use cc_edge::Store;
use cc_files::copy_name;
use cc_program::num::{List, Name, NoMemory};
use cc_status::Status;
use std::alloc::Global;

/// What packing is asked for.
#[derive(Clone, Copy)]
pub struct Packing<'w> {
    /// The file of the profile, where it is not the default.
    pub profile: Option<&'w str>,
    pub out: &'w str,
    pub table: Option<&'w str>,
    pub sources: &'w [String],
}

/// A copy of the table's name; nothing where it is not named.
fn copy_table_name(alloc: Global, table: Option<&str>) -> Result<Name, NoMemory>
    ensures { IfOk result (λ r. r ≡ unwrap_or (option_map (λ t. t.now) table.entry) []) }
{
    match table {
        None => Ok(List::of(Vec::new(alloc))),
        Some(table) => copy_name(alloc, table),
    }
}

/// The output and the table that are asked for.
fn texts_asked<F: Store>(alloc: Global, asked: &Packing<'_>, store: &mut F) -> Result<Texts, Status>
    requires few { length asked.now.sources.now < 2 ^ 32 }
    ensures told { F.told store.new ≡ F.told store.old }
    ensures later { F.faults store.old ≤ F.faults store.new }
    ensures stay { IsTrue (F.told store.old) → KeepsFiles (F.files store.old) (F.files store.new) }
    ensures asked { IfOk result (λ t. IsTrue (F.told store.old) → AreAsked (F.files store.old) (asked_of asked.now) t.out.items t.table.items) }
    ensures ends { IfErr result (λ s. s ≢ status.NoMemory → IsTrue (F.told store.old) → PackEnds (F.files store.old) (Rose (F.faults store.old) (F.faults store.new)) (asked_of asked.now) s) }
    ensures refusal { IfErr result (λ s. is_pack_refusal s ≡ true) }
    ensures untold { IfErr result (λ s. F.told store.old ≡ false → IsUntold (asked_of asked.now) (Rose (F.faults store.old) (F.faults store.new)) (F.taken store.old) (F.taken store.new) s) }
{
    let material = read_material(alloc, store, asked)?;
    texts_of_sources(
        alloc,
        asked.sources,
        &material.profile,
        material.sources.as_slice(),
    )
}

/// Reads the profile and the sources, packs their program, and writes the output, and the table where it is named. All is
/// made before anything is written, so that nothing takes memory once the output is begun.
pub fn pack<F: Store>(alloc: Global, asked: &Packing<'_>, store: &mut F) -> Status
    requires apart { IsApart (asked_of asked.now).out (asked_of asked.now).table }
    requires few { length asked.now.sources.now < 2 ^ 32 }
    ensures told { F.told store.new ≡ F.told store.old }
    ensures later_faults { F.faults store.old ≤ F.faults store.new }

    // The output does what the sources do, in no more RAM, the table, where it is named, tells the RAM of both, and nothing
    // else has changed.
    ensures headline { result ≡ status.Done → IsTrue (F.told store.old) → Packs (asked_of asked.now) (F.files store.old) (F.files store.new) }

    // WriteFault names the file that was not written whole. Where it is the output, the table is as it was; where it is the
    // table, the output is whole.
    ensures write_fault { (name : ListOf ℕ) → result ≡ status.WriteFault name →
        Rose (F.faults store.old) (F.faults store.new) × IsAtFault name (asked_of asked.now) (F.told store.old) (F.files store.old) (F.files store.new) }

    // After any other answer the files are as they were, and it has its cause, the first in the order in which they are
    // looked for. Want of memory is an answer of its own.
    ensures unchanged { may_write result ≡ false → IsTrue (F.told store.old) → KeepsFiles (F.files store.old) (F.files store.new) }
    ensures ends { may_write result ≡ false → result ≢ status.NoMemory → IsTrue (F.told store.old) → PackEnds (F.files store.old) (Rose (F.faults store.old) (F.faults store.new)) (asked_of asked.now) result }
    ensures refusal { may_write result ≡ false → is_pack_refusal result ≡ true }

    // Over a store that does not tell its files, a fault names one that is read, and it comes where the store's faults rose,
    // or where more bytes were taken than a file of its kind may have.
    ensures untold { F.told store.old ≡ false → IsUntold (asked_of asked.now) (Rose (F.faults store.old) (F.faults store.new)) (F.taken store.old) (F.taken store.new) result }
{
    let Ok(out_name) = copy_name(alloc, asked.out) else {
        return Status::NoMemory;
    };
    let Ok(table_name) = copy_table_name(alloc, asked.table) else {
        return Status::NoMemory;
    };
    match texts_asked(alloc, asked, store) {
        Err(status) => status,
        Ok(texts) => match write(store, asked.out, asked.table, &texts) {
            Err(Unwritten::Out) => Status::WriteFault(out_name),
            Err(Unwritten::Table) => Status::WriteFault(table_name),
            Ok(()) => Status::Done,
        },
    }
}
