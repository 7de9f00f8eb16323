//! One file.

ghost use Rattle.std.specs.Prelude.{◌≡◌, ◌≢◌, ◌≤◌, ◌<◌, ◌+◌, ◌-◌, ◌^◌, [], ◌∷◌, false, IsTrue, Some, length, IfOk, IfErr};
ghost use Rattle.cc_edge.specs.Faults.{Rose, raised};
ghost use Rattle.cc_edge.specs.Files.{KeepsFiles};
ghost use Rattle.cc_files.specs.Unread.{IsUnread, IsOneOf};
ghost use Rattle.cc_files.specs.declared.unread.Unread.TheVariants as unread;

use cc_edge::{ReadEnd, Store, read_whole};
use cc_num::{List, Name, NoMemory};
use std::alloc::{AllocFailed, Global};

/// Why a file is not read, with its name.
#[derive(Drop)]
pub enum Unread {
    /// A fault, or it is not there.
    ReadFault(Name),
    /// It has more bytes than its limit, or than is left for all sources.
    TooLong(Name),
    NoMemory,
}

impl From<NoMemory> for Unread {
    ghost from_gives = { λ _ u. u ≡ unread.NoMemory };

    fn from(_error: NoMemory) -> Unread {
        Unread::NoMemory
    }
}

impl<T: Drop> From<AllocFailed<T>> for Unread {
    ghost from_gives = { λ _ u. u ≡ unread.NoMemory };

    fn from(_error: AllocFailed<T>) -> Unread {
        Unread::NoMemory
    }
}

/// A copy of a name.
pub fn copy_name(alloc: Global, name: &str) -> Result<Name, NoMemory>
    ensures { IfOk result (λ copy. copy ≡ name.now) }
{
    Ok(List::of(Vec::from_slice(alloc, name.as_bytes())?))
}

/// The whole of a file that has at most `limit` bytes.
pub fn read_file<F: Store>(
    alloc: Global,
    store: &mut F,
    name: &str,
    limit: u64,
) -> Result<Vec<u8>, Unread>
    requires { limit < 2 ^ 64 - 1 }
    ensures told { F.told store.new ≡ F.told store.old }
    ensures later { F.faults store.old ≤ F.faults store.new }
    ensures short { IfOk result (λ text. length text.items ≤ limit) }

    // Where the files are told:
    ensures stay { IsTrue (F.told store.old) → KeepsFiles (F.files store.old) (F.files store.new) }
    ensures whole { IfOk result (λ text. IsTrue (F.told store.old) → F.files store.old name.now ≡ Some text.items) }
    ensures unread { IfErr result (λ u. u ≢ unread.NoMemory → IsTrue (F.told store.old) → IsUnread (F.files store.old) (Rose (F.faults store.old) (F.faults store.new)) limit name.now u) }

    // Where they are not:
    ensures taken { IfOk result (λ text. F.told store.old ≡ false → F.taken store.new ≡ raised (length text.items) (F.taken store.old)) }
    ensures untold { IfErr result (λ u. F.told store.old ≡ false → IsOneOf (name.now ∷ []) (Rose (F.faults store.old) (F.faults store.new)) (F.taken store.new ≡ raised (limit + 1) (F.taken store.old)) u) }
{
    let copy = copy_name(alloc, name)?;
    match read_whole(alloc, store, name, limit) {
        Ok(text) => Ok(text),
        Err(ReadEnd::ReadFault) => Err(Unread::ReadFault(copy)),
        Err(ReadEnd::TooLong) => Err(Unread::TooLong(copy)),
        Err(ReadEnd::NoMemory) => Err(Unread::NoMemory),
    }
}
