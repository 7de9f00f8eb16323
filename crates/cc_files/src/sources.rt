//! The sources of a program.

ghost use Rattle.std.specs.Prelude.{◌≡◌, ◌≢◌, ◌≤◌, ◌<◌, ◌+◌, ◌-◌, ◌^◌, false, IsTrue, length, map, sum, IfOk, IfErr};
ghost use Rattle.cc_edge.specs.Faults.{Rose, raised};
ghost use Rattle.cc_edge.specs.Files.{KeepsFiles};
ghost use Rattle.cc_files.specs.Unread.{names_of, texts_of, AreWithin, AreSources, IsFirstUnread, IsFirstSourceUnread, IsOneOf};
ghost use Rattle.cc_files.specs.declared.unread.Unread.TheVariants as unread;

use crate::unread::{Unread, read_file};
use cc_edge::Store;
use std::alloc::Global;

/// The most bytes of a source.
const SOURCE_LIMIT: u64 = 1 << 20;

/// The most bytes of all sources together.
const TOTAL_LIMIT: u64 = 4 << 20;

/// The texts of files, read in order, each of at most `most` bytes, and together of at most `total`.
fn read_within<F: Store>(
    alloc: Global,
    store: &mut F,
    names: &[String],
    most: u64,
    total: u64,
) -> Result<Vec<Vec<u8>>, Unread>
    requires above { most ≤ total }
    requires small { total < 2 ^ 64 - 1 }
    ensures told { F.told store.new ≡ F.told store.old }
    ensures later { F.faults store.old ≤ F.faults store.new }
    ensures count { IfOk result (λ texts. length texts.items ≡ length names.now) }
    ensures few { IfOk result (λ texts. sum (map length (texts_of texts.items)) ≤ total) }
    ensures stay { IsTrue (F.told store.old) → KeepsFiles (F.files store.old) (F.files store.new) }
    ensures whole { IfOk result (λ texts. IsTrue (F.told store.old) → AreWithin (F.files store.old) most total (names_of names.now) (texts_of texts.items)) }
    ensures unread { IfErr result (λ u. u ≢ unread.NoMemory → IsTrue (F.told store.old) → IsFirstUnread (F.files store.old) (Rose (F.faults store.old) (F.faults store.new)) most total (names_of names.now) u) }
    ensures untold { IfErr result (λ u. F.told store.old ≡ false → IsOneOf (names_of names.now) (Rose (F.faults store.old) (F.faults store.new)) (raised (most + 1) (F.taken store.old) ≤ F.taken store.new) u) }
{
    let mut texts = Vec::new(alloc);
    let mut left = total;
    for name in names {
        let text = read_file(alloc, store, name, most.min(left))?;
        left -= text.len() as u64;
        texts.push(text)?;
    }
    Ok(texts)
}

/// The texts of sources, read in order.
pub fn read_sources<F: Store>(
    alloc: Global,
    store: &mut F,
    names: &[String],
) -> Result<Vec<Vec<u8>>, Unread>
    ensures told { F.told store.new ≡ F.told store.old }
    ensures later { F.faults store.old ≤ F.faults store.new }
    ensures count { IfOk result (λ texts. length texts.items ≡ length names.now) }
    ensures few { IfOk result (λ texts. sum (map length (texts_of texts.items)) ≤ 4194304) }

    // Where the files are told:
    ensures stay { IsTrue (F.told store.old) → KeepsFiles (F.files store.old) (F.files store.new) }
    ensures whole { IfOk result (λ texts. IsTrue (F.told store.old) → AreSources (F.files store.old) (names_of names.now) (texts_of texts.items)) }
    ensures unread { IfErr result (λ u. u ≢ unread.NoMemory → IsTrue (F.told store.old) → IsFirstSourceUnread (F.files store.old) (Rose (F.faults store.old) (F.faults store.new)) (names_of names.now) u) }

    // Where they are not, a source that is too long has given one byte more than one may have.
    ensures untold { IfErr result (λ u. F.told store.old ≡ false → IsOneOf (names_of names.now) (Rose (F.faults store.old) (F.faults store.new)) (raised 1048577 (F.taken store.old) ≤ F.taken store.new) u) }
{
    read_within(alloc, store, names, SOURCE_LIMIT, TOTAL_LIMIT)
}
