//! The first structures of classes in their source.

ghost use Rattle.std.specs.Prelude.{◌≡◌, ◌++◌, ◌∷◌, [], IfOk, OnOk, if◌then◌else◌};
ghost use Rattle.std.specs.List.{list_any};
ghost use Rattle.indexmap.specs.IndexSet.{insert_key};
ghost use Rattle.cc_structures.specs.Ordered.{same_seen, seen_of, first_key, first_keys_behind};
ghost use Rattle.cc_structures.specs.View.{known_of, knowns_of, lists_of};

use crate::known::Known;
use crate::refined::number_at;
use cc_program::num::{List, NoMemory};
use indexmap::IndexSet;
use std::alloc::Global;

/// A class of which a source has a structure.
#[derive(Clone, Copy, PartialEq, Eq, Hash)]
pub struct Seen {
    pub text: u32,
    pub number: u32,
}

/// Adds what is seen, and tells whether it was before.
fn see(seen: &mut IndexSet<Seen>, it: Seen) -> Result<bool, NoMemory>
    ensures was { IfOk result (λ was. was ≡ list_any (same_seen it) seen.old.keys) }
    ensures seen { OnOk result (seen.new.keys ≡ insert_key same_seen seen.old.keys it) }
{
    let added = seen.insert(it)?;
    Ok(!added)
}

/// The number of the class, and what a structure has alone that is not the first of the class in its source.
fn first_key_of(alloc: Global, s: &Known<'_>, number: u32, seen: bool) -> Result<Vec<u32>, NoMemory>
    ensures { IfOk result (λ key. key.items ≡ number ∷ (if seen then s.now.text ∷ s.now.position ∷ [] else [])) }
{
    let mut key = Vec::new(alloc);
    key.push(number)?;
    if seen {
        key.push(s.text)?;
        key.push(s.position)?;
    }
    Ok(key)
}

/// Puts the keys of structures, where none is seen so far.
fn put_first_keys(
    alloc: Global,
    knowns: &[Known<'_>],
    numbers: &[List<u32>],
    seen: &mut IndexSet<Seen>,
    keys: &mut Vec<Vec<u32>>,
) -> Result<(), NoMemory>
    requires seen { seen.old.keys ≡ [] }
    requires keys { keys.old.items ≡ [] }
    ensures { OnOk result (lists_of keys.new.items ≡ first_keys_behind numbers.now [] (knowns_of knowns.now)) }
{
    for s in knowns {
        let text = s.text;
        let number = number_at(numbers, text, s.position);
        let was_seen = see(seen, Seen { text, number })?;
        keys.push(first_key_of(alloc, s, number, was_seen)?)?;
    }
    Ok(())
}

/// Keys that the first structures of a class in their sources share, and no others.
pub fn first_keys(
    alloc: Global,
    knowns: &[Known<'_>],
    numbers: &[List<u32>],
) -> Result<Vec<Vec<u32>>, NoMemory>
    ensures { IfOk result (λ keys. lists_of keys.items ≡ first_keys_behind numbers.now [] (knowns_of knowns.now)) }
{
    let mut seen = IndexSet::new(alloc);
    let mut keys = Vec::new(alloc);
    put_first_keys(alloc, knowns, numbers, &mut seen, &mut keys)?;
    Ok(keys)
}
