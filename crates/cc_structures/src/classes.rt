//! Classes of equal keys.

ghost use Rattle.std.specs.Prelude.{◌≡◌, ◌++◌, ◌∷◌, [], suc, IfOk, OnOk, length};
ghost use Rattle.std.specs.List.{position_or_len};
ghost use Rattle.indexmap.specs.IndexSet.{insert_key};
ghost use Rattle.cc_structures.specs.Classes.{class_numbers as class_numbers_of, distinct};

use cc_program::num::NoMemory;
use indexmap::IndexSet;
use std::alloc::Global;
use std::hash::Hash;

/// Classes of equal keys.
#[derive(Drop)]
pub struct Classes {
    /// The number of each key's class, from 1, in order of first appearance.
    pub numbers: Vec<u32>,
    /// How many classes there are.
    pub count: usize,
}

/// The number of an index, from 1.
fn number_of(index: usize) -> Result<u32, NoMemory>
    ensures { IfOk result (λ number. number ≡ suc index) }
{
    let index = u32::try_from(index).ok().ok_or(NoMemory)?;
    index.checked_add(1).ok_or(NoMemory)
}

/// Puts the number of a key's class behind others.
#[tactic(auto, using(crate::proofs::ClassLemmas::of_classes))]
fn put_number<K: Eq + Hash + Drop>(
    key: K,
    found: &mut IndexSet<K>,
    numbers: &mut Vec<u32>,
) -> Result<(), NoMemory>
    ensures numbers { OnOk result (numbers.new.items ≡ numbers.old.items ++ suc (position_or_len (K.eq key) found.old.keys) ∷ []) }
    ensures found { OnOk result (found.new.keys ≡ insert_key K.eq found.old.keys key) }
{
    let (index, _) = found.insert_full(key)?;
    numbers.push(number_of(index)?)?;
    Ok(())
}

/// Puts the numbers of the classes of keys, where no key is found so far.
#[tactic(auto, using(crate::proofs::ClassLemmas::of_classes))]
fn put_numbers<K: Eq + Hash + Drop>(
    keys: Vec<K>,
    found: &mut IndexSet<K>,
    numbers: &mut Vec<u32>,
) -> Result<(), NoMemory>
    requires found { found.old.keys ≡ [] }
    requires numbers { numbers.old.items ≡ [] }
    ensures numbers { OnOk result (numbers.new.items ≡ class_numbers_of K.eq keys.items) }
    ensures found { OnOk result (found.new.keys ≡ distinct K.eq keys.items) }
{
    for key in keys {
        put_number(key, found, numbers)?;
    }
    Ok(())
}

/// The classes of keys.
pub fn class_numbers<K: Eq + Hash + Drop>(alloc: Global, keys: Vec<K>) -> Result<Classes, NoMemory>
    ensures numbers { IfOk result (λ r. r.numbers.items ≡ class_numbers_of K.eq keys.items) }
    ensures count { IfOk result (λ r. r.count ≡ length (distinct K.eq keys.items)) }
{
    let mut found: IndexSet<K> = IndexSet::new(alloc);
    let mut numbers = Vec::new(alloc);
    put_numbers(keys, &mut found, &mut numbers)?;
    let count = found.len();
    Ok(Classes { numbers, count })
}
