//! What has a place in memory of its own, each found at once by its name where that has linkage (C99 6.2.2).

ghost use Rattle.std.specs.Prelude.{◌≡◌, ◌↔◌, ℕ, IsTrue, List as ListOf, OnOk, OnErr, IfOk, ◌++◌, ◌∷◌, [], ◌-◌, take, length, Some as SomeOf};
ghost use Rattle.std.specs.Option.{option_copied};
ghost use Rattle.cc_scopes.specs.Linked.{IsIndex, linked_from, is_linked, key_in};
ghost use Rattle.cc_scopes.specs.Maps.{named_entries};
ghost use Rattle.cc_scopes.specs.State.{find_name};
ghost use Rattle.cc_scopes.specs.declared.unit.Declared.{Declared as DeclaredOf};

mod definitions;

use crate::unit::Declared;
use cc_program::num::NoMemory;
use cc_unit::Linkage;
use indexmap::IndexMap;
use std::alloc::Global;

/// What is declared, in order, and the number of each name with linkage.
#[derive(Drop)]
pub struct Names {
    pub all: Vec<Declared>,
    pub linked: IndexMap<Vec<u8>, u32>,
    ghost indexed: { IsIndex all.items linked.entries },
}

fn is_linked_by(linkage: Linkage) -> bool
    ensures { result ≡ is_linked linkage }
{
    match linkage {
        Linkage::External | Linkage::Internal => true,
        Linkage::Local => false,
    }
}

/// The name of what has linkage.
fn linked_name(d: &Declared) -> Option<&[u8]>
    ensures { option_copied result ≡ key_in d.now }
{
    if !is_linked_by(d.linkage) {
        return None;
    }
    match &d.name {
        None => None,
        Some(name) => Some(name.all()),
    }
}

/// Whether a name has this number in an index.
#[tactic(auto, using(crate::proofs::LinkedLemmas::of_linked))]
fn is_number_of(linked: &IndexMap<Vec<u8>, u32>, name: &[u8], id: usize) -> bool
    ensures { IsTrue result ↔ (find_name name.now (named_entries linked.now.entries) ≡ SomeOf id) }
{
    match linked.get(name) {
        None => false,
        Some(first) => *first as usize == id,
    }
}

/// The name, where there is one, finds this number from now on, unless it finds one already.
fn note_number(
    alloc: Global,
    linked: &mut IndexMap<Vec<u8>, u32>,
    name: Option<&[u8]>,
    id: u32,
) -> Result<(), NoMemory>
    ensures noted { OnOk result ((ds : ListOf DeclaredOf) (d : DeclaredOf) → IsIndex ds linked.old.entries → key_in d ≡ option_copied name.entry → id ≡ length ds → IsIndex (ds ++ d ∷ []) linked.new.entries) }
    ensures unchanged { OnErr result (linked.new.entries ≡ linked.old.entries) }
{
    let Some(name) = name else {
        return Ok(());
    };
    if linked.get(name).is_some() {
        return Ok(());
    }
    let key = Vec::from_slice(alloc, name)?;
    linked.insert(key, id)?;
    Ok(())
}

/// The name, where there is one, does not find this number any more.
fn forget_number(linked: &mut IndexMap<Vec<u8>, u32>, name: Option<&[u8]>, id: usize)
    ensures { (ds : ListOf DeclaredOf) (d : DeclaredOf) → IsIndex (ds ++ d ∷ []) linked.old.entries → key_in d ≡ option_copied name.entry → id ≡ length ds → IsIndex ds linked.new.entries }
{
    let Some(name) = name else {
        return;
    };
    if is_number_of(linked, name, id) {
        linked.shift_remove(name);
    }
}

impl Names {
    /// Nothing is declared.
    #[tactic(auto, using(crate::proofs::LinkedLemmas::of_linked))]
    pub fn new(alloc: Global) -> Names
        ensures { result.all.items ≡ [] }
    {
        Names {
            all: Vec::new(alloc),
            linked: IndexMap::new(alloc),
        }
    }

    /// The number of the first name of this spelling that has linkage.
    #[tactic(auto, using(crate::proofs::LinkedLemmas::of_linked))]
    pub fn find(&self, name: &[u8]) -> Option<u32>
        ensures { result ≡ linked_from 0 name.now self.now.all.items }
    {
        self.linked.get(name).copied()
    }

    /// One more, with its number. So many that no `u32` counts them are as want of memory.
    #[tactic(auto, using(crate::proofs::LinkedLemmas::of_linked))]
    pub fn add(&mut self, alloc: Global, d: Declared) -> Result<u32, NoMemory>
        ensures number { IfOk result (λ i. i ≡ length self.old.all.items) }
        ensures all { OnOk result (self.new.all.items ≡ self.old.all.items ++ d ∷ []) }
    {
        let Ok(id) = u32::try_from(self.all.len()) else {
            return Err(NoMemory);
        };
        self.all.push(d)?;
        let name = linked_name(&self.all[id as usize]);
        if note_number(alloc, &mut self.linked, name, id).is_err() {
            self.all.truncate(id as usize);
            return Err(NoMemory);
        }
        Ok(id)
    }

    /// So many stay.
    #[tactic(auto, using(crate::proofs::LinkedLemmas::of_fewer))]
    pub fn truncate(&mut self, count: usize)
        ensures { self.new.all.items ≡ take count self.old.all.items }
    {
        while self.all.len() > count {
            self.forget_last();
        }
    }

    /// The last goes.
    #[tactic(auto, using(crate::proofs::LinkedLemmas::of_linked))]
    fn forget_last(&mut self)
        ensures { self.new.all.items ≡ take (length self.old.all.items - 1) self.old.all.items }
    {
        let Some(id) = self.all.len().checked_sub(1) else {
            return;
        };
        forget_number(&mut self.linked, linked_name(&self.all[id]), id);
        self.all.truncate(id);
    }
}
