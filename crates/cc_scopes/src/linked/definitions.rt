//! What definitions and attributes add to what is known of a name (C99 6.9.1, 6.9.2).

ghost use Rattle.std.specs.Prelude.{◌≡◌, OnOk};
ghost use Rattle.cc_scopes.specs.Definitions.{first_or as first_or_of, tentative_at, defined_at, entry_added as entry_added_of, with_entry, with_values};
ghost use Rattle.cc_scopes.specs.State.{change_at};

use crate::linked::Names;
use cc_operands::syntax::{CType, Entry, Leaf};
use cc_program::num::{List, NoMemory};
use cc_unit::{UnitKind, both_entries};
use std::alloc::Global;
use std::mem::replace;

fn first_or(first: Option<u32>, at: u32) -> Option<u32>
    ensures { result ≡ first_or_of first at }
{
    match first {
        None => Some(at),
        Some(first) => Some(first),
    }
}

fn entry_added(entry: Option<Entry>, kind: UnitKind) -> UnitKind
    ensures { result ≡ entry_added_of entry kind }
{
    match kind {
        UnitKind::Func(before, body) => UnitKind::Func(both_entries(before, entry), body),
        UnitKind::Object(leaves) => UnitKind::Object(leaves),
        UnitKind::Device(device) => UnitKind::Device(device),
    }
}

impl Names {
    /// A tentative definition (C99 6.9.2, 2).
    #[tactic(auto, using(crate::proofs::LinkedLemmas::of_changes))]
    pub fn define_tentatively(&mut self, id: u32, at: u32)
        ensures { self.new.all.items ≡ change_at id (tentative_at at) self.old.all.items }
    {
        let id = id as usize;
        if id < self.all.len() {
            let d = &mut self.all[id];
            d.first = first_or(d.first, at);
            d.tentative = true;
        }
    }

    /// A definition, of this type. So many that no `u32` counts them are as want of memory.
    #[tactic(auto, using(crate::proofs::LinkedLemmas::of_changes))]
    pub fn define(&mut self, id: u32, at: u32, ctype: CType, kind: UnitKind) -> Result<(), NoMemory>
        ensures { OnOk result (self.new.all.items ≡ change_at id (defined_at at ctype kind) self.old.all.items) }
    {
        let id = id as usize;
        if id < self.all.len() {
            let d = &mut self.all[id];
            let Some(definitions) = d.definitions.checked_add(1) else {
                return Err(NoMemory);
            };
            d.definitions = definitions;
            d.first = first_or(d.first, at);
            d.ctype = ctype;
            d.kind = kind;
        }
        Ok(())
    }

    /// What attributes say of a function.
    #[tactic(auto, using(crate::proofs::LinkedLemmas::of_changes))]
    pub fn add_entry(&mut self, alloc: Global, id: u32, entry: Option<Entry>)
        ensures { self.new.all.items ≡ change_at id (with_entry entry) self.old.all.items }
    {
        let id = id as usize;
        if id < self.all.len() {
            let d = &mut self.all[id];
            let kind = replace(&mut d.kind, UnitKind::Object(List::of(Vec::new(alloc))));
            d.kind = entry_added(entry, kind);
        }
    }

    /// The first values of an object.
    #[tactic(auto, using(crate::proofs::LinkedLemmas::of_changes))]
    pub fn set_values(&mut self, id: u32, leaves: List<Leaf>)
        ensures { self.new.all.items ≡ change_at id (with_values leaves) self.old.all.items }
    {
        let id = id as usize;
        if id < self.all.len() {
            let d = &mut self.all[id];
            d.kind = UnitKind::Object(leaves);
        }
    }
}
