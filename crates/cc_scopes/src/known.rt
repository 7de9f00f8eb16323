//! The structure types of a unit.

ghost use Rattle.std.specs.Prelude.{◌≡◌, ◌++◌, ◌∷◌, [], is_ok, IfOk, IsTrue, if◌then◌else◌};
ghost use Rattle.std.specs.Option.{option_copied};
ghost use Rattle.cc_scopes.specs.Standings.{are_kept};
ghost use Rattle.cc_scopes.specs.State.{name_or_none};

mod layouts;

use crate::standing::Standing;
use cc_operands::syntax::{CType, Layout, Structure};
use cc_program::copy_list;
use cc_program::num::{List, Name, NoMemory, at};
pub use layouts::{structure_layout, type_layout_in};
use std::alloc::Global;

/// The structures, in order of first appearance, and the order in which they were complete.
#[derive(Drop)]
pub struct Structures {
    pub all: Vec<Structure>,
    pub standings: Vec<Standing>,
    pub layouts: Vec<Layout>,
    pub completed: Vec<u32>,
    ghost kept: { IsTrue (are_kept all.items standings.items layouts.items) },
}

impl Structures {
    ghost use Rattle.std.specs.Prelude.{◌≡◌, ◌++◌, ◌∷◌, [], OnOk, map, slice_get};
    ghost use Rattle.cc_scopes.specs.State.{as_structure, change_at, only_named};
    ghost use Rattle.cc_scopes.specs.Standings.{completed_with, with_alias};
    ghost use Rattle.cc_scopes.specs.Structures.{has_content as has_content_of};
    ghost use Rattle.cc_scopes.specs.View.{known_of};

    /// There are none.
    #[tactic(auto, using(crate::proofs::KnownLemmas::of_known), unfolding(crate::specs::View::known_of))]
    pub fn new(alloc: Global) -> Structures
        ensures known { known_of result ≡ [] }
        ensures completed { result.completed.items ≡ [] }
    {
        Structures {
            all: Vec::new(alloc),
            standings: Vec::new(alloc),
            layouts: Vec::new(alloc),
            completed: Vec::new(alloc),
        }
    }

    /// Their tags and members.
    #[tactic(auto, using(crate::proofs::KnownLemmas::of_known), unfolding(crate::specs::View::known_of))]
    pub fn all(&self) -> &[Structure]
        ensures { result.now ≡ map as_structure (known_of self.now) }
    {
        self.all.as_slice()
    }

    /// Their layouts.
    #[tactic(auto, using(crate::proofs::KnownLemmas::of_known), unfolding(crate::specs::View::known_of))]
    pub fn layouts(&self) -> &[Layout]
        ensures { result.now ≡ map (λ k. k.layout) (known_of self.now) }
    {
        self.layouts.as_slice()
    }

    /// Whether one is complete.
    #[tactic(auto, using(crate::proofs::KnownLemmas::of_known), unfolding(crate::specs::View::known_of))]
    pub fn has_content(&self, id: u32) -> bool
        ensures { result ≡ has_content_of (slice_get (known_of self.now) id) }
    {
        match at(self.standings.as_slice(), id as usize) {
            None => false,
            Some(standing) => standing.complete,
        }
    }

    /// One more, which is only named.
    pub fn add(&mut self, alloc: Global, tag: Option<&Name>) -> Result<(), NoMemory>
        ensures known { OnOk result (known_of self.new ≡ known_of self.old ++ only_named (option_copied tag.entry) ∷ []) }
        ensures completed { OnOk result (self.new.completed.items ≡ self.old.completed.items) }
    {
        let structure = Structure {
            tag: tag_or_none(alloc, tag)?,
            members: List::of(Vec::new(alloc)),
        };
        let standing = Standing {
            tagged: tag.is_some(),
            alias: None,
            complete: false,
        };
        push_each(
            &mut self.all,
            structure,
            &mut self.standings,
            standing,
            &mut self.layouts,
            NOTHING,
        )
    }

    /// One is complete, with these members and this layout.
    #[tactic(auto, using(crate::proofs::KnownLemmas::of_known), unfolding(crate::specs::View::known_of))]
    pub fn complete(
        &mut self,
        id: u32,
        members: List<(Name, CType)>,
        layout: Layout,
    ) -> Result<(), NoMemory>
        ensures known { OnOk result (known_of self.new ≡ change_at id (completed_with members layout) (known_of self.old)) }
        ensures completed { OnOk result (self.new.completed.items ≡ self.old.completed.items ++ id ∷ []) }
    {
        self.completed.push(id)?;
        let id = id as usize;
        if id < self.all.len() {
            let structure = &mut self.all[id];
            structure.members = members;
            let standing = &mut self.standings[id];
            standing.complete = true;
            self.layouts[id] = layout;
        }
        Ok(())
    }

    /// The typedef that defines one has this first name.
    #[tactic(auto, using(crate::proofs::KnownLemmas::of_known), unfolding(crate::specs::View::known_of))]
    pub fn set_alias(&mut self, id: u32, alias: Option<Name>)
        ensures known { known_of self.new ≡ change_at id (with_alias alias) (known_of self.old) }
        ensures completed { self.new.completed.items ≡ self.old.completed.items }
    {
        let id = id as usize;
        if id < self.standings.len() {
            let standing = &mut self.standings[id];
            standing.alias = alias;
        }
    }
}

/// The layout of what has no objects.
const NOTHING: Layout = Layout { size: 0, align: 1 };

/// Puts an element behind each of three lists, or behind none of them.
fn push_each<A: Drop, B: Drop, C: Drop>(
    first: &mut Vec<A>,
    a: A,
    second: &mut Vec<B>,
    b: B,
    third: &mut Vec<C>,
    c: C,
) -> Result<(), NoMemory>
    ensures first { first.new.items ≡ (if is_ok result then first.old.items ++ a ∷ [] else first.old.items) }
    ensures second { second.new.items ≡ (if is_ok result then second.old.items ++ b ∷ [] else second.old.items) }
    ensures third { third.new.items ≡ (if is_ok result then third.old.items ++ c ∷ [] else third.old.items) }
{
    first.push(a)?;
    if second.push(b).is_err() {
        first.pop();
        return Err(NoMemory);
    }
    if third.push(c).is_err() {
        first.pop();
        second.pop();
        return Err(NoMemory);
    }
    Ok(())
}

/// The tag of a structure; nothing where it has none.
fn tag_or_none(alloc: Global, tag: Option<&Name>) -> Result<Name, NoMemory>
    ensures { IfOk result (λ r. r ≡ name_or_none (option_copied tag.entry)) }
{
    match tag {
        None => Ok(List::of(Vec::new(alloc))),
        Some(tag) => copy_list(alloc, tag),
    }
}
