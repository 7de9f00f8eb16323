//! What is known up to a place of a translation unit.

ghost use Rattle.std.specs.Prelude.{◌≡◌, ◌++◌, ◌∷◌, [], length, take, slice_get, IfOk, OnOk};
ghost use Rattle.std.specs.Option.{option_copied};
ghost use Rattle.cc_scopes.specs.Definitions.{tentative_at, defined_at, with_entry, with_values};
ghost use Rattle.cc_scopes.specs.Layouts.{saturated};
ghost use Rattle.cc_scopes.specs.Linked.{linked_name as linked_name_of};
ghost use Rattle.cc_scopes.specs.State.{at_first, designated as designated_in, tagged as tagged_in, named_here as named_here_in, tagged_here as tagged_here_in, innermost, bind as bind_in, bind_tag as bind_tag_in, entered, left, with_declared, with_names, with_unfinished, with_locals, with_structures, structures_of, layouts_of, only_named, change_at, change_name, is_unfinished as is_unfinished_in, same_variable as same_variable_of};
ghost use Rattle.cc_program.specs.declared.expr.Place.{out-Place};
ghost use Rattle.cc_scopes.specs.Standings.{with_alias};
ghost use Rattle.cc_scopes.specs.Structures.{completed as completed_in, has_content as has_content_in, with_structure};
ghost use Rattle.cc_scopes.specs.View.{state_of};
ghost use Rattle.cc_operands.specs.CcSyntax.Layout.{type_layout};

use crate::designated::{Designated, Tagged};
use crate::known::{Structures, structure_layout, type_layout_in};
use crate::linked::Names;
use crate::scope::Scope;
use crate::unit::Declared;
use cc_operands::syntax::{CType, Entry, Layout, Leaf, Place, Structure};
use cc_program::num::{List, Name, NoMemory, Target};
use cc_unit::UnitKind;
use std::alloc::Global;
use std::mem::replace;

/// What is known up to a place of a translation unit.
#[derive(Drop)]
pub struct State {
    pub scopes: Vec<Scope>,
    pub structures: Structures,
    pub names: Names,
    /// The automatic objects of the function.
    pub locals: Vec<(Name, CType)>,
    /// The array whose initialiser is read, where that gives its bound: it is incomplete to the end of it (C99
    /// 6.7.8, 22).
    pub unfinished: Option<Place>,
}

/// Whether both are one local or one static object.
fn same_variable(a: &Place, b: &Place) -> bool
    ensures { result ≡ same_variable_of (out-Place a.now) (out-Place b.now) }
{
    match a {
        Place::Local(n) => match b {
            Place::Local(m) => *n == *m,
            _ => false,
        },
        Place::Static(i) => match b {
            Place::Static(j) => *i == *j,
            _ => false,
        },
        _ => false,
    }
}

impl State {
    /// In front of a unit: the scope of the file.
    #[tactic(auto, using(crate::proofs::States::of_states), unfolding(crate::specs::View::state_of))]
    pub fn new(alloc: Global) -> Result<State, NoMemory>
        ensures { IfOk result (λ s. state_of s ≡ at_first) }
    {
        let mut scopes = Vec::new(alloc);
        scopes.push(Scope::new(alloc))?;
        Ok(State {
            scopes,
            structures: Structures::new(alloc),
            names: Names::new(alloc),
            locals: Vec::new(alloc),
            unfinished: None,
        })
    }

    /// What a name designates here: in the innermost scope that has it (C99 6.2.1, 4).
    #[tactic(auto, using(crate::proofs::States::of_states), unfolding(crate::specs::View::state_of))]
    pub fn designated(&self, name: &[u8]) -> Option<&Designated>
        ensures { option_copied result ≡ designated_in name.now (state_of self.now).scopes }
    {
        let scopes = self.scopes.as_slice();
        let mut n = scopes.len();
        while n > 0 {
            n -= 1;
            if let Some(d) = scopes[n].designated(name) {
                return Some(d);
            }
        }
        None
    }

    /// What a tag designates here.
    #[tactic(auto, using(crate::proofs::States::of_states), unfolding(crate::specs::View::state_of))]
    pub fn tagged(&self, name: &[u8]) -> Option<Tagged>
        ensures { result ≡ tagged_in name.now (state_of self.now).scopes }
    {
        let scopes = self.scopes.as_slice();
        let mut n = scopes.len();
        while n > 0 {
            n -= 1;
            if let Some(t) = scopes[n].tagged(name) {
                return Some(t);
            }
        }
        None
    }

    /// What a name designates that is declared in the innermost scope.
    #[tactic(auto, using(crate::proofs::States::of_states), unfolding(crate::specs::View::state_of))]
    pub fn named_here(&self, name: &[u8]) -> Option<&Designated>
        ensures { option_copied result ≡ named_here_in name.now (state_of self.now) }
    {
        match self.scopes.last() {
            None => None,
            Some(scope) => scope.designated(name),
        }
    }

    /// What a tag designates that is declared in the innermost scope.
    #[tactic(auto, using(crate::proofs::States::of_states), unfolding(crate::specs::View::state_of))]
    pub fn tagged_here(&self, name: &[u8]) -> Option<Tagged>
        ensures { result ≡ tagged_here_in name.now (state_of self.now) }
    {
        match self.scopes.last() {
            None => None,
            Some(scope) => scope.tagged(name),
        }
    }

    /// What has a place in memory of its own, in order of first appearance.
    #[tactic(auto, using(crate::proofs::States::of_states), unfolding(crate::specs::View::state_of))]
    pub fn names(&self) -> &[Declared]
        ensures { result.now ≡ (state_of self.now).names }
    {
        self.names.all.as_slice()
    }

    /// The number of a name that has linkage.
    #[tactic(auto, using(crate::proofs::States::of_states), unfolding(crate::specs::View::state_of))]
    pub fn linked_name(&self, name: &[u8]) -> Option<u32>
        ensures { result ≡ linked_name_of name.now (state_of self.now) }
    {
        self.names.find(name)
    }

    /// The structures, in order of first appearance.
    #[tactic(auto, using(crate::proofs::States::of_states), unfolding(crate::specs::View::state_of))]
    pub fn structures(&self) -> &[Structure]
        ensures { result.now ≡ structures_of (state_of self.now) }
    {
        self.structures.all()
    }

    /// The layouts of the structures.
    #[tactic(auto, using(crate::proofs::States::of_states), unfolding(crate::specs::View::state_of))]
    pub fn layouts(&self) -> &[Layout]
        ensures { result.now ≡ layouts_of (state_of self.now) }
    {
        self.structures.layouts()
    }

    /// The automatic objects of the function.
    #[tactic(auto, using(crate::proofs::States::of_states), unfolding(crate::specs::View::state_of))]
    pub fn locals(&self) -> &[(Name, CType)]
        ensures { result.now ≡ (state_of self.now).locals }
    {
        self.locals.as_slice()
    }

    /// Whether a place is the array whose initialiser is read and gives its bound.
    #[tactic(auto, using(crate::proofs::States::of_states), unfolding(crate::specs::View::state_of))]
    pub fn is_unfinished(&self, place: &Place) -> bool
        ensures { result ≡ is_unfinished_in place.now (state_of self.now) }
    {
        match &self.unfinished {
            None => false,
            Some(other) => same_variable(place, other),
        }
    }

    /// A name designates this in the innermost scope from now on.
    #[tactic(auto, using(crate::proofs::States::of_binding))]
    pub fn bind(&mut self, alloc: Global, name: &[u8], d: Designated) -> Result<(), NoMemory>
        ensures { OnOk result (state_of self.new ≡ bind_in name.now d (state_of self.old)) }
    {
        let mut scope = self.leave(alloc);
        scope.bind(alloc, name, d)?;
        self.enter(scope)
    }

    /// A tag designates this in the innermost scope from now on.
    #[tactic(auto, using(crate::proofs::States::of_binding))]
    pub fn bind_tag(&mut self, alloc: Global, name: &[u8], t: Tagged) -> Result<(), NoMemory>
        ensures { OnOk result (state_of self.new ≡ bind_tag_in name.now t (state_of self.old)) }
    {
        let mut scope = self.leave(alloc);
        scope.bind_tag(alloc, name, t)?;
        self.enter(scope)
    }

    /// A scope begins, with what is declared in it so far.
    #[tactic(auto, using(crate::proofs::States::of_states), unfolding(crate::specs::View::state_of))]
    pub fn enter(&mut self, scope: Scope) -> Result<(), NoMemory>
        ensures { OnOk result (state_of self.new ≡ entered scope (state_of self.old)) }
    {
        self.scopes.push(scope)?;
        Ok(())
    }

    /// The innermost scope ends.
    #[tactic(auto, using(crate::proofs::States::of_states), unfolding(crate::specs::View::state_of))]
    pub fn leave(&mut self, alloc: Global) -> Scope
        ensures scope { result ≡ innermost (state_of self.old).scopes }
        ensures left { state_of self.new ≡ left (state_of self.old) }
    {
        match self.scopes.pop() {
            None => Scope::new(alloc),
            Some(scope) => scope,
        }
    }

    /// One more of what has a place in memory of its own, with its number.
    #[tactic(auto, using(crate::proofs::States::of_states), unfolding(crate::specs::View::state_of))]
    pub fn declare(&mut self, alloc: Global, d: Declared) -> Result<u32, NoMemory>
        ensures number { IfOk result (λ i. i ≡ length (state_of self.old).names) }
        ensures state { OnOk result (state_of self.new ≡ with_declared d (state_of self.old)) }
    {
        self.names.add(alloc, d)
    }

    /// So many names stay: what the operand of sizeof names is not evaluated (C99 6.5.3.4, 2).
    #[tactic(auto, using(crate::proofs::States::of_states), unfolding(crate::specs::View::state_of))]
    pub fn forget_names(&mut self, count: usize)
        ensures { state_of self.new ≡ with_names (take count (state_of self.old).names) (state_of self.old) }
    {
        self.names.truncate(count);
    }

    /// A tentative definition of a name, at this offset (C99 6.9.2, 2).
    #[tactic(auto, using(crate::proofs::States::of_states), unfolding(crate::specs::View::state_of))]
    pub fn define_tentatively(&mut self, id: u32, at: u32)
        ensures { state_of self.new ≡ change_name id (tentative_at at) (state_of self.old) }
    {
        self.names.define_tentatively(id, at);
    }

    /// A definition of a name, of this type. So many that no `u32` counts them are as want of memory.
    #[tactic(auto, using(crate::proofs::States::of_states), unfolding(crate::specs::View::state_of))]
    pub fn define(&mut self, id: u32, at: u32, ctype: CType, kind: UnitKind) -> Result<(), NoMemory>
        ensures { OnOk result (state_of self.new ≡ change_name id (defined_at at ctype kind) (state_of self.old)) }
    {
        self.names.define(id, at, ctype, kind)
    }

    /// What attributes say of a function.
    #[tactic(auto, using(crate::proofs::States::of_states), unfolding(crate::specs::View::state_of))]
    pub fn add_entry(&mut self, alloc: Global, id: u32, entry: Option<Entry>)
        ensures { state_of self.new ≡ change_name id (with_entry entry) (state_of self.old) }
    {
        self.names.add_entry(alloc, id, entry);
    }

    /// The first values of an object.
    #[tactic(auto, using(crate::proofs::States::of_states), unfolding(crate::specs::View::state_of))]
    pub fn set_values(&mut self, id: u32, leaves: List<Leaf>)
        ensures { state_of self.new ≡ change_name id (with_values leaves) (state_of self.old) }
    {
        self.names.set_values(id, leaves);
    }

    /// The initialiser of this array is read, or that of none that is incomplete.
    #[tactic(auto, using(crate::proofs::States::of_states), unfolding(crate::specs::View::state_of))]
    pub fn set_unfinished(&mut self, place: Option<Place>)
        ensures { state_of self.new ≡ with_unfinished place (state_of self.old) }
    {
        self.unfinished = place;
    }

    /// One more automatic object, with its number. So many that no `u32` counts them are as want of memory.
    #[tactic(auto, using(crate::proofs::States::of_states), unfolding(crate::specs::View::state_of))]
    pub fn add_local(&mut self, name: Name, ctype: CType) -> Result<u32, NoMemory>
        ensures number { IfOk result (λ i. i ≡ length (state_of self.old).locals) }
        ensures state { OnOk result (state_of self.new ≡ with_locals ((state_of self.old).locals ++ (name, ctype) ∷ []) (state_of self.old)) }
    {
        let Ok(id) = u32::try_from(self.locals.len()) else {
            return Err(NoMemory);
        };
        self.locals.push((name, ctype))?;
        Ok(id)
    }

    /// These are the automatic objects, and those before are given back.
    #[tactic(auto, using(crate::proofs::States::of_states), unfolding(crate::specs::View::state_of))]
    pub fn replace_locals(&mut self, locals: List<(Name, CType)>) -> List<(Name, CType)>
        ensures before { result ≡ (state_of self.old).locals }
        ensures state { state_of self.new ≡ with_locals locals (state_of self.old) }
    {
        List::of(replace(&mut self.locals, locals.into_vec()))
    }

    /// One more structure, which is only named, with its number. So many that no `u32` counts them are as want of
    /// memory.
    #[tactic(auto, using(crate::proofs::States::of_states), unfolding(crate::specs::View::state_of))]
    pub fn add_structure(&mut self, alloc: Global, tag: Option<&Name>) -> Result<u32, NoMemory>
        ensures { IfOk result (λ i. (i, state_of self.new) ≡ with_structure (option_copied tag.entry) (state_of self.old)) }
    {
        let Ok(id) = u32::try_from(self.structures().len()) else {
            return Err(NoMemory);
        };
        self.structures.add(alloc, tag)?;
        Ok(id)
    }

    /// Whether a structure is complete.
    #[tactic(auto, using(crate::proofs::States::of_states), unfolding(crate::specs::View::state_of))]
    pub fn has_content(&self, id: u32) -> bool
        ensures { result ≡ has_content_in (slice_get (state_of self.now).structures id) }
    {
        self.structures.has_content(id)
    }

    /// A structure has these members from now on. One of 2^64 bytes is as want of memory.
    #[tactic(auto, using(crate::proofs::States::of_states), unfolding(crate::specs::View::state_of))]
    pub fn complete(
        &mut self,
        target: &Target,
        id: u32,
        members: List<(Name, CType)>,
    ) -> Result<(), NoMemory>
        ensures { OnOk result (state_of self.new ≡ completed_in target.now id members (state_of self.old)) }
    {
        let layouts = self.structures.layouts();
        let Some(layout) = structure_layout(layouts, target, members.all()) else {
            return Err(NoMemory);
        };
        self.structures.complete(id, members, layout)?;
        Ok(())
    }

    /// The first name that the typedef which defines a structure declares.
    #[tactic(auto, using(crate::proofs::States::of_states), unfolding(crate::specs::View::state_of))]
    pub fn set_alias(&mut self, id: u32, alias: Option<Name>)
        ensures { state_of self.new ≡ with_structures (change_at id (with_alias alias) (state_of self.old).structures) (state_of self.old) }
    {
        self.structures.set_alias(id, alias);
    }

    /// The size and the alignment of a type; a size that 64 bits do not hold is the greatest that they hold.
    #[tactic(auto, using(crate::proofs::States::of_states), unfolding(crate::specs::View::state_of))]
    pub fn layout(&self, target: &Target, t: &CType) -> Layout
        ensures { result ≡ saturated (type_layout target.now (layouts_of (state_of self.now)) t.now) }
    {
        type_layout_in(self.structures.layouts(), target, t)
    }
}
