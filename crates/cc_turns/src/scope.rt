//! The typedef names in scope.

ghost use Rattle.std.specs.Prelude.{◌≡◌, [], length, take, Ok as OkOf};
ghost use Rattle.cc_tree.specs.Reading.{Gives};
ghost use Rattle.cc_tree.specs.Machine.{with_typedef};
ghost use Rattle.cc_tree.specs.Scopes.{is_typedef as is_typedef_of};

use cc_num::Name;
use cc_tree::stop::Stop;
use indexmap::IndexSet;
use std::alloc::Global;
use std::marker::Model;

/// The typedef names in scope, in order of declaration. Contracts see the list of them.
#[derive(Drop)]
pub struct Scope {
    names: IndexSet<Vec<u8>>,
}

impl Model for Scope {
    ghost use Rattle.std.specs.Prelude.{ℕ, List as ListOf};

    ghost Value = { ListOf (ListOf ℕ) };

    ghost use Rattle.cc_turns.specs.ScopeNames.{names_of};

    ghost view = { λ s. names_of s.names };
}

impl Scope {
    /// No name is in scope.
    #[tactic(auto, using(crate::proofs::ScopeNames::of_names))]
    pub fn new(alloc: Global) -> Scope
        ensures { result ≡ [] }
    {
        Scope {
            names: IndexSet::new(alloc),
        }
    }

    /// How many names are in scope.
    #[tactic(auto, using(crate::proofs::ScopeNames::of_names))]
    pub fn len(&self) -> usize
        ensures { result ≡ length self.now }
    {
        self.names.len()
    }

    /// Whether a name is one of a typedef in scope.
    #[tactic(auto, using(crate::proofs::ScopeNames::of_names))]
    pub fn is_typedef(&self, name: &[u8]) -> bool
        ensures { result ≡ is_typedef_of self.now name.now }
    {
        self.names.contains(name)
    }

    /// A name is in scope from now on.
    #[tactic(auto, using(crate::proofs::ScopeNames::of_names))]
    pub fn declare(&mut self, name: Name) -> Result<(), Stop>
        ensures { Gives (λ _. self.new) result (OkOf (with_typedef name self.old (is_typedef_of self.old name))) }
    {
        self.names.insert(name.into_vec())?;
        Ok(())
    }

    /// As many names as this stay.
    #[tactic(auto, using(crate::proofs::ScopeNames::of_names))]
    pub fn leave(&mut self, count: usize)
        ensures { self.new ≡ take count self.old }
    {
        self.names.truncate(count);
    }
}
