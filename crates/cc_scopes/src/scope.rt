//! A scope: its names and its tags, each with what it designates.

ghost use Rattle.std.specs.Prelude.{◌≡◌, OnOk};
ghost use Rattle.std.specs.Option.{option_copied};
ghost use Rattle.cc_scopes.specs.State.{empty, find_name, with_name};

use crate::designated::{Designated, Tagged};
use cc_program::num::NoMemory;
use indexmap::IndexMap;
use std::alloc::Global;
use std::marker::Model;

/// A scope (C99 6.2.1): what is declared in it so far.
#[derive(Drop)]
pub struct Scope {
    names: IndexMap<Vec<u8>, Designated>,
    tags: IndexMap<Vec<u8>, Tagged>,
}

impl Model for Scope {
    ghost use Rattle.cc_scopes.specs.State.{Scope as ScopeOf};
    ghost use Rattle.cc_program.specs.contracts.types.Shape as shape;
    ghost use Rattle.std.specs.Coded.{codes};

    ghost Value = { ScopeOf };

    ghost coded = { Prim.hlevel (codes, shape.the_row.coded) };

    ghost use Rattle.cc_scopes.specs.Maps.{scope_with};

    ghost view = { λ s. scope_with s.names s.tags };
}

impl Scope {
    /// A scope in which nothing is declared.
    #[tactic(auto, using(crate::proofs::ScopeMaps::of_scopes))]
    pub fn new(alloc: Global) -> Scope
        ensures { result ≡ empty }
    {
        Scope {
            names: IndexMap::new(alloc),
            tags: IndexMap::new(alloc),
        }
    }

    /// What a name designates that is declared here.
    #[tactic(auto, using(crate::proofs::ScopeMaps::of_scopes))]
    pub fn designated(&self, name: &[u8]) -> Option<&Designated>
        ensures { option_copied result ≡ find_name name.now self.now.names }
    {
        self.names.get(name)
    }

    /// What a tag designates that is declared here.
    #[tactic(auto, using(crate::proofs::ScopeMaps::of_scopes))]
    pub fn tagged(&self, name: &[u8]) -> Option<Tagged>
        ensures { result ≡ find_name name.now self.now.tags }
    {
        self.tags.get(name).copied()
    }

    /// The name designates this from now on.
    #[tactic(auto, using(crate::proofs::ScopeMaps::of_scopes))]
    pub fn bind(&mut self, alloc: Global, name: &[u8], d: Designated) -> Result<(), NoMemory>
        ensures { OnOk result (self.new ≡ record { names = with_name name.now d self.old.names; tags = self.old.tags }) }
    {
        let key = Vec::from_slice(alloc, name)?;
        self.names.insert(key, d)?;
        Ok(())
    }

    /// The tag designates this from now on.
    #[tactic(auto, using(crate::proofs::ScopeMaps::of_scopes))]
    pub fn bind_tag(&mut self, alloc: Global, name: &[u8], t: Tagged) -> Result<(), NoMemory>
        ensures { OnOk result (self.new ≡ record { names = self.old.names; tags = with_name name.now t self.old.tags }) }
    {
        let key = Vec::from_slice(alloc, name)?;
        self.tags.insert(key, t)?;
        Ok(())
    }
}
