//! The scope of a block (C99 6.2.1, 4).

ghost use Rattle.std.specs.Prelude.{◌≡◌, OnOk};
ghost use Rattle.cc_scopes.specs.State.{empty, entered, left};
ghost use Rattle.cc_scopes.specs.View.{state_of};

use cc_program::num::NoMemory;
use cc_scopes::{Scope, State};
use std::alloc::Global;

/// A scope begins, with nothing in it.
pub fn enter(alloc: Global, state: &mut State) -> Result<(), NoMemory>
    ensures { OnOk result (state_of state.new ≡ entered empty (state_of state.old)) }
{
    state.enter(Scope::new(alloc))
}

/// The innermost scope ends.
pub fn leave(alloc: Global, state: &mut State)
    ensures { state_of state.new ≡ left (state_of state.old) }
{
    state.leave(alloc);
}
