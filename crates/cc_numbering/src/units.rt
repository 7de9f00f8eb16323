//! The unit that is left behind the items of a source.

ghost use Rattle.std.specs.Prelude.{◌≡◌, IfOk};
ghost use Rattle.cc_numbering.specs.Units.{ids_of, unit_left as unit_left_of};
ghost use Rattle.cc_scopes.specs.View.{state_of};

use crate::names::{names_in, own_ids};
use crate::numbers::{order, places};
use crate::structures::structures_in;
use cc_program::num::{List, NoMemory};
use cc_scopes::State;
use cc_scopes::unit_crate::{Ids, TypedUnit};
use std::alloc::Global;

/// The unit that is left behind the items of a source.
#[tactic(auto, using(crate::proofs::Known::of_lengths))]
pub fn unit_left(alloc: Global, state: &State) -> Result<TypedUnit, NoMemory>
    ensures { IfOk result (λ u. u ≡ unit_left_of (state_of state.now)) }
{
    let order = order(alloc, state)?;
    let structures = List::of(places(alloc, order.as_slice(), state.structures().len())?);
    let names = own_ids(alloc, state.names())?;
    let ids = Ids { structures, names };
    let structures = structures_in(alloc, state, ids.structures.all(), order.as_slice())?;
    let names = names_in(alloc, &ids, state.names())?;
    Ok(TypedUnit { structures, names })
}
