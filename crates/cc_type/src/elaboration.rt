//! The typed unit of a tree, or a type rule that it breaks.

ghost use Rattle.std.specs.Prelude.{◌≡◌, IfOk, IfErr};
ghost use Rattle.cc_type.specs.Typed.{IsTyped, Refuses, fault_by};
ghost use Rattle.cc_type.specs.Units.{unit_of};

use crate::defined::defined_names;
use crate::fault::TypeFault;
use crate::units::items;
use cc_numbering::unit_left;
use cc_program::num::Target;
use cc_scopes::{State, Stop};
use cc_tree::Unit;
use cc_typed_bodies::syntax::Roles;
use cc_typed_bodies::unit::TypedUnit;
use std::alloc::Global;

/// Why a unit has no types by which a construct in it has none.
fn fault_of(stop: Stop) -> TypeFault
    ensures { result ≡ fault_by stop }
{
    match stop {
        Stop::Broken(fault) => TypeFault::Broken {
            rule: fault.rule.number(),
            at: fault.at,
        },
        Stop::NoMemory => TypeFault::NoMemory,
    }
}

/// The typed unit of a tree at a target, or a rule that it breaks (C99 6.2 to 6.9).
#[tactic(auto, using(crate::proofs::Refused::of_faults), unfolding(crate::specs::Units::unit_of))]
pub fn elaborate(
    alloc: Global,
    unit: &Unit,
    target: &Target,
    roles: &Roles,
) -> Result<TypedUnit, TypeFault>
    ensures typed { IfOk result (λ t. IsTyped unit.now target.now roles.now t) }
    ensures broken { IfErr result (λ e. Refuses target.now roles.now unit.now e) }
{
    let defined = defined_names(alloc, unit)?;
    let mut state = State::new(alloc)?;
    match items(&unit.items, defined.all(), alloc, target, roles, &mut state) {
        Err(stop) => Err(fault_of(stop)),
        Ok(()) => Ok(unit_left(alloc, &state)?),
    }
}
