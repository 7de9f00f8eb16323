//! Objects with linkage: definitions, tentative ones, and declarations that are none (C99 6.9.2).

ghost use Rattle.std.specs.Prelude.{◌≡◌};
ghost use Rattle.std.specs.Option.{option_copied};
ghost use Rattle.cc_scopes.specs.Outcomes.{Gives};
ghost use Rattle.cc_scopes.specs.View.{state_of};
ghost use Rattle.cc_typed_bodies.specs.Objects.{linked_defined as linked_defined_of, linked_given as linked_given_of, linked_left as linked_left_of};

use crate::statics::first_values;
use cc_linkage::DeclaredAs;
use cc_objects::{composite, declare_object, type_agrees, type_given};
use cc_program::num::{List, Name, Target, at};
use cc_scopes::{State, Stop, UnitKind, placed};
use cc_terms::syntax::{CType, Expr, Roles};
use cc_tree::{At, Given};
use cc_typed_terms::leaves_or_none;
use std::alloc::Global;

/// A definition.
#[tactic(auto, using(cc_scopes::proofs::Outcomes::of_outcomes))]
fn linked_defined(
    place: u32,
    t: &CType,
    u: &CType,
    id: u32,
    g: &At<Given>,
    alloc: Global,
    target: &Target,
    roles: &Roles,
    state: &mut State,
) -> Result<List<Expr>, Stop>
    ensures { Gives (λ es. es) result (state_of state.new) (linked_defined_of target.now roles.now place t.now u.now id g.now (state_of state.old)) }
{
    let values = first_values(place, id, t, u, g, alloc, target, roles, state)?;
    placed(place, type_agrees(u, at(state.names(), id as usize)))?;
    let kind = UnitKind::Object(leaves_or_none(alloc, values));
    state.define(id, place, u.copy(alloc)?, kind)?;
    Ok(List::of(Vec::new(alloc)))
}

fn linked_given(
    place: u32,
    asked: DeclaredAs,
    t: &CType,
    u: &CType,
    id: u32,
    value: Option<&At<Given>>,
    alloc: Global,
    target: &Target,
    roles: &Roles,
    state: &mut State,
) -> Result<List<Expr>, Stop>
    ensures { Gives (λ es. es) result (state_of state.new) (linked_given_of target.now roles.now place asked t.now u.now id (option_copied value.entry) (state_of state.old)) }
{
    if let Some(g) = value {
        return linked_defined(place, t, u, id, g, alloc, target, roles, state);
    }
    match asked {
        DeclaredAs::AsExtern => {}
        DeclaredAs::AsStatic => state.define_tentatively(id, place),
        DeclaredAs::AsObject => state.define_tentatively(id, place),
    }
    Ok(List::of(Vec::new(alloc)))
}

/// An object with linkage. The names are those of the objects that the unit defines.
pub fn linked_left(
    place: u32,
    asked: DeclaredAs,
    x: &Name,
    t: &CType,
    value: Option<&At<Given>>,
    defined: &[Name],
    alloc: Global,
    target: &Target,
    roles: &Roles,
    state: &mut State,
) -> Result<List<Expr>, Stop>
    ensures { Gives (λ es. es) result (state_of state.new) (linked_left_of target.now roles.now defined.now place asked x.now t.now (option_copied value.entry) (state_of state.old)) }
{
    let t = composite(alloc, x.all(), t, state)?;
    let u = type_given(alloc, &t, value, state)?;
    let id = declare_object(alloc, defined, asked, x, &u, state)?;
    linked_given(place, asked, &t, &u, id, value, alloc, target, roles, state)
}
