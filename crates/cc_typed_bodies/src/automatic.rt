//! Automatic objects, and the assignments by which they are initialised (C99 6.2.4, 4; 6.7.8).

ghost use Rattle.std.specs.Prelude.{◌≡◌};
ghost use Rattle.std.specs.Option.{option_copied};
ghost use Rattle.cc_terms.specs.CcOperands.Qualified.{without_const as without_const_of};
ghost use Rattle.cc_scopes.specs.Outcomes.{Gives};
ghost use Rattle.cc_scopes.specs.View.{state_of};
ghost use Rattle.cc_typed_bodies.specs.Objects.{exprs_found, automatic_given as automatic_given_of, automatic_left as automatic_left_of};

use crate::plans::exprs;
use cc_initialisers::{initialised, scalar_places};
use cc_objects::{assignments, completed, declare_automatic, set_incomplete, type_given};
use cc_program::num::{List, Name, Target};
use cc_scopes::{State, Stop, placed};
use cc_terms::operands::without_const;
use cc_terms::syntax::{CType, Expr, Place, Roles};
use cc_tree::{At, Given};
use std::alloc::Global;

/// What the scalars of an automatic object are assigned. It is declared at a place with the first type, has the second,
/// and is written as one of the third.
#[tactic(auto, using(cc_scopes::proofs::Outcomes::of_outcomes))]
fn values_given(
    at: u32,
    id: u32,
    t: &CType,
    u: &CType,
    own: &CType,
    g: &At<Given>,
    alloc: Global,
    target: &Target,
    roles: &Roles,
    state: &mut State,
) -> Result<Vec<Expr>, Stop>
    requires { own.now ≡ without_const_of u.now }
    ensures { Gives (λ es. es.items) result (state_of state.new) (exprs_found target.now roles.now at id t.now u.now g.now (state_of state.old)) }
{
    let steps = initialised(alloc, state.structures(), own, g)?;
    set_incomplete(t, Place::Local(id), state);
    let values = exprs(steps.as_slice(), alloc, target, roles, state)?;
    placed(at, completed(target, t, u, state))?;
    state.set_unfinished(None);
    Ok(values)
}

#[tactic(auto, using(cc_scopes::proofs::Outcomes::of_outcomes))]
fn automatic_given(
    at: u32,
    t: &CType,
    u: &CType,
    id: u32,
    value: Option<&At<Given>>,
    alloc: Global,
    target: &Target,
    roles: &Roles,
    state: &mut State,
) -> Result<List<Expr>, Stop>
    ensures { Gives (λ es. es) result (state_of state.new) (automatic_given_of target.now roles.now at t.now u.now id (option_copied value.entry) (state_of state.old)) }
{
    let Some(g) = value else {
        return Ok(List::of(Vec::new(alloc)));
    };
    let own = without_const(alloc, u)?;
    let values = values_given(at, id, t, u, &own, g, alloc, target, roles, state)?;
    let places = scalar_places(alloc, target, state.structures(), &own, Place::Local(id))?;
    Ok(assignments(alloc, places.as_slice(), values)?)
}

/// An automatic object.
pub fn automatic_left(
    at: u32,
    x: &Name,
    t: &CType,
    value: Option<&At<Given>>,
    alloc: Global,
    target: &Target,
    roles: &Roles,
    state: &mut State,
) -> Result<List<Expr>, Stop>
    ensures { Gives (λ es. es) result (state_of state.new) (automatic_left_of target.now roles.now at x.now t.now (option_copied value.entry) (state_of state.old)) }
{
    let u = type_given(alloc, t, value, state)?;
    let id = declare_automatic(alloc, x, &u, state)?;
    automatic_given(at, t, &u, id, value, alloc, target, roles, state)
}
