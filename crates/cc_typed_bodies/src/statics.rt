//! Static objects with their initialisers (C99 6.2.4, 3; 6.7.8, 4).

ghost use Rattle.std.specs.Prelude.{◌≡◌};
ghost use Rattle.std.specs.Option.{option_copied};
ghost use Rattle.cc_program.specs.declared.expr.Expr.{Expr as OfExpr};
ghost use Rattle.cc_scopes.specs.Outcomes.{Gives};
ghost use Rattle.cc_scopes.specs.View.{state_of};
ghost use Rattle.cc_typed_bodies.specs.Objects.{leaves_found, static_given as static_given_of, static_left as static_left_of};

use crate::plans::leaves;
use cc_initialisers::initialised;
use cc_objects::{completed, declare_static, set_incomplete, type_given};
use cc_program::num::{List, Name, Target};
use cc_scopes::{State, Stop, placed};
use cc_terms::syntax::{CType, Expr, Leaf, Place, Roles};
use cc_tree::{At, Given};
use cc_typed_terms::leaves_or_none;
use std::alloc::Global;

/// The first values of a static object by its number, which is declared at a place with the first type and has the
/// second.
#[tactic(auto, using(cc_scopes::proofs::Outcomes::of_outcomes))]
pub fn first_values(
    at: u32,
    id: u32,
    t: &CType,
    u: &CType,
    g: &At<Given>,
    alloc: Global,
    target: &Target,
    roles: &Roles,
    state: &mut State,
) -> Result<Vec<Leaf>, Stop>
    ensures { Gives (λ ls. ls.items) result (state_of state.new) (leaves_found target.now roles.now at id t.now u.now g.now (state_of state.old)) }
{
    let steps = initialised(alloc, state.structures(), u, g)?;
    set_incomplete(t, Place::Static(id), state);
    let values = leaves(steps.as_slice(), alloc, target, roles, state)?;
    placed(at, completed(target, t, u, state))?;
    state.set_unfinished(None);
    Ok(values)
}

#[tactic(auto, using(cc_scopes::proofs::Outcomes::of_outcomes))]
fn static_given(
    at: u32,
    t: &CType,
    u: &CType,
    id: u32,
    value: Option<&At<Given>>,
    alloc: Global,
    target: &Target,
    roles: &Roles,
    state: &mut State,
) -> Result<List<Expr>, Stop>
    ensures { Gives (λ es. es) result (state_of state.new) (static_given_of target.now roles.now at t.now u.now id (option_copied value.entry) (state_of state.old)) }
{
    let Some(g) = value else {
        return Ok(List::of(Vec::new(alloc)));
    };
    let values = first_values(at, id, t, u, g, alloc, target, roles, state)?;
    state.set_values(id, leaves_or_none(alloc, values));
    Ok(List::of(Vec::new(alloc)))
}

/// A static object of a block.
#[tactic(auto, using(cc_scopes::proofs::Outcomes::of_outcomes))]
pub fn static_left(
    at: u32,
    x: &Name,
    t: &CType,
    value: Option<&At<Given>>,
    alloc: Global,
    target: &Target,
    roles: &Roles,
    state: &mut State,
) -> Result<List<Expr>, Stop>
    ensures { Gives (λ es. es) result (state_of state.new) (static_left_of target.now roles.now at x.now t.now (option_copied value.entry) (state_of state.old)) }
{
    let u = type_given(alloc, t, value, state)?;
    let id = declare_static(alloc, at, x, &u, state)?;
    static_given(at, t, &u, id, value, alloc, target, roles, state)
}
