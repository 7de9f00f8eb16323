//! Enumerations with their constants (C99 6.7.2.2).

ghost use Rattle.std.specs.Prelude.{map};
ghost use Rattle.cc_typed_terms.specs.CcOperands.View.{constant_view};
ghost use Rattle.cc_scopes.specs.Outcomes.{Gives};
ghost use Rattle.cc_scopes.specs.View.{state_of};
ghost use Rattle.cc_terms.specs.Constants.{constants_found, enumeration_found, constant_declared as constant_declared_of};
ghost use Rattle.cc_terms.specs.Terms.{enumr_of, enumr_here};

use crate::trees::operand;
use cc_program::num::{List, Name, Target};
use cc_scopes::{
    Designated, State, Stop, begin_list, enumeration_closed, enumeration_constant, has_tag_here,
    placed,
};
use cc_tree::{At, Enumr};
use cc_typed_terms::new_name;
use cc_typed_terms::operands::Constant;
use cc_typed_terms::specifiers_crate::Specifier;
use cc_typed_terms::syntax::Roles;
use std::alloc::Global;

/// `enum x { .. }` (C99 6.7.2.2).
#[cycle(terms)]
#[tactic(auto, using(cc_scopes::proofs::Outcomes::of_outcomes))]
pub fn enumeration(
    cs: &List<At<Enumr>>,
    tag: &Option<Name>,
    at: u32,
    alloc: Global,
    target: &Target,
    roles: &Roles,
    state: &mut State,
) -> Result<Specifier, Stop>
    ensures { Gives (λ x. x) result (state_of state.new) (enumeration_found at tag.now (map (enumr_here target.now roles.now) cs.now) (state_of state.old)) }
{
    let clash = has_tag_here(state, tag);
    begin_list(state, alloc, tag)?;
    let _next = constant_list(cs, alloc, target, roles, state)?;
    let t = enumeration_closed(state, alloc, at, clash, tag)?;
    Ok(Specifier::Type(t))
}

/// The constants of an enumeration, one behind another.
#[cycle(terms)]
#[tactic(auto, using(crate::proofs::InTurn::of_turns))]
fn constant_list(
    cs: &List<At<Enumr>>,
    alloc: Global,
    target: &Target,
    roles: &Roles,
    state: &mut State,
) -> Result<i128, Stop>
    ensures { Gives (λ next. next) result (state_of state.new) (constants_found (map (enumr_here target.now roles.now) cs.now) (state_of state.old)) }
{
    let mut next: i128 = 0;
    for c in cs.all() {
        next = enumerator(&c.node, next, c.at, alloc, target, roles, state)?;
    }
    Ok(next)
}

/// A constant of an enumeration, which has the value `next` where none is given; and the value that one behind it has so.
#[cycle(terms)]
#[tactic(auto, using(cc_scopes::proofs::Outcomes::of_outcomes), unfolding(crate::specs::Terms::enumr_of, crate::specs::Terms::tree_of))]
fn enumerator(
    c: &Enumr,
    next: i128,
    at: u32,
    alloc: Global,
    target: &Target,
    roles: &Roles,
    state: &mut State,
) -> Result<i128, Stop>
    ensures { Gives (λ next. next) result (state_of state.new) (enumr_of target.now roles.now c.now next at (state_of state.old)) }
{
    match &c.value {
        None => {
            let given = Constant::Value(next);
            constant_declared(at, &c.name, given, alloc, target, roles, state)
        }
        Some(e) => {
            let x = operand(&e.node, e.at, alloc, target, roles, state)?;
            constant_declared(at, &c.name, x.constancy(), alloc, target, roles, state)
        }
    }
}

/// A constant of this value; and the value that one behind it has where none is given.
#[tactic(auto, using(cc_scopes::proofs::Outcomes::of_outcomes))]
fn constant_declared(
    at: u32,
    name: &Name,
    given: Constant,
    alloc: Global,
    target: &Target,
    roles: &Roles,
    state: &mut State,
) -> Result<i128, Stop>
    ensures { Gives (λ next. next) result (state_of state.new) (constant_declared_of target.now roles.now at name.now (constant_view given) (state_of state.old)) }
{
    let n = placed(at, enumeration_constant(target, given))?;
    placed(at, new_name(roles, name.all(), state))?;
    state.bind(alloc, name.all(), Designated::Enumerator(n))?;
    let Some(next) = n.checked_add(1) else {
        return Err(Stop::NoMemory);
    };
    Ok(next)
}
