//! Parameters of functions (C99 6.7.5.3).

ghost use Rattle.std.specs.Prelude.{map, length};
ghost use Rattle.cc_typed_terms.specs.Parameters.{parameter as parameter_of, parameter_bound as parameter_bound_of};
ghost use Rattle.cc_scopes.specs.Outcomes.{Gives};
ghost use Rattle.cc_scopes.specs.State.{State as Known};
ghost use Rattle.cc_scopes.specs.Verdicts.{and_then, whole};
ghost use Rattle.cc_scopes.specs.View.{state_of};
ghost use Rattle.cc_typed_terms.specs.CcSpecifiers.Parameters.{parameter_type as parameter_type_of};
ghost use Rattle.cc_terms.specs.Declarators.{parameter_declared as parameter_declared_of, parameters_found};
ghost use Rattle.cc_terms.specs.InTurn.{one_more as one_more_of};
ghost use Rattle.cc_terms.specs.Terms.{params_of, param_of, param_here};

use crate::declarators::declr;
use crate::specifiers::specified;
use cc_program::num::{List, Name, Target};
use cc_scopes::{Scope, State, Stop, placed};
use cc_tree::{At, Param, Params};
use cc_typed_terms::specifiers_crate::{
    Allowed, Entity, Parameter, Setting, Where, parameter_type,
};
use cc_typed_terms::syntax::{CType, Roles};
use cc_typed_terms::{ScopedDeclarator, derived_type, no_parameters, parameter_bound};
use std::alloc::Global;

/// What stands between the parentheses of a function's declarator. The flag says that parameters need no names.
#[cycle(terms)]
#[tactic(auto, using(cc_scopes::proofs::Outcomes::of_outcomes), unfolding(crate::specs::Terms::params_of, crate::specs::Terms::param_of))]
pub fn params(
    ps: &Params,
    unnamed: bool,
    alloc: Global,
    target: &Target,
    roles: &Roles,
    state: &mut State,
) -> Result<(List<Parameter>, Scope), Stop>
    ensures { Gives (λ ps. ps) result (state_of state.new) (params_of target.now roles.now ps.now unnamed (state_of state.old)) }
{
    match ps {
        Params::Empty => Ok(no_parameters(alloc)),
        Params::Void => Ok(no_parameters(alloc)),
        Params::Many(ps) => {
            state.enter(Scope::new(alloc))?;
            let ps = parameter_list(ps, unnamed, alloc, target, roles, state)?;
            let scope = state.leave(alloc);
            Ok((ps, scope))
        }
    }
}

/// The parameters, from left to right.
#[cycle(terms)]
#[tactic(auto, using(crate::proofs::InTurn::of_turns))]
fn parameter_list(
    ps: &List<At<Param>>,
    unnamed: bool,
    alloc: Global,
    target: &Target,
    roles: &Roles,
    state: &mut State,
) -> Result<List<Parameter>, Stop>
    ensures { Gives (λ ps. ps) result (state_of state.new) (parameters_found unnamed (map (param_here target.now roles.now) ps.now) (state_of state.old)) }
{
    let mut params = List::of(Vec::new(alloc));
    for p in ps.all() {
        params = param(&p.node, unnamed, params, alloc, target, roles, state)?;
    }
    Ok(params)
}

/// With a parameter more, behind those before.
#[cycle(terms)]
#[tactic(auto, using(cc_scopes::proofs::Outcomes::of_outcomes), unfolding(crate::specs::Terms::param_of, crate::specs::Terms::spec_of, crate::specs::Terms::declr_of))]
fn param(
    p: &Param,
    unnamed: bool,
    before: List<Parameter>,
    alloc: Global,
    target: &Target,
    roles: &Roles,
    state: &mut State,
) -> Result<List<Parameter>, Stop>
    ensures { Gives (λ ps. ps) result (state_of state.new) (param_of target.now roles.now p.now unnamed before (state_of state.old)) }
{
    let base = {
        let setting = Setting::of(alloc, Where::AsParameter, Entity::Parameter)?;
        specified(&p.specs, &setting, alloc, target, roles, state)?.ctype
    };
    let allowed = Allowed::in_parameter();
    let d = &p.declr;
    let x = declr(&d.node, d.at, allowed, alloc, target, roles, state)?;
    parameter_declared(unnamed, before, base, d.at, x, alloc, target, roles, state)
}

/// One more, behind those before.
fn one_more(before: List<Parameter>, p: Parameter) -> Result<List<Parameter>, Stop>
    ensures { (s : Known) → Gives (λ ps. ps) result s (one_more_of before (Ok (p, s))) }
{
    let mut params = before.into_vec();
    params.push(p)?;
    Ok(List::of(params))
}

/// A parameter that is declared with this name and type, at its position among the parameters.
#[tactic(auto, using(cc_scopes::proofs::Outcomes::of_outcomes))]
fn parameter_of_type(
    unnamed: bool,
    before: List<Parameter>,
    t: CType,
    at: u32,
    name: Option<Name>,
    alloc: Global,
    roles: &Roles,
    state: &mut State,
) -> Result<List<Parameter>, Stop>
    ensures { Gives (λ ps. ps) result (state_of state.new) (and_then (whole at (state_of state.old) (parameter_type_of t)) (λ t s. one_more_of before (parameter_bound_of roles.now unnamed (length before) (parameter_of at name t) s name))) }
{
    let ctype = placed(at, parameter_type(alloc, t))?;
    let Ok(position) = u32::try_from(before.all().len()) else {
        return Err(Stop::NoMemory);
    };
    let p = Parameter { name, ctype, at };
    let p = parameter_bound(alloc, roles, unnamed, position, p, state)?;
    one_more(before, p)
}

/// What a declarator declares of this type, at its position among the parameters.
#[tactic(auto, using(cc_scopes::proofs::Outcomes::of_outcomes))]
fn parameter_declared(
    unnamed: bool,
    before: List<Parameter>,
    base: CType,
    at: u32,
    d: ScopedDeclarator,
    alloc: Global,
    target: &Target,
    roles: &Roles,
    state: &mut State,
) -> Result<List<Parameter>, Stop>
    ensures { Gives (λ ps. ps) result (state_of state.new) (parameter_declared_of target.now roles.now unnamed before base at d (state_of state.old)) }
{
    let t = derived_type(alloc, target, Allowed::in_parameter(), base, &d, state)?;
    parameter_of_type(unnamed, before, t, at, d.name, alloc, roles, state)
}
