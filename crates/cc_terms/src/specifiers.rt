//! Specifiers (C99 6.7.1 to 6.7.3).

ghost use Rattle.std.specs.Prelude.{map};
ghost use Rattle.cc_scopes.specs.Outcomes.{Gives};
ghost use Rattle.cc_scopes.specs.View.{state_of};
ghost use Rattle.cc_terms.specs.Specifiers.{specifier_found, specifiers_found, specified_found};
ghost use Rattle.cc_terms.specs.Terms.{spec_of, spec_here};

use crate::constants::enumeration;
use crate::structures::structure;
use cc_program::num::{List, Target};
use cc_scopes::{State, Stop, placed};
use cc_tree::{At, Spec};
use cc_typed_terms::specifiers_crate::{Setting, Specified, Specifier, Specs, no_specifier};
use cc_typed_terms::syntax::Roles;
use cc_typed_terms::{begin, enumeration_tagged, marked, structure_tagged, type_named};
use std::alloc::Global;

/// Specifiers in a setting, with the type that they name.
#[cycle(terms)]
#[tactic(auto, using(cc_scopes::proofs::Outcomes::of_outcomes))]
pub fn specified(
    xs: &List<At<Spec>>,
    setting: &Setting,
    alloc: Global,
    target: &Target,
    roles: &Roles,
    state: &mut State,
) -> Result<Specified, Stop>
    ensures { Gives (λ x. x) result (state_of state.new) (specified_found setting.now (map (spec_here target.now roles.now) xs.now) (state_of state.old)) }
{
    let specs = specifiers(xs, setting, alloc, target, roles, state)?;
    placed(begin(xs.all()), specs.typed(alloc))
}

/// Specifiers, one behind another.
#[cycle(terms)]
#[tactic(auto, using(crate::proofs::InTurn::of_turns))]
fn specifiers(
    xs: &List<At<Spec>>,
    setting: &Setting,
    alloc: Global,
    target: &Target,
    roles: &Roles,
    state: &mut State,
) -> Result<Specs, Stop>
    ensures { Gives (λ x. x) result (state_of state.new) (specifiers_found setting.now (map (spec_here target.now roles.now) xs.now) (state_of state.old)) }
{
    let mut specs = no_specifier(alloc);
    for x in xs.all() {
        specs = specifier(&x.node, x.at, setting, specs, alloc, target, roles, state)?;
    }
    Ok(specs)
}

/// With a specifier more.
#[cycle(terms)]
#[tactic(auto, using(cc_scopes::proofs::Outcomes::of_outcomes))]
fn specifier(
    x: &Spec,
    at: u32,
    setting: &Setting,
    specs: Specs,
    alloc: Global,
    target: &Target,
    roles: &Roles,
    state: &mut State,
) -> Result<Specs, Stop>
    ensures { Gives (λ x. x) result (state_of state.new) (specifier_found setting.now (record { at = at; node = spec_of target.now roles.now x.now }) specs (state_of state.old)) }
{
    let p = spec(x, at, alloc, target, roles, state)?;
    placed(at, specs.with_specifier(setting, at, p))
}

/// A specifier that begins at this place.
#[cycle(terms)]
#[tactic(auto, using(cc_scopes::proofs::Outcomes::of_outcomes), unfolding(crate::specs::Terms::spec_of, crate::specs::Terms::members_of, crate::specs::Terms::enumr_of))]
fn spec(
    x: &Spec,
    at: u32,
    alloc: Global,
    target: &Target,
    roles: &Roles,
    state: &mut State,
) -> Result<Specifier, Stop>
    ensures { Gives (λ x. x) result (state_of state.new) (spec_of target.now roles.now x.now at (state_of state.old)) }
{
    match x {
        Spec::Word(word) => Ok(Specifier::Word(*word)),
        Spec::Named(x) => placed(at, type_named(alloc, state.designated(x.all()))),
        Spec::Struct(tag, members, front, behind) => match members {
            Some(ds) => structure(ds, tag, front, behind, at, alloc, target, roles, state),
            None => structure_tagged(alloc, tag, at, state),
        },
        Spec::Enum(tag, constants) => match constants {
            Some(cs) => enumeration(cs, tag, at, alloc, target, roles, state),
            None => enumeration_tagged(tag, at, state),
        },
        Spec::Attr(a) => placed(at, marked(alloc, a)),
    }
}
