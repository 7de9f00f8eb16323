//! Declarations of members (C99 6.7.2.1).

ghost use Rattle.std.specs.Prelude.{map};
ghost use Rattle.cc_typed_terms.specs.Declarators.{derived_type as derived_type_of};
ghost use Rattle.cc_scopes.specs.Outcomes.{Gives};
ghost use Rattle.cc_scopes.specs.View.{state_of};
ghost use Rattle.cc_typed_terms.specs.CcSpecifiers.Derivations.{nothing_more as nothing_more_of};
ghost use Rattle.cc_terms.specs.Members.{member_found, declared_members as declared_members_of};
ghost use Rattle.cc_terms.specs.Structures.{member_behind as member_behind_of};
ghost use Rattle.cc_terms.specs.Terms.{members_of, declr_of, declr_here};

use crate::declarators::declr;
use crate::specifiers::specified;
use cc_program::num::{List, Target};
use cc_scopes::{State, Stop, placed};
use cc_tree::{At, Declr, MemberDecl};
use cc_typed_terms::specifiers_crate::{Allowed, Entity, Setting, Where};
use cc_typed_terms::syntax::{CType, Roles};
use cc_typed_terms::{Members, ScopedDeclarator, derived_type, with_member};
use std::alloc::Global;

/// A declaration of members, behind those before.
#[cycle(terms)]
#[tactic(auto, using(cc_scopes::proofs::Outcomes::of_outcomes), unfolding(crate::specs::Terms::members_of, crate::specs::Terms::spec_of, crate::specs::Terms::declr_of))]
pub fn member_decl(
    d: &MemberDecl,
    members: Members,
    alloc: Global,
    target: &Target,
    roles: &Roles,
    state: &mut State,
) -> Result<Members, Stop>
    ensures { Gives (λ ms. ms) result (state_of state.new) (members_of target.now roles.now d.now members (state_of state.old)) }
{
    let base = {
        let setting = Setting::of(alloc, Where::AsMember, Entity::Member)?;
        specified(&d.specs, &setting, alloc, target, roles, state)?.ctype
    };
    declared_members(&d.declrs, members, &base, alloc, target, roles, state)
}

/// The members that declarators declare, behind those before.
#[cycle(terms)]
#[tactic(auto, using(crate::proofs::InTurn::of_turns))]
fn declared_members(
    ds: &List<At<Declr>>,
    members: Members,
    base: &CType,
    alloc: Global,
    target: &Target,
    roles: &Roles,
    state: &mut State,
) -> Result<Members, Stop>
    ensures { Gives (λ ms. ms) result (state_of state.new) (declared_members_of target.now base.now (map (declr_here target.now roles.now) ds.now) members (state_of state.old)) }
{
    let mut members = members;
    for d in ds.all() {
        members = member(&d.node, d.at, members, base, alloc, target, roles, state)?;
    }
    Ok(members)
}

/// The member that a declarator declares, behind those before.
#[cycle(terms)]
fn member(
    d: &Declr,
    at: u32,
    members: Members,
    base: &CType,
    alloc: Global,
    target: &Target,
    roles: &Roles,
    state: &mut State,
) -> Result<Members, Stop>
    ensures { Gives (λ ms. ms) result (state_of state.new) (member_found target.now base.now (record { at = at; node = declr_of target.now roles.now d.now }) members (state_of state.old)) }
{
    let x = declr(d, at, Allowed::nothing_more(), alloc, target, roles, state)?;
    member_behind(base, at, members, x, alloc, target, state)
}

/// The type that a declarator gives a member, of this type.
#[tactic(auto, using(cc_scopes::proofs::Outcomes::of_outcomes))]
fn member_type(
    base: &CType,
    d: &ScopedDeclarator,
    alloc: Global,
    target: &Target,
    state: &State,
) -> Result<CType, Stop>
    ensures { Gives (λ t. t) result (state_of state.now) (derived_type_of target.now nothing_more_of base.now d.now (state_of state.now)) }
{
    let base = base.copy(alloc)?;
    derived_type(alloc, target, Allowed::nothing_more(), base, d, state)
}

/// What a declarator declares of this type, behind the members before.
#[tactic(auto, using(cc_scopes::proofs::Outcomes::of_outcomes))]
fn member_behind(
    base: &CType,
    at: u32,
    members: Members,
    d: ScopedDeclarator,
    alloc: Global,
    target: &Target,
    state: &State,
) -> Result<Members, Stop>
    ensures { Gives (λ ms. ms) result (state_of state.now) (member_behind_of target.now base.now at members d (state_of state.now)) }
{
    let t = member_type(base, &d, alloc, target, state)?;
    placed(at, with_member(target, state, members, d.name, t))
}
