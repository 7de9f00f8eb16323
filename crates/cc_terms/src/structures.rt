//! Structures (C99 6.7.2.1, 6.7.2.3).

ghost use Rattle.std.specs.Prelude.{map};
ghost use Rattle.cc_scopes.specs.Outcomes.{Gives};
ghost use Rattle.cc_scopes.specs.View.{state_of};
ghost use Rattle.cc_terms.specs.Structures.{structure_opened as structure_opened_of, members_found, structure_closed as structure_closed_of, structure_found};
ghost use Rattle.cc_terms.specs.Terms.{members_here};

use crate::members::member_decl;
use cc_program::num::{List, Name, Target};
use cc_scopes::{State, Stop, closed, is_enumeration_here, opened};
use cc_tree::{At, Attr, MemberDecl};
use cc_typed_terms::specifiers_crate::Specifier;
use cc_typed_terms::syntax::Roles;
use cc_typed_terms::{Members, of_structure};
use std::alloc::Global;

/// Whether its tag is an enumeration's here, and its number.
fn structure_opened(
    alloc: Global,
    tag: &Option<Name>,
    front: &List<At<Attr>>,
    state: &mut State,
) -> Result<(bool, u32), Stop>
    ensures { Gives (λ found. found) result (state_of state.new) (structure_opened_of tag.now front.now (state_of state.old)) }
{
    let _front = of_structure(alloc, front.all())?;
    let clash = is_enumeration_here(state, tag);
    let id = opened(state, alloc, tag)?;
    Ok((clash, id))
}

/// Behind its members.
fn structure_closed(
    alloc: Global,
    target: &Target,
    at: u32,
    behind: &List<At<Attr>>,
    clash: bool,
    id: u32,
    members: Members,
    state: &mut State,
) -> Result<Specifier, Stop>
    ensures { Gives (λ x. x) result (state_of state.new) (structure_closed_of target.now at behind.now clash id members (state_of state.old)) }
{
    let _behind = of_structure(alloc, behind.all())?;
    let t = closed(state, target, at, clash, id, members)?;
    Ok(Specifier::Type(t))
}

/// `struct x { .. }` (C99 6.7.2.1).
#[cycle(terms)]
#[tactic(auto, using(cc_scopes::proofs::Outcomes::of_outcomes))]
pub fn structure(
    ds: &List<At<MemberDecl>>,
    tag: &Option<Name>,
    front: &List<At<Attr>>,
    behind: &List<At<Attr>>,
    at: u32,
    alloc: Global,
    target: &Target,
    roles: &Roles,
    state: &mut State,
) -> Result<Specifier, Stop>
    ensures { Gives (λ x. x) result (state_of state.new) (structure_found target.now at tag.now (map (members_here target.now roles.now) ds.now) front.now behind.now (state_of state.old)) }
{
    let (clash, id) = structure_opened(alloc, tag, front, state)?;
    let members = member_list(ds, alloc, target, roles, state)?;
    structure_closed(alloc, target, at, behind, clash, id, members, state)
}

/// The members of a structure, declaration by declaration.
#[cycle(terms)]
#[tactic(auto, using(crate::proofs::InTurn::of_turns))]
fn member_list(
    ds: &List<At<MemberDecl>>,
    alloc: Global,
    target: &Target,
    roles: &Roles,
    state: &mut State,
) -> Result<Members, Stop>
    ensures { Gives (λ ms. ms) result (state_of state.new) (members_found (map (members_here target.now roles.now) ds.now) (state_of state.old)) }
{
    let mut members = List::of(Vec::new(alloc));
    for d in ds.all() {
        members = member_decl(&d.node, members, alloc, target, roles, state)?;
    }
    Ok(members)
}
