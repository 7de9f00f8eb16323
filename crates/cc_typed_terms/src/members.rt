//! Members of structures (C99 6.7.2.1).

ghost use Rattle.std.specs.Prelude.{[], ◌∷◌, ◌++◌, Some as SomeOf, Ok as OkOf};
ghost use Rattle.cc_scopes.specs.CcOperands.Verdicts.{Judges};
ghost use Rattle.cc_scopes.specs.Outcomes.{Gives};
ghost use Rattle.cc_scopes.specs.State.{State as Known};
ghost use Rattle.cc_scopes.specs.View.{state_of};
ghost use Rattle.cc_specifiers.specs.Attributes.{attributes as attributes_of};
ghost use Rattle.cc_specifiers.specs.declared.attribute.Entity.TheVariants as entity;
ghost use Rattle.cc_typed_terms.specs.Located.{located as located_of};
ghost use Rattle.cc_typed_terms.specs.Members.{member_judged as member_judged_of};

use crate::places::located;
use cc_program::num::{List, Name, Target};
use cc_scopes::operands::{Breach, Rule};
use cc_scopes::syntax::CType;
use cc_scopes::{State, Stop, is_member_name};
use cc_specifiers::{Attribute, Entity, attributes, is_object};
use cc_tree::{At, Attr};
use std::alloc::Global;

/// The members that are declared so far.
pub type Members = List<(Name, CType)>;

/// Attributes of a structure.
#[tactic(auto, using(crate::proofs::Placed::of_placed))]
pub fn of_structure(alloc: Global, attrs: &[At<Attr>]) -> Result<List<At<List<Attribute>>>, Stop>
    ensures { (s : Known) → Gives (λ ms. ms) result s (located_of s (attributes_of (entity.Structure ∷ []) attrs.now)) }
{
    located(attributes(alloc, &[Entity::Structure], attrs))
}

/// Whether a name of this type may be a member behind these (C99 6.7.2.1, 2; 6.2.3).
fn judged_member(
    target: &Target,
    state: &State,
    members: &[(Name, CType)],
    x: &Name,
    t: &CType,
) -> Result<(), Breach>
    ensures { Judges (λ done. members.now ++ (x.now, t.now) ∷ []) result (member_judged_of target.now t.now members.now (state_of state.now) (SomeOf x.now)) }
{
    if !is_object(t, state.structures(), state.layouts(), target) {
        return Err(Breach::Breaks(Rule::NoObjectType));
    }
    if is_member_name(x.all(), members) {
        return Err(Breach::Breaks(Rule::MemberTwice));
    }
    Ok(())
}

/// A member behind others.
fn put_member(members: Members, x: Name, t: CType) -> Result<Members, Breach>
    ensures { Judges (λ ms. ms) result (OkOf (members ++ (x, t) ∷ [])) }
{
    let mut members = members.into_vec();
    members.push((x, t))?;
    Ok(List::of(members))
}

/// With one member more (C99 6.7.2.1, 2; 6.2.3).
pub fn with_member(
    target: &Target,
    state: &State,
    members: Members,
    name: Option<Name>,
    t: CType,
) -> Result<Members, Breach>
    ensures { Judges (λ ms. ms) result (member_judged_of target.now t members (state_of state.now) name) }
{
    let Some(x) = name else {
        return Ok(members);
    };
    judged_member(target, state, members.all(), &x, &t)?;
    put_member(members, x, t)
}
