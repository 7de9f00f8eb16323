//! Type names (C99 6.7.6).

ghost use Rattle.cc_scopes.specs.Outcomes.{Gives};
ghost use Rattle.cc_scopes.specs.View.{state_of};
ghost use Rattle.cc_terms.specs.Terms.{type_name_of};

use crate::declarators::declr;
use crate::specifiers::specified;
use cc_program::num::Target;
use cc_scopes::{State, Stop};
use cc_tree::TypeName;
use cc_typed_terms::derived_type;
use cc_typed_terms::specifiers_crate::{Allowed, Entity, Setting, Where};
use cc_typed_terms::syntax::{CType, Roles};
use std::alloc::Global;

/// The type that a type name names. The flag says that it stands in a cast.
#[cycle(terms)]
#[tactic(auto, using(cc_scopes::proofs::Outcomes::of_outcomes), unfolding(crate::specs::Terms::type_name_of, crate::specs::Terms::spec_of, crate::specs::Terms::declr_of))]
pub fn type_name(
    t: &TypeName,
    is_cast: bool,
    alloc: Global,
    target: &Target,
    roles: &Roles,
    state: &mut State,
) -> Result<CType, Stop>
    ensures { Gives (λ t. t) result (state_of state.new) (type_name_of target.now roles.now t.now is_cast (state_of state.old)) }
{
    let base = {
        let setting = Setting::of(alloc, Where::InTypeName, Entity::Nothing)?;
        specified(&t.specs, &setting, alloc, target, roles, state)?.ctype
    };
    let allowed = Allowed::in_type_name(is_cast);
    let d = &t.declr;
    let x = declr(&d.node, d.at, allowed, alloc, target, roles, state)?;
    derived_type(alloc, target, allowed, base, &x, state)
}
