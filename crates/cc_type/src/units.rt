//! The items of a translation unit (C99 6.9).

ghost use Rattle.std.specs.Prelude.{◌≡◌};
ghost use Rattle.cc_scopes.specs.Outcomes.{Gives};
ghost use Rattle.cc_scopes.specs.Verdicts.{checked};
ghost use Rattle.cc_scopes.specs.View.{state_of};
ghost use Rattle.cc_type.specs.Units.{item_found, items_found};

use crate::functions::function;
use cc_program::num::{List, Name, Target};
use cc_scopes::{State, Stop};
use cc_tree::{At, Item};
use cc_typed_bodies::declaration;
use cc_typed_bodies::specifiers::Where;
use cc_typed_bodies::syntax::Roles;
use std::alloc::Global;

/// A declaration or a function definition.
fn item(
    i: &Item,
    defined: &[Name],
    alloc: Global,
    target: &Target,
    roles: &Roles,
    state: &mut State,
) -> Result<(), Stop>
    ensures { Gives (λ done. checked) result (state_of state.new) (item_found target.now roles.now defined.now i.now (state_of state.old)) }
{
    match i {
        Item::Decl(d) => {
            declaration(Where::AtFile, d, defined, alloc, target, roles, state)?;
            Ok(())
        }
        Item::Func(specs, d, attrs, body) => {
            function(specs, d, attrs, body, defined, alloc, target, roles, state)
        }
    }
}

/// The items of a unit, one behind another.
#[tactic(auto, using(cc_terms::proofs::InTurn::of_turns))]
pub fn items(
    is: &List<At<Item>>,
    defined: &[Name],
    alloc: Global,
    target: &Target,
    roles: &Roles,
    state: &mut State,
) -> Result<(), Stop>
    ensures { Gives (λ done. checked) result (state_of state.new) (items_found target.now roles.now defined.now is.now (state_of state.old)) }
{
    for i in is.all() {
        item(&i.node, defined, alloc, target, roles, state)?;
    }
    Ok(())
}
