//! Typedefs and functions that are declared (C99 6.7.5.3, 6.7.7).

ghost use Rattle.std.specs.Prelude.{◌≡◌, None as NoneOf, OnOk};
ghost use Rattle.std.specs.Option.{option_copied};
ghost use Rattle.cc_linkage.specs.Linkage.{declared};
ghost use Rattle.cc_scopes.specs.Outcomes.{Gives};
ghost use Rattle.cc_scopes.specs.View.{state_of};
ghost use Rattle.cc_terms.specs.CcSpecifiers.Attributes.{entry_by as entry_by_of};
ghost use Rattle.cc_typed_bodies.specs.Functions.{with_function, typedef_left as typedef_left_of, function_refused as function_refused_of, function_left as function_left_of};

use crate::plans::exprs;
use cc_initialisers::refused;
use cc_linkage::{DeclaredAs, declare_linked};
use cc_program::num::{List, Name, NoMemory, Target};
use cc_scopes::{Designated, State, Stop, UnitKind, placed};
use cc_terms::specifiers_crate::{Attribute, entry_by, modes_judged};
use cc_terms::syntax::{CType, Expr, Roles};
use cc_tree::{At, Given};
use cc_typed_terms::is_intrinsic;
use std::alloc::Global;

/// A typedef name. A mode that does not fit the type is at fault at the declarator.
#[tactic(auto, using(cc_scopes::proofs::Outcomes::of_outcomes))]
pub fn typedef_left(
    at: u32,
    x: &Name,
    t: CType,
    marks: &[At<List<Attribute>>],
    alloc: Global,
    target: &Target,
    state: &mut State,
) -> Result<List<Expr>, Stop>
    ensures { Gives (λ es. es) result (state_of state.new) (typedef_left_of target.now at x.now t marks.now (state_of state.old)) }
{
    let t = placed(at, modes_judged(target, marks, t))?;
    state.bind(alloc, x.all(), Designated::TypeNamed(t))?;
    Ok(List::of(Vec::new(alloc)))
}

/// A function takes no initialiser.
fn function_refused(
    value: Option<&At<Given>>,
    alloc: Global,
    target: &Target,
    roles: &Roles,
    state: &mut State,
) -> Result<List<Expr>, Stop>
    ensures { Gives (λ es. es) result (state_of state.new) (function_refused_of target.now roles.now (option_copied value.entry) (state_of state.old)) }
{
    let Some(g) = value else {
        return Ok(List::of(Vec::new(alloc)));
    };
    let steps = refused(alloc, g)?;
    Ok(List::of(exprs(steps.as_slice(), alloc, target, roles, state)?))
}

/// A function is declared, which its attributes may make a handler.
fn declare_function(
    asked: DeclaredAs,
    x: &Name,
    t: CType,
    marks: &[At<List<Attribute>>],
    alloc: Global,
    state: &mut State,
) -> Result<(), NoMemory>
    ensures { OnOk result (state_of state.new ≡ with_function (entry_by_of marks.now) (declared x.now asked t (UnitKind.Func NoneOf NoneOf) (state_of state.old))) }
{
    let id = declare_linked(state, alloc, x, asked, t, UnitKind::Func(None, None))?;
    state.add_entry(alloc, id, entry_by(marks));
    Ok(())
}

/// A function, or the prototype of an intrinsic, which leaves nothing.
pub fn function_left(
    asked: DeclaredAs,
    x: &Name,
    t: CType,
    marks: &[At<List<Attribute>>],
    value: Option<&At<Given>>,
    alloc: Global,
    target: &Target,
    roles: &Roles,
    state: &mut State,
) -> Result<List<Expr>, Stop>
    ensures { Gives (λ es. es) result (state_of state.new) (function_left_of target.now roles.now asked x.now t marks.now (option_copied value.entry) (state_of state.old)) }
{
    if is_intrinsic(roles, x.all()) {
        return function_refused(value, alloc, target, roles, state);
    }
    declare_function(asked, x, t, marks, alloc, state)?;
    function_refused(value, alloc, target, roles, state)
}
