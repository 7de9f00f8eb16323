//! Expressions (C99 6.5).

ghost use Rattle.cc_typed_terms.specs.CcDesignators.View.{expr_view};
ghost use Rattle.cc_typed_terms.specs.CcOperands.View.{operand_view};
ghost use Rattle.cc_typed_terms.specs.Values.{valued, value_found, designated_found};
ghost use Rattle.cc_scopes.specs.Outcomes.{Gives};
ghost use Rattle.cc_scopes.specs.Verdicts.{and_then};
ghost use Rattle.cc_scopes.specs.View.{state_of};
ghost use Rattle.cc_terms.specs.Terms.{tree_of, here};

use crate::operators::{
    assignment, binary, cast_to_named, choice, comma, prefix, size_of, size_of_type, step_behind,
};
use crate::postfix::{call, member_of, member_pointed_to, subscript};
use cc_program::num::{Boxed, Target};
use cc_scopes::{State, Stop, placed};
use cc_tree::{At, Tree};
use cc_typed_terms::designators::TypedExpr;
use cc_typed_terms::operands::Operand;
use cc_typed_terms::syntax::Roles;
use cc_typed_terms::{character, designating, named, number, text, value_of};
use std::alloc::Global;

/// An expression that begins at this place.
#[cycle(terms)]
#[tactic(auto, using(cc_scopes::proofs::Outcomes::of_outcomes), unfolding(crate::specs::Terms::tree_of, crate::specs::Terms::type_name_of))]
pub fn tree(
    e: &Tree,
    at: u32,
    alloc: Global,
    target: &Target,
    roles: &Roles,
    state: &mut State,
) -> Result<TypedExpr, Stop>
    ensures { Gives expr_view result (state_of state.new) (tree_of target.now roles.now e.now at (state_of state.old)) }
{
    match e {
        Tree::Named(x) => placed(at, named(alloc, roles, at, x.all(), state)),
        Tree::Number(n, suffix) => Ok(number(alloc, target, *n, *suffix)?),
        Tree::Character(byte) => Ok(character(alloc, target, *byte)?),
        Tree::Text(bytes) => text(alloc, target, at, bytes.all(), state),
        Tree::Paren(e) => {
            let e = e.get();
            tree(&e.node, e.at, alloc, target, roles, state)
        }
        Tree::Extension(e) => {
            let e = e.get();
            tree(&e.node, e.at, alloc, target, roles, state)
        }
        Tree::Comma(a, b) => comma(at, a, b, alloc, target, roles, state),
        Tree::Assign(mark, a, b) => assignment(at, *mark, a, b, alloc, target, roles, state),
        Tree::Choose(c, a, b) => choice(at, c, a, b, alloc, target, roles, state),
        Tree::Binary(mark, a, b) => binary(at, *mark, a, b, alloc, target, roles, state),
        Tree::Prefix(mark, e) => prefix(at, *mark, e, alloc, target, roles, state),
        Tree::Postfix(e, mark) => step_behind(at, e, *mark, alloc, target, roles, state),
        Tree::SizeOf(e) => size_of(at, e, alloc, target, roles, state),
        Tree::SizeOfType(t) => size_of_type(at, t, alloc, target, roles, state),
        Tree::Cast(t, e) => cast_to_named(at, t, e, alloc, target, roles, state),
        Tree::Subscript(a, i) => subscript(at, a, i, alloc, target, roles, state),
        Tree::Call(f, args) => call(at, args, f, alloc, target, roles, state),
        Tree::Member(e, x) => member_of(at, e, x, alloc, target, roles, state),
        Tree::Arrow(e, x) => member_pointed_to(at, e, x, alloc, target, roles, state),
    }
}

/// The value of an expression.
pub fn value(
    e: &At<Tree>,
    alloc: Global,
    target: &Target,
    roles: &Roles,
    state: &mut State,
) -> Result<Operand, Stop>
    ensures { Gives operand_view result (state_of state.new) (value_found (here target.now roles.now e.now) (state_of state.old)) }
{
    operand(&e.node, e.at, alloc, target, roles, state)
}

/// The value of an expression that begins at this place.
#[cycle(terms)]
pub fn operand(
    e: &Tree,
    at: u32,
    alloc: Global,
    target: &Target,
    roles: &Roles,
    state: &mut State,
) -> Result<Operand, Stop>
    ensures { Gives operand_view result (state_of state.new) (and_then (tree_of target.now roles.now e.now at (state_of state.old)) (valued at)) }
{
    let x = tree(e, at, alloc, target, roles, state)?;
    value_of(alloc, at, x)
}

/// The value of an expression in a box.
#[cycle(terms)]
pub fn boxed_operand(
    e: &Boxed<At<Tree>>,
    alloc: Global,
    target: &Target,
    roles: &Roles,
    state: &mut State,
) -> Result<Operand, Stop>
    ensures { Gives operand_view result (state_of state.new) (value_found (here target.now roles.now e.now) (state_of state.old)) }
{
    let e = e.get();
    let x = tree(&e.node, e.at, alloc, target, roles, state)?;
    value_of(alloc, e.at, x)
}

/// An expression, taken as what it designates.
#[cycle(terms)]
pub fn designator(
    e: &At<Tree>,
    alloc: Global,
    target: &Target,
    roles: &Roles,
    state: &mut State,
) -> Result<TypedExpr, Stop>
    ensures { Gives expr_view result (state_of state.new) (designated_found (here target.now roles.now e.now) (state_of state.old)) }
{
    let x = tree(&e.node, e.at, alloc, target, roles, state)?;
    designating(alloc, x)
}
