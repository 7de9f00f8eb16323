//! Operators on parts that are to be found (C99 6.5.3 to 6.5.17), each at the place where its construct begins.

ghost use Rattle.cc_typed_terms.specs.CcDesignators.View.{expr_view};
ghost use Rattle.cc_scopes.specs.Outcomes.{Gives};
ghost use Rattle.cc_scopes.specs.View.{state_of};
ghost use Rattle.cc_terms.specs.Expressions.{tree_step};
ghost use Rattle.cc_terms.specs.Terms.{here, type_name_of};
ghost use Rattle.cc_tree.specs.declared.tree.Declr.TheOpen as one;

use crate::operations::{prefixed, sizeof_found, sizeof_type_found};
use crate::trees::{boxed_operand, designator, tree};
use crate::type_names::type_name;
use cc_program::num::{Boxed, Target};
use cc_scopes::{State, Stop, placed};
use cc_tree::{At, Tree, TypeName};
use cc_typed_terms::designators::{TypedExpr, cast};
use cc_typed_terms::lex::Mark;
use cc_typed_terms::syntax::Roles;
use cc_typed_terms::{after_expr, assign_expr, binary_expr, choose_expr, comma_expr};
use std::alloc::Global;

/// `a, b` (C99 6.5.17).
#[cycle(terms)]
#[tactic(auto, using(cc_scopes::proofs::Outcomes::of_outcomes))]
pub fn comma(
    at: u32,
    a: &Boxed<At<Tree>>,
    b: &Boxed<At<Tree>>,
    alloc: Global,
    target: &Target,
    roles: &Roles,
    state: &mut State,
) -> Result<TypedExpr, Stop>
    ensures { Gives expr_view result (state_of state.new) (tree_step target.now roles.now (one.Comma (here target.now roles.now a.now) (here target.now roles.now b.now)) at (state_of state.old)) }
{
    let x = boxed_operand(a, alloc, target, roles, state)?;
    let y = boxed_operand(b, alloc, target, roles, state)?;
    placed(at, comma_expr(alloc, x, y))
}

/// `a = b`, or with an operator (C99 6.5.16).
#[cycle(terms)]
#[tactic(auto, using(cc_scopes::proofs::Outcomes::of_outcomes))]
pub fn assignment(
    at: u32,
    mark: Mark,
    a: &Boxed<At<Tree>>,
    b: &Boxed<At<Tree>>,
    alloc: Global,
    target: &Target,
    roles: &Roles,
    state: &mut State,
) -> Result<TypedExpr, Stop>
    ensures { Gives expr_view result (state_of state.new) (tree_step target.now roles.now (one.Assign mark (here target.now roles.now a.now) (here target.now roles.now b.now)) at (state_of state.old)) }
{
    let x = designator(a.get(), alloc, target, roles, state)?;
    let y = boxed_operand(b, alloc, target, roles, state)?;
    placed(
        at,
        assign_expr(alloc, target, state.structures(), mark, x, y),
    )
}

/// `c ? a : b` (C99 6.5.15).
#[cycle(terms)]
#[tactic(auto, using(cc_scopes::proofs::Outcomes::of_outcomes))]
pub fn choice(
    at: u32,
    c: &Boxed<At<Tree>>,
    a: &Boxed<At<Tree>>,
    b: &Boxed<At<Tree>>,
    alloc: Global,
    target: &Target,
    roles: &Roles,
    state: &mut State,
) -> Result<TypedExpr, Stop>
    ensures { Gives expr_view result (state_of state.new) (tree_step target.now roles.now (one.Choose (here target.now roles.now c.now) (here target.now roles.now a.now) (here target.now roles.now b.now)) at (state_of state.old)) }
{
    let c = boxed_operand(c, alloc, target, roles, state)?;
    let x = boxed_operand(a, alloc, target, roles, state)?;
    let y = boxed_operand(b, alloc, target, roles, state)?;
    placed(at, choose_expr(alloc, target, c, x, y))
}

/// A binary operator (C99 6.5.5 to 6.5.14).
#[cycle(terms)]
#[tactic(auto, using(cc_scopes::proofs::Outcomes::of_outcomes))]
pub fn binary(
    at: u32,
    mark: Mark,
    a: &Boxed<At<Tree>>,
    b: &Boxed<At<Tree>>,
    alloc: Global,
    target: &Target,
    roles: &Roles,
    state: &mut State,
) -> Result<TypedExpr, Stop>
    ensures { Gives expr_view result (state_of state.new) (tree_step target.now roles.now (one.Binary mark (here target.now roles.now a.now) (here target.now roles.now b.now)) at (state_of state.old)) }
{
    let x = boxed_operand(a, alloc, target, roles, state)?;
    let y = boxed_operand(b, alloc, target, roles, state)?;
    placed(
        at,
        binary_expr(alloc, target, state.structures(), mark, x, y),
    )
}

/// A prefix operator (C99 6.5.3.1 to 6.5.3.3).
#[cycle(terms)]
#[tactic(auto, using(cc_scopes::proofs::Outcomes::of_outcomes))]
pub fn prefix(
    at: u32,
    mark: Mark,
    e: &Boxed<At<Tree>>,
    alloc: Global,
    target: &Target,
    roles: &Roles,
    state: &mut State,
) -> Result<TypedExpr, Stop>
    ensures { Gives expr_view result (state_of state.new) (tree_step target.now roles.now (one.Prefix mark (here target.now roles.now e.now)) at (state_of state.old)) }
{
    let e = e.get();
    let x = tree(&e.node, e.at, alloc, target, roles, state)?;
    prefixed(mark, at, e.at, x, alloc, target, state)
}

/// `e++` and `e--` (C99 6.5.2.4).
#[cycle(terms)]
#[tactic(auto, using(cc_scopes::proofs::Outcomes::of_outcomes))]
pub fn step_behind(
    at: u32,
    e: &Boxed<At<Tree>>,
    mark: Mark,
    alloc: Global,
    target: &Target,
    roles: &Roles,
    state: &mut State,
) -> Result<TypedExpr, Stop>
    ensures { Gives expr_view result (state_of state.new) (tree_step target.now roles.now (one.Postfix (here target.now roles.now e.now) mark) at (state_of state.old)) }
{
    let x = designator(e.get(), alloc, target, roles, state)?;
    placed(at, after_expr(alloc, state.structures(), mark, x))
}

/// The size of what an expression designates (C99 6.5.3.4).
#[cycle(terms)]
#[tactic(auto, using(cc_scopes::proofs::Outcomes::of_outcomes))]
pub fn size_of(
    at: u32,
    e: &Boxed<At<Tree>>,
    alloc: Global,
    target: &Target,
    roles: &Roles,
    state: &mut State,
) -> Result<TypedExpr, Stop>
    ensures { Gives expr_view result (state_of state.new) (tree_step target.now roles.now (one.SizeOf (here target.now roles.now e.now)) at (state_of state.old)) }
{
    let count = state.names().len();
    let x = designator(e.get(), alloc, target, roles, state)?;
    sizeof_found(at, count, &x, alloc, target, state)
}

/// The size of a type that is named (C99 6.5.3.4).
#[cycle(terms)]
#[tactic(auto, using(cc_scopes::proofs::Outcomes::of_outcomes))]
pub fn size_of_type(
    at: u32,
    t: &Boxed<TypeName>,
    alloc: Global,
    target: &Target,
    roles: &Roles,
    state: &mut State,
) -> Result<TypedExpr, Stop>
    ensures { Gives expr_view result (state_of state.new) (tree_step target.now roles.now (one.SizeOfType (type_name_of target.now roles.now t.now)) at (state_of state.old)) }
{
    let count = state.names().len();
    let t = type_name(t.get(), false, alloc, target, roles, state)?;
    sizeof_type_found(at, count, &t, alloc, target, state)
}

/// A cast (C99 6.5.4).
#[cycle(terms)]
#[tactic(auto, using(cc_scopes::proofs::Outcomes::of_outcomes))]
pub fn cast_to_named(
    at: u32,
    t: &Boxed<TypeName>,
    e: &Boxed<At<Tree>>,
    alloc: Global,
    target: &Target,
    roles: &Roles,
    state: &mut State,
) -> Result<TypedExpr, Stop>
    ensures { Gives expr_view result (state_of state.new) (tree_step target.now roles.now (one.Cast (type_name_of target.now roles.now t.now) (here target.now roles.now e.now)) at (state_of state.old)) }
{
    let t = type_name(t.get(), true, alloc, target, roles, state)?;
    let x = boxed_operand(e, alloc, target, roles, state)?;
    placed(at, cast(alloc, target, at, &t, x))
}
