//! Subscripts, calls and members (C99 6.5.2.1 to 6.5.2.3), each at the place where its construct begins.

ghost use Rattle.std.specs.Prelude.{map};
ghost use Rattle.cc_typed_terms.specs.CcDesignators.View.{expr_view};
ghost use Rattle.cc_typed_terms.specs.View.{operands_view};
ghost use Rattle.cc_scopes.specs.Outcomes.{Gives};
ghost use Rattle.cc_scopes.specs.View.{state_of};
ghost use Rattle.cc_terms.specs.Expressions.{arguments_found, tree_step};
ghost use Rattle.cc_terms.specs.Terms.{here};
ghost use Rattle.cc_tree.specs.declared.tree.Declr.TheOpen as one;

use crate::operations::{called_expr, callee, subscript_base, subscript_expr};
use crate::trees::{boxed_operand, designator, operand, tree};
use cc_program::num::{Boxed, List, Name, Target};
use cc_scopes::{State, Stop, placed};
use cc_tree::{At, Tree};
use cc_typed_terms::designators::{TypedExpr, arrow, dot};
use cc_typed_terms::operands::Operand;
use cc_typed_terms::syntax::Roles;
use std::alloc::Global;

/// `a[i]` (C99 6.5.2.1).
#[cycle(terms)]
#[tactic(auto, using(cc_scopes::proofs::Outcomes::of_outcomes))]
pub fn subscript(
    at: u32,
    a: &Boxed<At<Tree>>,
    i: &Boxed<At<Tree>>,
    alloc: Global,
    target: &Target,
    roles: &Roles,
    state: &mut State,
) -> Result<TypedExpr, Stop>
    ensures { Gives expr_view result (state_of state.new) (tree_step target.now roles.now (one.Subscript (here target.now roles.now a.now) (here target.now roles.now i.now)) at (state_of state.old)) }
{
    let a = a.get();
    let x = tree(&a.node, a.at, alloc, target, roles, state)?;
    let base = subscript_base(alloc, a.at, x)?;
    let y = boxed_operand(i, alloc, target, roles, state)?;
    placed(at, subscript_expr(alloc, state.structures(), base, y))
}

/// A call of `f` with these arguments (C99 6.5.2.2).
#[cycle(terms)]
#[tactic(auto, using(cc_scopes::proofs::Outcomes::of_outcomes))]
pub fn call(
    at: u32,
    args: &List<At<Tree>>,
    f: &Boxed<At<Tree>>,
    alloc: Global,
    target: &Target,
    roles: &Roles,
    state: &mut State,
) -> Result<TypedExpr, Stop>
    ensures { Gives expr_view result (state_of state.new) (tree_step target.now roles.now (one.Call (here target.now roles.now f.now) (map (here target.now roles.now) args.now)) at (state_of state.old)) }
{
    let f = f.get();
    let x = tree(&f.node, f.at, alloc, target, roles, state)?;
    let called = callee(alloc, f.at, x)?;
    let xs = values(args, alloc, target, roles, state)?;
    placed(at, called_expr(alloc, target, called, xs))
}

/// The values of the arguments of a call, from left to right.
#[cycle(terms)]
#[tactic(auto, using(crate::proofs::InTurn::of_turns))]
fn values(
    es: &List<At<Tree>>,
    alloc: Global,
    target: &Target,
    roles: &Roles,
    state: &mut State,
) -> Result<List<Operand>, Stop>
    ensures { Gives operands_view result (state_of state.new) (arguments_found (map (here target.now roles.now) es.now) (state_of state.old)) }
{
    let mut values = Vec::new(alloc);
    for e in es.all() {
        values.push(operand(&e.node, e.at, alloc, target, roles, state)?)?;
    }
    Ok(List::of(values))
}

/// `e.x` (C99 6.5.2.3).
#[cycle(terms)]
#[tactic(auto, using(cc_scopes::proofs::Outcomes::of_outcomes))]
pub fn member_of(
    at: u32,
    e: &Boxed<At<Tree>>,
    x: &Name,
    alloc: Global,
    target: &Target,
    roles: &Roles,
    state: &mut State,
) -> Result<TypedExpr, Stop>
    ensures { Gives expr_view result (state_of state.new) (tree_step target.now roles.now (one.Member (here target.now roles.now e.now) x.now) at (state_of state.old)) }
{
    let a = designator(e.get(), alloc, target, roles, state)?;
    placed(at, dot(alloc, state.structures(), x.all(), a))
}

/// `e->x` (C99 6.5.2.3).
#[cycle(terms)]
#[tactic(auto, using(cc_scopes::proofs::Outcomes::of_outcomes))]
pub fn member_pointed_to(
    at: u32,
    e: &Boxed<At<Tree>>,
    x: &Name,
    alloc: Global,
    target: &Target,
    roles: &Roles,
    state: &mut State,
) -> Result<TypedExpr, Stop>
    ensures { Gives expr_view result (state_of state.new) (tree_step target.now roles.now (one.Arrow (here target.now roles.now e.now) x.now) at (state_of state.old)) }
{
    let p = boxed_operand(e, alloc, target, roles, state)?;
    placed(at, arrow(alloc, state.structures(), x.all(), p))
}
