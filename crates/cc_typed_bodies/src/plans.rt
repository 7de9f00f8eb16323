//! The steps of an initialiser, done from left to right up to the first fault (C99 6.7.8).

ghost use Rattle.std.specs.Prelude.{◌≡◌, ◌++◌, option_to_list, IfOk, OnOk, map};
ghost use Rattle.cc_initialisers.specs.View.{step_view};
ghost use Rattle.cc_program.specs.CcNum.declared.int_type.IntType.TheVariants as int;
ghost use Rattle.cc_objects.specs.Values.{leaf_given as leaf_given_of, expr_given as expr_given_of, no_leaf as no_leaf_of, no_expr as no_expr_of};
ghost use Rattle.cc_terms.specs.CcOperands.Operands.{integer as integer_of, character_value as character_value_of};
ghost use Rattle.cc_terms.specs.CcOperands.View.{operand_view, type_view};
ghost use Rattle.cc_program.specs.declared.expr.Expr.{Expr as OfExpr};
ghost use Rattle.cc_program.specs.declared.value.Leaf.{Leaf as OfLeaf};
ghost use Rattle.cc_scopes.specs.Outcomes.{Gives};
ghost use Rattle.cc_scopes.specs.Verdicts.{whole};
ghost use Rattle.cc_scopes.specs.View.{state_of};
ghost use Rattle.cc_typed_bodies.specs.Plans.{as_given, step_found, steps_done};

use cc_initialisers::Step;
use cc_objects::{expr_given, leaf_given, no_expr, no_leaf};
use cc_program::num::{IntType, NoMemory, Target};
use cc_scopes::{State, Stop, placed};
use cc_terms::operands::{Breach, Operand, OperandType, character_value, integer};
use cc_terms::syntax::{Expr, Leaf, Roles};
use cc_terms::value;
use std::alloc::Global;

/// A character of a string.
fn character(alloc: Global, target: &Target, byte: u8) -> Result<Operand, NoMemory>
    ensures { IfOk result (λ x. operand_view x ≡ integer_of (character_value_of target.now byte) int.Int) }
{
    integer(alloc, character_value(target, byte), IntType::Int)
}

/// What a scalar is given, behind what was given before; nothing where none is.
fn put_given<T: Drop>(x: Option<T>, out: &mut Vec<T>) -> Result<(), NoMemory>
    ensures { OnOk result (out.new.items ≡ out.old.items ++ option_to_list x) }
{
    match x {
        None => Ok(()),
        Some(x) => {
            out.push(x)?;
            Ok(())
        }
    }
}

/// The first value of a scalar of a static object that is given an operand in the construct that begins at this place.
#[tactic(auto, using(cc_scopes::proofs::Outcomes::of_outcomes))]
fn operand_leaf(
    at: u32,
    constant: bool,
    t: &OperandType,
    x: Operand,
    alloc: Global,
    target: &Target,
    state: &State,
) -> Result<Option<Leaf>, Stop>
    ensures { Gives (λ l. l) result (state_of state.now) (as_given (whole at (state_of state.now) (leaf_given_of target.now constant (type_view t.now) (operand_view x) (state_of state.now)))) }
{
    let l = placed(at, leaf_given(alloc, target, constant, t, x, state))?;
    Ok(Some(l))
}

/// The first value that a step gives to a scalar of a static object.
#[tactic(auto, using(cc_scopes::proofs::Outcomes::of_outcomes))]
fn leaf(
    step: &Step,
    alloc: Global,
    target: &Target,
    roles: &Roles,
    state: &mut State,
) -> Result<Option<Leaf>, Stop>
    ensures { Gives (λ l. l) result (state_of state.new) (step_found target.now roles.now OfLeaf (leaf_given_of target.now) no_leaf_of (step_view step.now) (state_of state.old)) }
{
    match step {
        Step::Give(constant, t, e) => {
            let x = value(e, alloc, target, roles, state)?;
            operand_leaf(e.at, *constant, t, x, alloc, target, state)
        }
        Step::Character(at, constant, t, byte) => {
            let x = character(alloc, target, *byte)?;
            operand_leaf(*at, *constant, t, x, alloc, target, state)
        }
        Step::Zero(at, constant, t) => Ok(Some(placed(*at, no_leaf(*constant, t))?)),
        Step::Visit(e) => {
            let _value = value(e, alloc, target, roles, state)?;
            Ok(None)
        }
        Step::Breaks(at, broken) => placed(*at, Err(Breach::Breaks(*broken))),
    }
}

/// The first values that steps give to the scalars of a static object.
#[tactic(auto, using(cc_terms::proofs::InTurn::of_turns))]
pub fn leaves(
    steps: &[Step],
    alloc: Global,
    target: &Target,
    roles: &Roles,
    state: &mut State,
) -> Result<Vec<Leaf>, Stop>
    ensures { Gives (λ ls. ls.items) result (state_of state.new) (steps_done target.now roles.now OfLeaf (leaf_given_of target.now) no_leaf_of (map step_view steps.now) (state_of state.old)) }
{
    let mut leaves = Vec::new(alloc);
    for step in steps {
        let l = leaf(step, alloc, target, roles, state)?;
        put_given(l, &mut leaves)?;
    }
    Ok(leaves)
}

/// What a scalar of an automatic object is assigned that is given an operand in the construct that begins at this place.
#[tactic(auto, using(cc_scopes::proofs::Outcomes::of_outcomes))]
fn operand_expr(
    at: u32,
    constant: bool,
    t: &OperandType,
    x: Operand,
    alloc: Global,
    target: &Target,
    state: &State,
) -> Result<Option<Expr>, Stop>
    ensures { Gives (λ e. e) result (state_of state.now) (as_given (whole at (state_of state.now) (expr_given_of target.now constant (type_view t.now) (operand_view x) (state_of state.now)))) }
{
    let e = placed(at, expr_given(alloc, target, constant, t, x, state))?;
    Ok(Some(e))
}

/// What a step assigns to a scalar of an automatic object.
#[tactic(auto, using(cc_scopes::proofs::Outcomes::of_outcomes))]
fn expr(
    step: &Step,
    alloc: Global,
    target: &Target,
    roles: &Roles,
    state: &mut State,
) -> Result<Option<Expr>, Stop>
    ensures { Gives (λ e. e) result (state_of state.new) (step_found target.now roles.now OfExpr (expr_given_of target.now) no_expr_of (step_view step.now) (state_of state.old)) }
{
    match step {
        Step::Give(constant, t, e) => {
            let x = value(e, alloc, target, roles, state)?;
            operand_expr(e.at, *constant, t, x, alloc, target, state)
        }
        Step::Character(at, constant, t, byte) => {
            let x = character(alloc, target, *byte)?;
            operand_expr(*at, *constant, t, x, alloc, target, state)
        }
        Step::Zero(at, constant, t) => Ok(Some(placed(*at, no_expr(alloc, *constant, t))?)),
        Step::Visit(e) => {
            let _value = value(e, alloc, target, roles, state)?;
            Ok(None)
        }
        Step::Breaks(at, broken) => placed(*at, Err(Breach::Breaks(*broken))),
    }
}

/// What steps assign to the scalars of an automatic object.
#[tactic(auto, using(cc_terms::proofs::InTurn::of_turns))]
pub fn exprs(
    steps: &[Step],
    alloc: Global,
    target: &Target,
    roles: &Roles,
    state: &mut State,
) -> Result<Vec<Expr>, Stop>
    ensures { Gives (λ es. es.items) result (state_of state.new) (steps_done target.now roles.now OfExpr (expr_given_of target.now) no_expr_of (map step_view steps.now) (state_of state.old)) }
{
    let mut exprs = Vec::new(alloc);
    for step in steps {
        let e = expr(step, alloc, target, roles, state)?;
        put_given(e, &mut exprs)?;
    }
    Ok(exprs)
}
