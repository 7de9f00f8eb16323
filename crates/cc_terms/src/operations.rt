//! What operators make of operands that are found (C99 6.5.2, 6.5.3).

ghost use Rattle.std.specs.Prelude.{map};
ghost use Rattle.cc_typed_terms.specs.CcDesignators.View.{expr_view};
ghost use Rattle.cc_typed_terms.specs.CcOperands.Verdicts.{Judges};
ghost use Rattle.cc_typed_terms.specs.CcOperands.View.{operand_view};
ghost use Rattle.cc_typed_terms.specs.Values.{found_value};
ghost use Rattle.cc_scopes.specs.Outcomes.{Gives};
ghost use Rattle.cc_scopes.specs.State.{State as Known};
ghost use Rattle.cc_scopes.specs.View.{state_of};
ghost use Rattle.cc_terms.specs.Operations.{as_value as as_value_of, subscript_base as subscript_base_of, subscript_judged, callee as callee_of, call_judged, prefixed as prefixed_of, sizeof_found as sizeof_found_of, sizeof_type_found as sizeof_type_found_of};

use cc_program::num::{List, Target};
use cc_scopes::{State, Stop, placed};
use cc_typed_terms::designators::{TypedExpr, element, subscripted, valued};
use cc_typed_terms::lex::Mark;
use cc_typed_terms::operands::{Breach, Operand, Rule};
use cc_typed_terms::syntax::{CType, Structure};
use cc_typed_terms::{
    Prefix, address_expr, call_expr, designating, intrinsic_expr, intrinsic_in, prefix_of,
    sizeof_expr, sizeof_type_expr, starred, step_expr, unary_expr, value_of,
};
use std::alloc::Global;

/// The value of an expression, as an expression.
fn as_value(alloc: Global, at: u32, x: TypedExpr) -> Result<TypedExpr, Stop>
    ensures { (s : Known) → Gives expr_view result s (as_value_of at (expr_view x) s) }
{
    let value = value_of(alloc, at, x)?;
    Ok(valued(alloc, value)?)
}

/// What is subscripted (C99 6.5.2.1): an array that is a place as it is, all else as its value.
pub fn subscript_base(alloc: Global, at: u32, x: TypedExpr) -> Result<TypedExpr, Stop>
    ensures { (s : Known) → Gives expr_view result s (subscript_base_of at (expr_view x) s) }
{
    if x.is_array_place() {
        Ok(x)
    } else {
        as_value(alloc, at, x)
    }
}

/// An element of what is subscripted.
pub fn subscript_expr(
    alloc: Global,
    structures: &[Structure],
    x: TypedExpr,
    i: Operand,
) -> Result<TypedExpr, Breach>
    ensures { Judges expr_view result (subscript_judged structures.now (expr_view x) (operand_view i)) }
{
    match x {
        TypedExpr::Place(place, t) => element(alloc, place, t.get(), i),
        TypedExpr::Value(x) => subscripted(alloc, structures, x.into_inner(), i),
        TypedExpr::Function(_, _) | TypedExpr::Intrinsic(_, _) | TypedExpr::Address(_, _, _) => {
            Err(Breach::Breaks(Rule::Subscript))
        }
    }
}

/// What is called (C99 6.5.2.2): an intrinsic as it is, all else as its value.
pub fn callee(alloc: Global, at: u32, x: TypedExpr) -> Result<TypedExpr, Stop>
    ensures { (s : Known) → Gives expr_view result s (callee_of at (expr_view x) s) }
{
    match intrinsic_in(&x) {
        Some(_) => Ok(x),
        None => as_value(alloc, at, x),
    }
}

/// A call of what is called.
pub fn called_expr(
    alloc: Global,
    target: &Target,
    f: TypedExpr,
    args: List<Operand>,
) -> Result<TypedExpr, Breach>
    ensures { Judges expr_view result (found_value (call_judged target.now (expr_view f) (map operand_view args))) }
{
    match f {
        TypedExpr::Intrinsic(i, _) => intrinsic_expr(alloc, target, i, args),
        TypedExpr::Value(f) => call_expr(alloc, target, f.into_inner(), args),
        TypedExpr::Place(_, _) | TypedExpr::Function(_, _) | TypedExpr::Address(_, _, _) => {
            Err(Breach::Breaks(Rule::Callee))
        }
    }
}

/// A prefix operator, on an operand that begins at the second place.
#[tactic(auto, using(cc_scopes::proofs::Outcomes::of_outcomes))]
pub fn prefixed(
    mark: Mark,
    at: u32,
    inner: u32,
    x: TypedExpr,
    alloc: Global,
    target: &Target,
    state: &mut State,
) -> Result<TypedExpr, Stop>
    ensures { Gives expr_view result (state_of state.new) (prefixed_of target.now mark at inner (expr_view x) (state_of state.old)) }
{
    match prefix_of(mark) {
        Prefix::Star => starred(alloc, target, at, inner, x, state),
        Prefix::Amp => {
            let x = designating(alloc, x)?;
            placed(at, address_expr(alloc, x))
        }
        Prefix::Step(down) => {
            let x = designating(alloc, x)?;
            placed(at, step_expr(alloc, target, state.structures(), down, x))
        }
        Prefix::OnValue => {
            let x = value_of(alloc, inner, x)?;
            placed(at, unary_expr(alloc, target, mark, x))
        }
    }
}

/// The size of what an expression designates; of the names only the first `count` stay (C99 6.5.3.4, 2).
#[tactic(auto, using(cc_scopes::proofs::Outcomes::of_outcomes))]
pub fn sizeof_found(
    at: u32,
    count: usize,
    x: &TypedExpr,
    alloc: Global,
    target: &Target,
    state: &mut State,
) -> Result<TypedExpr, Stop>
    ensures { Gives expr_view result (state_of state.new) (sizeof_found_of target.now at count (expr_view x.now) (state_of state.old)) }
{
    let size = placed(at, sizeof_expr(alloc, target, state, x))?;
    state.forget_names(count);
    Ok(size)
}

/// The size of a type; of the names only the first `count` stay.
#[tactic(auto, using(cc_scopes::proofs::Outcomes::of_outcomes))]
pub fn sizeof_type_found(
    at: u32,
    count: usize,
    t: &CType,
    alloc: Global,
    target: &Target,
    state: &mut State,
) -> Result<TypedExpr, Stop>
    ensures { Gives expr_view result (state_of state.new) (sizeof_type_found_of target.now at count t.now (state_of state.old)) }
{
    let size = placed(at, sizeof_type_expr(alloc, target, state, t))?;
    state.forget_names(count);
    Ok(size)
}
