//! The operators on values, where what they give is taken as an expression (C99 6.5).

ghost use Rattle.cc_designators.specs.Assignments.{assign_of, stepped_before as stepped_before_of, stepped_after as stepped_after_of};
ghost use Rattle.cc_designators.specs.Calls.{called as called_of, intrinsic as intrinsic_of};
ghost use Rattle.cc_designators.specs.Postfix.{address as address_of};
ghost use Rattle.cc_designators.specs.View.{expr_view};
ghost use Rattle.cc_scopes.specs.CcOperands.Choices.{choose_of, comma_of};
ghost use Rattle.cc_scopes.specs.CcOperands.Operators.{operator_of as operator_of_of, unary_operator_of as unary_operator_of_of};
ghost use Rattle.cc_scopes.specs.CcOperands.Verdicts.{Judges};
ghost use Rattle.cc_scopes.specs.CcOperands.View.{operand_view};
ghost use Rattle.cc_typed_terms.specs.Operators.{binary_by, unary_by, element_in as element_in_of, is_minus as is_minus_of};
ghost use Rattle.cc_typed_terms.specs.Values.{found_value};
ghost use Rattle.std.specs.Prelude.{map};

use crate::prefix::is_minus;
use cc_designators::{
    TypedExpr, address, assign_to, called, change_of, element, intrinsic, stepped_after,
    stepped_before, valued,
};
use cc_program::num::{List, Target};
use cc_scopes::lex::Mark;
use cc_scopes::operands::{
    Breach, Operand, Rule, assigns_by, binary, chosen, comma, operator_of, unary, unary_operator_of,
};
use cc_scopes::syntax::{Intr, Structure};
use std::alloc::Global;

/// `a, b`.
pub fn comma_expr(alloc: Global, x: Operand, y: Operand) -> Result<TypedExpr, Breach>
    ensures { Judges expr_view result (found_value (comma_of (operand_view x) (operand_view y))) }
{
    let value = comma(alloc, x, y)?;
    Ok(valued(alloc, value)?)
}

/// `a = b` and `a op= b`.
pub fn assign_expr(
    alloc: Global,
    target: &Target,
    structures: &[Structure],
    mark: Mark,
    a: TypedExpr,
    x: Operand,
) -> Result<TypedExpr, Breach>
    ensures { Judges expr_view result (found_value (assign_of target.now structures.now mark (expr_view a) (operand_view x))) }
{
    let value = match assigns_by(mark) {
        None => assign_to(alloc, target, a, x)?,
        Some(op) => change_of(alloc, target, structures, op, a, x)?,
    };
    Ok(valued(alloc, value)?)
}

/// `c ? a : b`.
pub fn choose_expr(
    alloc: Global,
    target: &Target,
    c: Operand,
    x: Operand,
    y: Operand,
) -> Result<TypedExpr, Breach>
    ensures { Judges expr_view result (found_value (choose_of target.now (operand_view c) (operand_view x) (operand_view y))) }
{
    let value = chosen(alloc, target, c, x, y)?;
    Ok(valued(alloc, value)?)
}

/// A binary operator on values.
pub fn binary_expr(
    alloc: Global,
    target: &Target,
    structures: &[Structure],
    mark: Mark,
    x: Operand,
    y: Operand,
) -> Result<TypedExpr, Breach>
    ensures { Judges expr_view result (found_value (binary_by target.now structures.now (operator_of_of mark) (operand_view x) (operand_view y))) }
{
    let Some(operator) = operator_of(mark) else {
        return Err(Breach::Breaks(Rule::NoInteger));
    };
    let value = binary(alloc, target, structures, operator, x, y)?;
    Ok(valued(alloc, value)?)
}

/// A unary operator on a value.
pub fn unary_expr(
    alloc: Global,
    target: &Target,
    mark: Mark,
    x: Operand,
) -> Result<TypedExpr, Breach>
    ensures { Judges expr_view result (found_value (unary_by target.now (unary_operator_of_of mark) (operand_view x))) }
{
    let Some(operator) = unary_operator_of(mark) else {
        return Err(Breach::Breaks(Rule::NoInteger));
    };
    let value = unary(alloc, target, operator, x)?;
    Ok(valued(alloc, value)?)
}

/// `&a`.
pub fn address_expr(alloc: Global, a: TypedExpr) -> Result<TypedExpr, Breach>
    ensures { Judges expr_view result (found_value (address_of (expr_view a))) }
{
    let value = address(alloc, a)?;
    Ok(valued(alloc, value)?)
}

/// `++a`, and `--a` where the flag is set.
pub fn step_expr(
    alloc: Global,
    target: &Target,
    structures: &[Structure],
    down: bool,
    a: TypedExpr,
) -> Result<TypedExpr, Breach>
    ensures { Judges expr_view result (found_value (stepped_before_of target.now structures.now down (expr_view a))) }
{
    let value = stepped_before(alloc, target, structures, down, a)?;
    Ok(valued(alloc, value)?)
}

/// `a++` and `a--`.
pub fn after_expr(
    alloc: Global,
    structures: &[Structure],
    mark: Mark,
    a: TypedExpr,
) -> Result<TypedExpr, Breach>
    ensures { Judges expr_view result (found_value (stepped_after_of structures.now (is_minus_of mark) (expr_view a))) }
{
    let value = stepped_after(alloc, structures, is_minus(mark), a)?;
    Ok(valued(alloc, value)?)
}

/// A call of an intrinsic.
pub fn intrinsic_expr(
    alloc: Global,
    target: &Target,
    i: Intr,
    args: List<Operand>,
) -> Result<TypedExpr, Breach>
    ensures { Judges expr_view result (found_value (intrinsic_of target.now i (map operand_view args))) }
{
    let value = intrinsic(alloc, target, i, args)?;
    Ok(valued(alloc, value)?)
}

/// A call of a value.
pub fn call_expr(
    alloc: Global,
    target: &Target,
    f: Operand,
    args: List<Operand>,
) -> Result<TypedExpr, Breach>
    ensures { Judges expr_view result (found_value (called_of target.now (operand_view f) (map operand_view args))) }
{
    let value = called(alloc, target, f, args)?;
    Ok(valued(alloc, value)?)
}

/// An element of an array that is a place.
pub fn element_in(alloc: Global, a: TypedExpr, i: Operand) -> Result<TypedExpr, Breach>
    ensures { Judges expr_view result (element_in_of (expr_view a) (operand_view i)) }
{
    match a {
        TypedExpr::Place(place, t) => element(alloc, place, t.get(), i),
        TypedExpr::Value(_) => Err(Breach::Breaks(Rule::Subscript)),
        TypedExpr::Function(_, _) => Err(Breach::Breaks(Rule::Subscript)),
        TypedExpr::Intrinsic(_, _) => Err(Breach::Breaks(Rule::Subscript)),
        TypedExpr::Address(_, _, _) => Err(Breach::Breaks(Rule::Subscript)),
    }
}
