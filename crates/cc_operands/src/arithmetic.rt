//! Binary operators on values (C99 6.5.5 to 6.5.14).

ghost use Rattle.std.specs.Prelude.{◌≡◌, IfOk};
ghost use Rattle.cc_operands.specs.Arithmetic.{truth as truth_of, is_equality as is_equality_of, working_type as working_type_of, second_type as second_type_of, worked as worked_of, arithmetic as arithmetic_of, integers as integers_of, moved as moved_of, sum as sum_of, gap as gap_of, difference as difference_of, is_null_beside as is_null_beside_of, pointers_compared as pointers_compared_of, compared as compared_of, both as both_of, either as either_of, scalars as scalars_of, binary_by as binary_by_of, binary_of};
ghost use Rattle.cc_operands.specs.Operands.{against_null as against_null_of, null_of as null_of_type};
ghost use Rattle.cc_operands.specs.Verdicts.{Judges};
ghost use Rattle.cc_operands.specs.View.{operand_view, type_view};
ghost use Rattle.cc_program.specs.declared.expr.Expr.{Compare as CompareOf};
ghost use Rattle.cc_typed.specs.CcSyntax.Operators.{binary_result as binary_result_of, difference_type as difference_type_of, has_difference as has_difference_of};

use crate::operand::{Operand, against_null, converted_to, folded, null_of, typed};
use crate::operator::Operator;
use crate::rule::Rule;
use crate::types::OperandType;
use crate::verdict::Breach;
use cc_program::num::{BinOp, Boxed, IntType, NoMemory, Target, promote, usual};
use cc_typed::is_shift;
use cc_typed::syntax::{Expr, Structure};
use std::alloc::Global;

/// What is 0 or 1.
pub fn truth(value: Boxed<Expr>) -> Operand
    ensures { operand_view result ≡ truth_of value }
{
    typed(value, OperandType::Integer(IntType::Int))
}

fn is_equality(op: BinOp) -> bool
    ensures { result ≡ is_equality_of op }
{
    matches!(op, BinOp::Eq | BinOp::Ne)
}

/// The type in which an operator works on such integers.
pub fn working_type(target: &Target, op: BinOp, i: IntType, j: IntType) -> IntType
    ensures { result ≡ working_type_of target.now op i j }
{
    if is_shift(op) {
        promote(i, target)
    } else {
        usual(i, j, target)
    }
}

/// The type to which the second of them is converted.
pub fn second_type(target: &Target, op: BinOp, i: IntType, j: IntType) -> IntType
    ensures { result ≡ second_type_of target.now op i j }
{
    if is_shift(op) {
        promote(j, target)
    } else {
        usual(i, j, target)
    }
}

/// The type of what an operator gives that works in a type.
fn binary_result(op: BinOp, t: IntType) -> IntType
    ensures { result ≡ binary_result_of op t }
{
    match op {
        BinOp::Lt | BinOp::Le | BinOp::Gt | BinOp::Ge | BinOp::Eq | BinOp::Ne => IntType::Int,
        _ => t,
    }
}

/// An operator on two integers of the type in which it works.
fn worked(
    alloc: Global,
    target: &Target,
    op: BinOp,
    t: IntType,
    x: Operand,
    y: Operand,
) -> Result<Operand, NoMemory>
    ensures { IfOk result (λ r. operand_view r ≡ worked_of target.now op t (operand_view x) (operand_view y)) }
{
    let constant = x.constancy().binary(op, t, y.constancy(), target);
    let value = Boxed::new(alloc, Expr::Bin(op, t, x.into_value(), y.into_value()))?;
    folded(alloc, binary_result(op, t), constant, value)
}

/// An operator on integers of two types.
fn arithmetic(
    alloc: Global,
    target: &Target,
    op: BinOp,
    i: IntType,
    j: IntType,
    x: Operand,
    y: Operand,
) -> Result<Operand, Breach>
    ensures { Judges operand_view result (Ok (arithmetic_of target.now op i j (operand_view x) (operand_view y))) }
{
    let t = working_type(target, op, i, j);
    let x = converted_to(alloc, target, t, x)?;
    let y = converted_to(alloc, target, second_type(target, op, i, j), y)?;
    Ok(worked(alloc, target, op, t, x, y)?)
}

fn integers(
    alloc: Global,
    target: &Target,
    op: BinOp,
    x: Operand,
    y: Operand,
) -> Result<Operand, Breach>
    ensures { Judges operand_view result (integers_of target.now op (operand_view x) (operand_view y)) }
{
    match (&x.ctype, &y.ctype) {
        (OperandType::Integer(i), OperandType::Integer(j)) => {
            let (i, j) = (*i, *j);
            arithmetic(alloc, target, op, i, j, x, y)
        }
        _ => Err(Breach::Breaks(Rule::NoInteger)),
    }
}

/// A pointer to an object, moved by an integer.
fn moved(
    alloc: Global,
    structures: &[Structure],
    back: bool,
    x: Operand,
    y: Operand,
) -> Result<Operand, Breach>
    ensures { Judges operand_view result (moved_of structures.now back (operand_view x) (operand_view y)) }
{
    if x.ctype.points_to_object(structures) {
        let value = Boxed::new(alloc, Expr::Move(x.value, y.into_value(), back))?;
        Ok(typed(value, x.ctype))
    } else {
        Err(Breach::Breaks(Rule::NoSum))
    }
}

fn sum(
    alloc: Global,
    target: &Target,
    structures: &[Structure],
    x: Operand,
    y: Operand,
) -> Result<Operand, Breach>
    ensures { Judges operand_view result (sum_of target.now structures.now (operand_view x) (operand_view y)) }
{
    match (&x.ctype, &y.ctype) {
        (OperandType::Integer(i), OperandType::Integer(j)) => {
            let (i, j) = (*i, *j);
            arithmetic(alloc, target, BinOp::Add, i, j, x, y)
        }
        (_, OperandType::Integer(_)) => moved(alloc, structures, false, x, y),
        _ => Err(Breach::Breaks(Rule::NoSum)),
    }
}

fn has_difference(structures: &[Structure], t: &OperandType) -> bool
    ensures { result ≡ has_difference_of structures.now (type_view t.now) }
{
    match t {
        OperandType::ToFunction(_) => true,
        _ => t.points_to_object(structures),
    }
}

/// ptrdiff_t: `int` where it is as wide as a pointer, else `long`.
fn difference_type(target: &Target) -> IntType
    ensures { result ≡ difference_type_of target.now }
{
    if target.pointer_bytes <= target.int_bytes {
        IntType::Int
    } else {
        IntType::Long
    }
}

/// The difference of two pointers to one type.
fn gap(
    alloc: Global,
    target: &Target,
    structures: &[Structure],
    x: Operand,
    y: Operand,
) -> Result<Operand, Breach>
    ensures { Judges operand_view result (gap_of target.now structures.now (operand_view x) (operand_view y)) }
{
    if x.ctype.points_alike(&y.ctype) && has_difference(structures, &x.ctype) {
        let value = Boxed::new(alloc, Expr::Gap(x.into_value(), y.into_value()))?;
        Ok(typed(value, OperandType::Integer(difference_type(target))))
    } else {
        Err(Breach::Breaks(Rule::NoSum))
    }
}

fn difference(
    alloc: Global,
    target: &Target,
    structures: &[Structure],
    x: Operand,
    y: Operand,
) -> Result<Operand, Breach>
    ensures { Judges operand_view result (difference_of target.now structures.now (operand_view x) (operand_view y)) }
{
    match (&x.ctype, &y.ctype) {
        (OperandType::Integer(i), OperandType::Integer(j)) => {
            let (i, j) = (*i, *j);
            arithmetic(alloc, target, BinOp::Sub, i, j, x, y)
        }
        (_, OperandType::Integer(_)) => moved(alloc, structures, true, x, y),
        _ => gap(alloc, target, structures, x, y),
    }
}

/// Whether the operator asks whether a pointer is null.
fn is_null_beside(op: BinOp, x: &Operand, y: &Operand) -> bool
    ensures { result ≡ is_null_beside_of op (operand_view x.now) (operand_view y.now) }
{
    is_equality(op) && x.ctype.is_pointer() && y.is_null_constant()
}

/// Two pointers, compared.
fn values_compared(
    alloc: Global,
    op: BinOp,
    a: Boxed<Expr>,
    b: Boxed<Expr>,
) -> Result<Operand, Breach>
    ensures { Judges operand_view result (Ok (truth_of (CompareOf op a b))) }
{
    Ok(truth(Boxed::new(alloc, Expr::Compare(op, a, b))?))
}

/// A null, compared with a pointer.
fn null_compared(alloc: Global, op: BinOp, y: Operand) -> Result<Operand, Breach>
    ensures { Judges operand_view result (Ok (truth_of (CompareOf op (null_of_type (type_view y.ctype)) y.value))) }
{
    let null = null_of(alloc, &y.ctype)?;
    values_compared(alloc, op, null, y.into_value())
}

/// A pointer, compared with a null.
fn compared_with_null(alloc: Global, op: BinOp, x: Operand) -> Result<Operand, Breach>
    ensures { Judges operand_view result (Ok (truth_of (against_null_of op (operand_view x)))) }
{
    Ok(truth(against_null(alloc, op, x)?))
}

fn pointers_compared(alloc: Global, op: BinOp, x: Operand, y: Operand) -> Result<Operand, Breach>
    ensures { Judges operand_view result (pointers_compared_of op (operand_view x) (operand_view y)) }
{
    if is_null_beside(op, &x, &y) {
        compared_with_null(alloc, op, x)
    } else if is_null_beside(op, &y, &x) {
        null_compared(alloc, op, y)
    } else if x.ctype.points_alike(&y.ctype) {
        values_compared(alloc, op, x.into_value(), y.into_value())
    } else {
        Err(Breach::Breaks(Rule::NoComparison))
    }
}

fn compared(
    alloc: Global,
    target: &Target,
    op: BinOp,
    x: Operand,
    y: Operand,
) -> Result<Operand, Breach>
    ensures { Judges operand_view result (compared_of target.now op (operand_view x) (operand_view y)) }
{
    match (&x.ctype, &y.ctype) {
        (OperandType::Integer(i), OperandType::Integer(j)) => {
            let (i, j) = (*i, *j);
            arithmetic(alloc, target, op, i, j, x, y)
        }
        _ => pointers_compared(alloc, op, x, y),
    }
}

/// `a && b`.
fn both(alloc: Global, x: Operand, y: Operand) -> Result<Operand, Breach>
    ensures { Judges operand_view result (scalars_of (operand_view x) (operand_view y) (both_of (operand_view x) (operand_view y))) }
{
    if x.ctype.is_scalar() && y.ctype.is_scalar() {
        let constant = x.constancy().both(y.constancy());
        let value = Boxed::new(alloc, Expr::Both(x.into_value(), y.into_value()))?;
        Ok(folded(alloc, IntType::Int, constant, value)?)
    } else {
        Err(Breach::Breaks(Rule::NoScalar))
    }
}

/// `a || b`.
fn either(alloc: Global, x: Operand, y: Operand) -> Result<Operand, Breach>
    ensures { Judges operand_view result (scalars_of (operand_view x) (operand_view y) (either_of (operand_view x) (operand_view y))) }
{
    if x.ctype.is_scalar() && y.ctype.is_scalar() {
        let constant = x.constancy().either(y.constancy());
        let value = Boxed::new(alloc, Expr::Either(x.into_value(), y.into_value()))?;
        Ok(folded(alloc, IntType::Int, constant, value)?)
    } else {
        Err(Breach::Breaks(Rule::NoScalar))
    }
}

/// What a binary operator makes of two values, which are used.
fn used(
    alloc: Global,
    target: &Target,
    structures: &[Structure],
    op: Operator,
    x: Operand,
    y: Operand,
) -> Result<Operand, Breach>
    ensures { Judges operand_view result (binary_by_of target.now structures.now op (operand_view x) (operand_view y)) }
{
    match op {
        Operator::OfIntegers(op) => integers(alloc, target, op, x, y),
        Operator::Sum => sum(alloc, target, structures, x, y),
        Operator::Difference => difference(alloc, target, structures, x, y),
        Operator::Comparison(op) => compared(alloc, target, op, x, y),
        Operator::Both => both(alloc, x, y),
        Operator::Either => either(alloc, x, y),
    }
}

/// What a binary operator makes of two values (C99 6.5.5 to 6.5.14).
pub fn binary(
    alloc: Global,
    target: &Target,
    structures: &[Structure],
    op: Operator,
    x: Operand,
    y: Operand,
) -> Result<Operand, Breach>
    ensures { Judges operand_view result (binary_of target.now structures.now op (operand_view x) (operand_view y)) }
{
    if x.is_void() || y.is_void() {
        Err(Breach::Breaks(Rule::VoidUsed))
    } else {
        used(alloc, target, structures, op, x, y)
    }
}
