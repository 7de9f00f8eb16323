//! Unary operators on values (C99 6.5.3.3).

ghost use Rattle.std.specs.Prelude.{◌≡◌, IfOk};
ghost use Rattle.cc_operands.specs.Unary.{negated as negated_of, integer_by, plus_by, not_by, unary_of};
ghost use Rattle.cc_operands.specs.Verdicts.{Judges};
ghost use Rattle.cc_operands.specs.View.{operand_view, type_view};
ghost use Rattle.cc_typed.specs.CcSyntax.Operators.{unary_result as unary_result_of};

use crate::arithmetic::truth;
use crate::operand::{Operand, against_null, converted_to, folded};
use crate::operator::UnaryOperator;
use crate::rule::Rule;
use crate::types::OperandType;
use crate::verdict::Breach;
use cc_program::num::{BinOp, Boxed, IntType, NoMemory, Target, UnOp, promote};
use cc_typed::syntax::Expr;
use std::alloc::Global;

fn unary_result(op: UnOp, t: IntType) -> IntType
    ensures { result ≡ unary_result_of op t }
{
    match op {
        UnOp::Neg => t,
        UnOp::Not => t,
        UnOp::Lnot => IntType::Int,
    }
}

/// An operator on an integer of the type in which it works.
fn negated(
    alloc: Global,
    target: &Target,
    op: UnOp,
    t: IntType,
    x: Operand,
) -> Result<Operand, NoMemory>
    ensures { IfOk result (λ r. operand_view r ≡ negated_of target.now op t (operand_view x)) }
{
    let constant = x.constancy().unary(op, t, target);
    let value = Boxed::new(alloc, Expr::Un(op, t, x.into_value()))?;
    folded(alloc, unary_result(op, t), constant, value)
}

/// An operator on an integer; another operand breaks the rule.
fn of_integer(
    alloc: Global,
    target: &Target,
    broken: Rule,
    op: UnOp,
    x: Operand,
) -> Result<Operand, Breach>
    ensures { Judges operand_view result (integer_by target.now broken op (operand_view x) (type_view x.ctype)) }
{
    let OperandType::Integer(i) = &x.ctype else {
        return Err(Breach::Breaks(broken));
    };
    let t = promote(*i, target);
    let x = converted_to(alloc, target, t, x)?;
    Ok(negated(alloc, target, op, t, x)?)
}

/// `+a`.
fn plus(alloc: Global, target: &Target, x: Operand) -> Result<Operand, Breach>
    ensures { Judges operand_view result (plus_by target.now (operand_view x) (type_view x.ctype)) }
{
    let OperandType::Integer(i) = &x.ctype else {
        return Err(Breach::Breaks(Rule::NoSum));
    };
    let t = promote(*i, target);
    Ok(converted_to(alloc, target, t, x)?)
}

/// `!a`.
fn not(alloc: Global, target: &Target, x: Operand) -> Result<Operand, Breach>
    ensures { Judges operand_view result (not_by target.now (operand_view x) (type_view x.ctype)) }
{
    match &x.ctype {
        OperandType::Integer(_) => of_integer(alloc, target, Rule::NoScalar, UnOp::Lnot, x),
        OperandType::NoValue => Err(Breach::Breaks(Rule::NoScalar)),
        _ => Ok(truth(against_null(alloc, BinOp::Eq, x)?)),
    }
}

/// What a unary operator makes of a value (C99 6.5.3.3).
pub fn unary(
    alloc: Global,
    target: &Target,
    op: UnaryOperator,
    x: Operand,
) -> Result<Operand, Breach>
    ensures { Judges operand_view result (unary_of target.now op (operand_view x)) }
{
    if x.is_void() {
        return Err(Breach::Breaks(Rule::VoidUsed));
    }
    match op {
        UnaryOperator::Plus => plus(alloc, target, x),
        UnaryOperator::Minus => of_integer(alloc, target, Rule::NoSum, UnOp::Neg, x),
        UnaryOperator::Complement => of_integer(alloc, target, Rule::NoInteger, UnOp::Not, x),
        UnaryOperator::Not => not(alloc, target, x),
    }
}
