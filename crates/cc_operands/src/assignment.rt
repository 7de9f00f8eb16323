//! Assignment, and what converts as if by it (C99 6.5.16).

ghost use Rattle.std.specs.Prelude.{◌≡◌, IfOk, option_map};
ghost use Rattle.cc_operands.specs.Assignments.{truth_of_pointer as truth_of_pointer_of, assigned_integer, assigned_pointer, assigned as assigned_of, stored_at, no_operand as no_operand_of, changed_integer, changed_pointer, changed_at, stepped_at};
ghost use Rattle.cc_operands.specs.Operands.{null_of as null_of_type, operand as typed_of};
ghost use Rattle.cc_operands.specs.Verdicts.{Judges};
ghost use Rattle.cc_operands.specs.View.{operand_view, type_view};

use crate::arithmetic::{second_type, truth, working_type};
use crate::operand::{Operand, against_null, cast_to, converted_to, null_of, typed};
use crate::rule::Rule;
use crate::types::OperandType;
use crate::verdict::Breach;
use cc_program::num::{BinOp, Boxed, IntType, NoMemory, Target};
use cc_typed::same_int;
use cc_typed::syntax::{Expr, Place, Structure};
use std::alloc::Global;

/// A pointer as a _Bool (C99 6.3.1.2).
fn truth_of_pointer(alloc: Global, target: &Target, x: Operand) -> Result<Operand, NoMemory>
    ensures { IfOk result (λ r. operand_view r ≡ truth_of_pointer_of target.now (operand_view x)) }
{
    let differs = truth(against_null(alloc, BinOp::Ne, x)?);
    cast_to(alloc, target, IntType::Bool, differs)
}

fn to_integer(alloc: Global, target: &Target, t: IntType, x: Operand) -> Result<Operand, Breach>
    ensures { Judges operand_view result (assigned_integer target.now t (operand_view x) (type_view x.ctype)) }
{
    match &x.ctype {
        OperandType::Integer(_) => Ok(converted_to(alloc, target, t, x)?),
        OperandType::NoValue => Err(Breach::Breaks(Rule::VoidUsed)),
        _ => {
            if same_int(t, IntType::Bool) {
                Ok(truth_of_pointer(alloc, target, x)?)
            } else {
                Err(Breach::Breaks(Rule::NotAssignable))
            }
        }
    }
}

/// A null of a pointer type.
fn null_to(alloc: Global, to: &OperandType) -> Result<Operand, Breach>
    ensures { Judges operand_view result (Ok (typed_of (null_of_type (type_view to.now)) (type_view to.now))) }
{
    let null = null_of(alloc, to)?;
    Ok(typed(null, to.copy(alloc)?))
}

fn to_pointer(alloc: Global, to: &OperandType, x: Operand) -> Result<Operand, Breach>
    ensures { Judges operand_view result (assigned_pointer (type_view to.now) (operand_view x)) }
{
    if x.is_null_constant() {
        null_to(alloc, to)
    } else if to.is_assignable(&x.ctype) {
        Ok(typed(x.into_value(), to.copy(alloc)?))
    } else {
        Err(Breach::Breaks(Rule::NotAssignable))
    }
}

/// A value as it is assigned to what has such a type (C99 6.5.16.1, 1).
pub fn assigned(
    alloc: Global,
    target: &Target,
    to: &OperandType,
    x: Operand,
) -> Result<Operand, Breach>
    ensures { Judges operand_view result (assigned_of target.now (type_view to.now) (operand_view x)) }
{
    if x.structure {
        return Err(Breach::Breaks(Rule::StructureValue));
    }
    match to {
        OperandType::Integer(t) => to_integer(alloc, target, *t, x),
        OperandType::NoValue => Err(Breach::Breaks(Rule::NotAssignable)),
        _ => {
            if x.is_void() {
                Err(Breach::Breaks(Rule::VoidUsed))
            } else {
                to_pointer(alloc, to, x)
            }
        }
    }
}

/// `a = b`, where a is a place that takes such a type (C99 6.5.16.1).
pub fn stored(
    alloc: Global,
    target: &Target,
    place: Boxed<Place>,
    to: Option<OperandType>,
    x: Operand,
) -> Result<Operand, Breach>
    ensures { Judges operand_view result (stored_at target.now place (option_map type_view to) (operand_view x)) }
{
    let Some(to) = to else {
        return Err(Breach::Breaks(Rule::NotModifiable));
    };
    let y = assigned(alloc, target, &to, x)?;
    let value = Boxed::new(alloc, Expr::Assign(place, y.into_value()))?;
    Ok(typed(value, to))
}

/// The rule that an operand breaks which is no integer.
fn no_operand(op: BinOp) -> Rule
    ensures { result ≡ no_operand_of op }
{
    match op {
        BinOp::Add | BinOp::Sub => Rule::NoSum,
        _ => Rule::NoInteger,
    }
}

fn integer_changed(
    alloc: Global,
    target: &Target,
    op: BinOp,
    place: Boxed<Place>,
    s: IntType,
    x: Operand,
) -> Result<Operand, Breach>
    ensures { Judges operand_view result (changed_integer target.now op place s (operand_view x) (type_view x.ctype)) }
{
    let OperandType::Integer(j) = &x.ctype else {
        return Err(Breach::Breaks(no_operand(op)));
    };
    let j = *j;
    let x = converted_to(alloc, target, second_type(target, op, s, j), x)?;
    let t = working_type(target, op, s, j);
    let value = Boxed::new(alloc, Expr::Change(place, op, t, x.into_value()))?;
    Ok(typed(value, OperandType::Integer(s)))
}

fn pointer_changed(
    alloc: Global,
    structures: &[Structure],
    op: BinOp,
    place: Boxed<Place>,
    to: OperandType,
    x: Operand,
) -> Result<Operand, Breach>
    ensures { Judges operand_view result (changed_pointer structures.now op place (type_view to) (operand_view x) (type_view x.ctype)) }
{
    let OperandType::Integer(j) = &x.ctype else {
        return Err(Breach::Breaks(no_operand(op)));
    };
    if !matches!(op, BinOp::Add | BinOp::Sub) {
        Err(Breach::Breaks(Rule::NoInteger))
    } else if !to.points_to_object(structures) {
        Err(Breach::Breaks(Rule::NoSum))
    } else {
        let j = *j;
        let value = Boxed::new(alloc, Expr::Change(place, op, j, x.into_value()))?;
        Ok(typed(value, to))
    }
}

/// `a op= b`, `++a` and `--a`, where a is a place that takes such a type (C99 6.5.16.2, 6.5.3.1).
pub fn changed(
    alloc: Global,
    target: &Target,
    structures: &[Structure],
    op: BinOp,
    place: Boxed<Place>,
    to: Option<OperandType>,
    x: Operand,
) -> Result<Operand, Breach>
    ensures { Judges operand_view result (changed_at target.now structures.now op place (operand_view x) (option_map type_view to)) }
{
    if x.is_void() {
        return Err(Breach::Breaks(Rule::VoidUsed));
    }
    match to {
        None => Err(Breach::Breaks(Rule::NotModifiable)),
        Some(OperandType::Integer(s)) => integer_changed(alloc, target, op, place, s, x),
        Some(OperandType::NoValue) => Err(Breach::Breaks(Rule::NotModifiable)),
        Some(to) => pointer_changed(alloc, structures, op, place, to, x),
    }
}

/// `a++`, and `a--` where the flag is set, where a is a place that takes such a type (C99 6.5.2.4).
pub fn stepped(
    alloc: Global,
    structures: &[Structure],
    down: bool,
    place: Boxed<Place>,
    to: Option<OperandType>,
) -> Result<Operand, Breach>
    ensures { Judges operand_view result (stepped_at structures.now down place (option_map type_view to)) }
{
    let Some(to) = to else {
        return Err(Breach::Breaks(Rule::NotModifiable));
    };
    if to.is_integer() || to.points_to_object(structures) {
        let value = Boxed::new(alloc, Expr::After(place, down))?;
        Ok(typed(value, to))
    } else {
        Err(Breach::Breaks(Rule::NoSum))
    }
}
