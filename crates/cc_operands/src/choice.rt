//! `c ? a : b` and `a, b` (C99 6.5.15, 6.5.17).

ghost use Rattle.std.specs.Prelude.{◌≡◌, IfOk};
ghost use Rattle.cc_operands.specs.Choices.{chosen_integer as chosen_integer_of, chosen_pointer as chosen_pointer_of, arm_chosen as arm_chosen_of, nothing_chosen as nothing_chosen_of, pointers_chosen as pointers_chosen_of, chosen_by, arms_chosen, choose_of, comma_of};
ghost use Rattle.cc_operands.specs.Operands.{converted_to as converted_to_of, is_to_void as is_to_void_of, null_of as null_of_type};
ghost use Rattle.cc_operands.specs.Verdicts.{Judges};
ghost use Rattle.cc_operands.specs.View.{operand_view, type_view, constant_view};
ghost use Rattle.cc_program.specs.declared.expr.Expr.{Choose as ChooseOf};
ghost use Rattle.cc_typed.specs.CcSyntax.Operators.{common_type as common_type_of};

use crate::constants::{Constant, is_true};
use crate::operand::{Operand, as_nothing, converted_to, folded, null_of, typed};
use crate::rule::Rule;
use crate::types::{OperandType, owned};
use crate::verdict::Breach;
use cc_program::num::{Boxed, IntType, NoMemory, Target, usual};
use cc_typed::ValueType;
use cc_typed::syntax::Expr;
use std::alloc::Global;

/// The expression of a choice.
fn choose(alloc: Global, c: Operand, x: Operand, y: Operand) -> Result<Boxed<Expr>, NoMemory>
    ensures { IfOk result (λ r. r ≡ ChooseOf c.value x.value y.value) }
{
    let value = Expr::Choose(c.into_value(), x.into_value(), y.into_value());
    Boxed::new(alloc, value)
}

/// A choice of integers, which are converted to a type.
fn integers(
    alloc: Global,
    target: &Target,
    t: IntType,
    c: Operand,
    x: Operand,
    y: Operand,
) -> Result<Operand, Breach>
    ensures { Judges operand_view result (Ok (chosen_integer_of t (operand_view c) (converted_to_of target.now t (operand_view x)) (converted_to_of target.now t (operand_view y)))) }
{
    let x = converted_to(alloc, target, t, x)?;
    let y = converted_to(alloc, target, t, y)?;
    let constant = c.constancy().chosen(x.constancy(), y.constancy());
    let value = choose(alloc, c, x, y)?;
    Ok(folded(alloc, t, constant, value)?)
}

/// A choice of pointers, as a pointer of a type; `to_void` says that they are pointers to void.
fn pointer(
    alloc: Global,
    to_void: bool,
    c: Operand,
    a: Boxed<Expr>,
    b: Boxed<Expr>,
    t: OperandType,
) -> Result<Operand, Breach>
    ensures { Judges operand_view result (chosen_pointer_of to_void (operand_view c) a b (type_view t)) }
{
    if to_void {
        Err(Breach::Breaks(Rule::PointerToVoid))
    } else {
        let value = Boxed::new(alloc, Expr::Choose(c.into_value(), a, b))?;
        Ok(typed(value, t))
    }
}

/// The type of both arms, which are pointers to one type.
#[tactic(auto, using(crate::proofs::Moves::of_moves))]
fn common_type(
    alloc: Global,
    target: &Target,
    t: &OperandType,
    u: &OperandType,
) -> Result<OperandType, NoMemory>
    ensures { IfOk result (λ r. type_view r ≡ common_type_of target.now (type_view t.now) (type_view u.now)) }
{
    let condition = ValueType::Integer(IntType::Int);
    match t.view().chosen(condition, u.view(), target) {
        Some(t) => owned(alloc, t),
        None => Ok(OperandType::NoValue),
    }
}

/// A choice of a pointer and, where that isn't chosen, a null.
fn pointer_or_null(alloc: Global, c: Operand, x: Operand) -> Result<Operand, Breach>
    ensures { Judges operand_view result (chosen_pointer_of (is_to_void_of (type_view x.ctype)) (operand_view c) x.value (null_of_type (type_view x.ctype)) (type_view x.ctype)) }
{
    let null = null_of(alloc, &x.ctype)?;
    pointer(alloc, x.ctype.is_to_void(), c, x.value, null, x.ctype)
}

/// A choice of a null and, where that isn't chosen, a pointer.
fn null_or_pointer(alloc: Global, c: Operand, y: Operand) -> Result<Operand, Breach>
    ensures { Judges operand_view result (chosen_pointer_of (is_to_void_of (type_view y.ctype)) (operand_view c) (null_of_type (type_view y.ctype)) y.value (type_view y.ctype)) }
{
    let null = null_of(alloc, &y.ctype)?;
    pointer(alloc, y.ctype.is_to_void(), c, null, y.value, y.ctype)
}

/// A choice of two pointers to one type.
fn pointers_alike(
    alloc: Global,
    target: &Target,
    c: Operand,
    x: Operand,
    y: Operand,
) -> Result<Operand, Breach>
    ensures { Judges operand_view result (chosen_pointer_of (is_to_void_of (type_view x.ctype)) (operand_view c) x.value y.value (common_type_of target.now (type_view x.ctype) (type_view y.ctype))) }
{
    let t = common_type(alloc, target, &x.ctype, &y.ctype)?;
    pointer(
        alloc,
        x.ctype.is_to_void(),
        c,
        x.into_value(),
        y.into_value(),
        t,
    )
}

fn pointers(
    alloc: Global,
    target: &Target,
    c: Operand,
    x: Operand,
    y: Operand,
) -> Result<Operand, Breach>
    ensures { Judges operand_view result (pointers_chosen_of target.now (operand_view c) (operand_view x) (operand_view y)) }
{
    if x.ctype.is_pointer() && y.is_null_constant() {
        pointer_or_null(alloc, c, x)
    } else if y.ctype.is_pointer() && x.is_null_constant() {
        null_or_pointer(alloc, c, y)
    } else if x.ctype.points_alike(&y.ctype) {
        pointers_alike(alloc, target, c, x, y)
    } else {
        Err(Breach::Breaks(Rule::NoCommonType))
    }
}

/// A choice of values.
fn values(
    alloc: Global,
    target: &Target,
    c: Operand,
    x: Operand,
    y: Operand,
) -> Result<Operand, Breach>
    ensures { Judges operand_view result (chosen_by target.now (operand_view c) (operand_view x) (operand_view y) (type_view x.ctype) (type_view y.ctype)) }
{
    match (&x.ctype, &y.ctype) {
        (OperandType::Integer(i), OperandType::Integer(j)) => {
            let t = usual(*i, *j, target);
            integers(alloc, target, t, c, x, y)
        }
        _ => pointers(alloc, target, c, x, y),
    }
}

/// The arm that a constant chooses.
fn arm(tested: Constant, x: Operand, y: Operand) -> Operand
    ensures { operand_view result ≡ arm_chosen_of (constant_view tested) (operand_view x) (operand_view y) }
{
    match tested {
        Constant::Value(n) => { if is_true(n) { x } else { y } }
        Constant::NoConstant => x,
        Constant::Traps => x,
    }
}

/// A choice of what has no value: of constants the arm that is chosen is left, where nothing traps.
fn nothing(alloc: Global, c: Operand, x: Operand, y: Operand) -> Result<Operand, NoMemory>
    ensures { IfOk result (λ r. operand_view r ≡ nothing_chosen_of (operand_view c) (operand_view x) (operand_view y)) }
{
    let tested = c.constancy();
    match tested.chosen(x.constancy(), y.constancy()) {
        Constant::Value(_) => Ok(as_nothing(arm(tested, x, y))),
        Constant::NoConstant => {
            let value = choose(alloc, c, x, y)?;
            Ok(typed(value, OperandType::NoValue))
        }
        Constant::Traps => {
            let value = choose(alloc, c, x, y)?;
            Ok(Operand {
                value,
                ctype: OperandType::NoValue,
                traps: true,
                structure: false,
            })
        }
    }
}

/// A choice of what are no structures.
fn arms(
    alloc: Global,
    target: &Target,
    c: Operand,
    x: Operand,
    y: Operand,
) -> Result<Operand, Breach>
    ensures { Judges operand_view result (arms_chosen target.now (operand_view c) (operand_view x) (operand_view y)) }
{
    if x.ctype.is_nothing() && y.ctype.is_nothing() {
        Ok(nothing(alloc, c, x, y)?)
    } else if x.ctype.is_nothing() || y.ctype.is_nothing() {
        Err(Breach::Breaks(Rule::NoCommonType))
    } else {
        values(alloc, target, c, x, y)
    }
}

/// What `c ? a : b` is (C99 6.5.15).
pub fn chosen(
    alloc: Global,
    target: &Target,
    c: Operand,
    x: Operand,
    y: Operand,
) -> Result<Operand, Breach>
    ensures { Judges operand_view result (choose_of target.now (operand_view c) (operand_view x) (operand_view y)) }
{
    if c.is_void() {
        Err(Breach::Breaks(Rule::VoidUsed))
    } else if !c.ctype.is_scalar() {
        Err(Breach::Breaks(Rule::NoScalar))
    } else if x.structure || y.structure {
        Err(Breach::Breaks(Rule::StructureValue))
    } else {
        arms(alloc, target, c, x, y)
    }
}

/// What `a, b` is (C99 6.5.17).
pub fn comma(alloc: Global, x: Operand, y: Operand) -> Result<Operand, Breach>
    ensures { Judges operand_view result (comma_of (operand_view x) (operand_view y)) }
{
    if x.structure || y.structure {
        Err(Breach::Breaks(Rule::StructureValue))
    } else {
        let value = Boxed::new(alloc, Expr::Seq(x.into_value(), y.value))?;
        Ok(typed(value, y.ctype))
    }
}
