//! Casts, and the numbers that size_t and a pointer hold (C99 6.5.4, 6.5.3.4).

ghost use Rattle.std.specs.Prelude.{◌≡◌, ◌*◌, ◌^◌, IfOk};
ghost use Rattle.cc_designators.specs.Casts.{void_pointer_cast as void_pointer_cast_of, constant_cast as constant_cast_of, qualified_cast as qualified_cast_of, pointer_cast as pointer_cast_of, integer_cast as integer_cast_of, cast_by as cast_by_of, cast_of, fits_pointer as fits_pointer_of, no_device as no_device_of, size_value as size_value_of};
ghost use Rattle.cc_designators.specs.View.{expr_view};
ghost use Rattle.cc_operands.specs.Qualified.{unqualified as unqualified_of};
ghost use Rattle.cc_operands.specs.Verdicts.{Judges};
ghost use Rattle.cc_operands.specs.View.{operand_view, type_view, constant_view};

use crate::designated::{TypedExpr, valued};
use crate::pointers::indirection;
use crate::values::null;
use cc_operands::syntax::{CType, Expr, Shape};
use cc_operands::typed_crate::{is_void, pointer_to};
use cc_operands::{
    Breach, Constant, Operand, OperandType, Rule, as_nothing, cast_to, integer, owned, size_type,
    typed,
};
use cc_program::num::{Boxed, IntType, NoMemory, Target};
use std::alloc::Global;

/// `(void *)a`: of a null constant alone.
fn void_pointer_cast(alloc: Global, t: CType, x: Operand) -> Result<TypedExpr, Breach>
    ensures { Judges expr_view result (void_pointer_cast_of t (operand_view x)) }
{
    if x.is_null_constant() {
        Ok(valued(alloc, null(alloc, t)?)?)
    } else {
        Err(Breach::Breaks(Rule::PointerToVoid))
    }
}

/// An integer, cast to a pointer type.
fn constant_cast(alloc: Global, at: u32, t: CType, constant: Constant) -> Result<TypedExpr, Breach>
    ensures { Judges expr_view result (constant_cast_of at t (constant_view constant)) }
{
    match constant {
        Constant::NoConstant => Err(Breach::Breaks(Rule::Cast)),
        Constant::Value(n) => Ok(TypedExpr::Address(n, Boxed::new(alloc, t)?, at)),
        Constant::Traps => Err(Breach::Breaks(Rule::ConstantTraps)),
    }
}

/// A null constant, or a pointer to the same type with the same qualifiers or fewer, cast to a pointer type.
fn qualified_cast(alloc: Global, t: CType, to: &CType, x: Operand) -> Result<TypedExpr, Breach>
    ensures { Judges expr_view result (qualified_cast_of t to.now (operand_view x)) }
{
    if x.is_null_constant() {
        return Ok(valued(alloc, null(alloc, t)?)?);
    }
    let ctype = owned(alloc, pointer_to(to))?;
    if ctype.is_assignable(&x.ctype) {
        let t = Boxed::new(alloc, t)?;
        let value = Boxed::new(alloc, Expr::Qualify(t, x.value))?;
        Ok(valued(alloc, typed(value, ctype))?)
    } else {
        Err(Breach::Breaks(Rule::Cast))
    }
}

fn pointer_cast(
    alloc: Global,
    at: u32,
    t: CType,
    to: &CType,
    x: Operand,
) -> Result<TypedExpr, Breach>
    ensures { Judges expr_view result (pointer_cast_of at t to.now (operand_view x) (type_view x.ctype)) }
{
    if x.ctype.is_integer() {
        constant_cast(alloc, at, t, x.constancy())
    } else {
        qualified_cast(alloc, t, to, x)
    }
}

fn integer_cast(alloc: Global, target: &Target, t: IntType, x: Operand) -> Result<TypedExpr, Breach>
    ensures { Judges expr_view result (integer_cast_of target.now t (operand_view x) (type_view x.ctype)) }
{
    if x.ctype.is_integer() {
        Ok(valued(alloc, cast_to(alloc, target, t, x)?)?)
    } else {
        Err(Breach::Breaks(Rule::Cast))
    }
}

/// The type without its qualifiers.
fn unqualified(alloc: Global, t: &CType) -> Result<CType, NoMemory>
    ensures { IfOk result (λ r. r ≡ unqualified_of t.now) }
{
    Ok(CType {
        constant: false,
        volatile: false,
        shape: t.shape.copy(alloc)?,
    })
}

/// `(t)a`, where the cast stands at this place (C99 6.5.4).
pub fn cast(
    alloc: Global,
    target: &Target,
    at: u32,
    t: &CType,
    x: Operand,
) -> Result<TypedExpr, Breach>
    ensures { Judges expr_view result (cast_of target.now at t.now (operand_view x)) }
{
    match &t.shape {
        Shape::Void => {
            if x.structure {
                Err(Breach::Breaks(Rule::StructureValue))
            } else {
                Ok(valued(alloc, as_nothing(x))?)
            }
        }
        Shape::Int(i) => {
            if x.is_void() {
                Err(Breach::Breaks(Rule::VoidUsed))
            } else {
                integer_cast(alloc, target, *i, x)
            }
        }
        Shape::Pointer(to) => {
            if x.is_void() {
                Err(Breach::Breaks(Rule::VoidUsed))
            } else {
                let plain = unqualified(alloc, t)?;
                if is_void(to.get()) {
                    void_pointer_cast(alloc, plain, x)
                } else {
                    pointer_cast(alloc, at, plain, to.get(), x)
                }
            }
        }
        Shape::Array(_, _) => Err(Breach::Breaks(Rule::Cast)),
        Shape::Struct(_) => Err(Breach::Breaks(Rule::Cast)),
        Shape::Func(_) => Err(Breach::Breaks(Rule::Cast)),
    }
}

/// The first number that no pointer holds.
fn end_of_pointers(target: &Target) -> u64
    ensures { result ≡ 2 ^ (8 * target.now.pointer_bytes) }
{
    1u64 << (8 * u32::from(target.pointer_bytes))
}

/// Whether a pointer holds the number.
#[tactic(auto, using(crate::proofs::PointerRange::of_pointers))]
pub fn fits_pointer(target: &Target, n: i128) -> bool
    ensures { result ≡ fits_pointer_of target.now n }
{
    0 <= n && n < i128::from(end_of_pointers(target))
}

/// `*(t)n`, where t points to another type than a volatile integer: what a null points to.
pub fn no_device(alloc: Global, n: i128, t: CType) -> Result<TypedExpr, Breach>
    ensures { Judges expr_view result (no_device_of n t) }
{
    if n == 0 {
        indirection(alloc, null(alloc, t)?)
    } else {
        Err(Breach::Breaks(Rule::Device))
    }
}

/// A size, where size_t holds it (C99 6.5.3.4, 4).
pub fn size_value(alloc: Global, target: &Target, n: u64) -> Result<Operand, Breach>
    ensures { Judges operand_view result (size_value_of target.now n) }
{
    let t = size_type(target);
    let size = i128::from(n);
    if t.contains(size, target) {
        Ok(integer(alloc, size, t)?)
    } else {
        Err(Breach::Breaks(Rule::SizeOf))
    }
}
