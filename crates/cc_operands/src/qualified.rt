//! Types with other qualifiers; those of an array stand at its innermost element (C99 6.7.3, 8).

ghost use Rattle.std.specs.Prelude.{◌≡◌, IfOk};
ghost use Rattle.cc_operands.specs.Qualified.{plain as plain_of, qualified_as as qualified_as_of, qualified_by as qualified_by_of, without_const as without_const_of, type_of_value as type_of_value_of};
ghost use Rattle.cc_operands.specs.View.{type_view};
ghost use Rattle.cc_program.specs.declared.types.Shape.{Pointer as PointerTo};

use crate::types::OperandType;
use cc_program::num::{Boxed, NoMemory};
use cc_typed::syntax::{CType, Shape};
use std::alloc::Global;

/// A type without qualifiers.
fn plain(shape: Shape) -> CType
    ensures { result ≡ plain_of shape }
{
    CType {
        constant: false,
        volatile: false,
        shape,
    }
}

/// The type with these qualifiers and no others.
#[tactic(auto, unfolding(crate::specs::Qualified::at_element))]
pub fn qualified_as(
    alloc: Global,
    constant: bool,
    volatile: bool,
    t: &CType,
) -> Result<CType, NoMemory>
    ensures { IfOk result (λ r. r ≡ qualified_as_of constant volatile t.now) }
{
    match &t.shape {
        Shape::Array(of, n) => {
            let of = qualified_as(alloc, constant, volatile, of.get())?;
            Ok(CType {
                constant: t.constant,
                volatile: t.volatile,
                shape: Shape::Array(Boxed::new(alloc, of)?, *n),
            })
        }
        _ => Ok(CType {
            constant,
            volatile,
            shape: t.shape.copy(alloc)?,
        }),
    }
}

/// The type with further qualifiers, which say nothing at a function's type.
#[tactic(auto, unfolding(crate::specs::Qualified::at_element))]
pub fn qualified_by(
    alloc: Global,
    constant: bool,
    volatile: bool,
    t: &CType,
) -> Result<CType, NoMemory>
    ensures { IfOk result (λ r. r ≡ qualified_by_of constant volatile t.now) }
{
    match &t.shape {
        Shape::Array(of, n) => {
            let of = qualified_by(alloc, constant, volatile, of.get())?;
            Ok(CType {
                constant: t.constant,
                volatile: t.volatile,
                shape: Shape::Array(Boxed::new(alloc, of)?, *n),
            })
        }
        Shape::Func(_) => t.copy(alloc),
        _ => Ok(CType {
            constant: t.constant || constant,
            volatile: t.volatile || volatile,
            shape: t.shape.copy(alloc)?,
        }),
    }
}

/// The type of an automatic object, which may be written once, by its initialiser.
#[tactic(auto, unfolding(crate::specs::Qualified::at_element))]
pub fn without_const(alloc: Global, t: &CType) -> Result<CType, NoMemory>
    ensures { IfOk result (λ r. r ≡ without_const_of t.now) }
{
    match &t.shape {
        Shape::Array(of, n) => {
            let of = without_const(alloc, of.get())?;
            Ok(CType {
                constant: t.constant,
                volatile: t.volatile,
                shape: Shape::Array(Boxed::new(alloc, of)?, *n),
            })
        }
        _ => Ok(CType {
            constant: false,
            volatile: t.volatile,
            shape: t.shape.copy(alloc)?,
        }),
    }
}

/// A pointer to a type.
fn pointer(alloc: Global, to: CType) -> Result<CType, NoMemory>
    ensures { IfOk result (λ r. r ≡ plain_of (PointerTo to)) }
{
    Ok(plain(Shape::Pointer(Boxed::new(alloc, to)?)))
}

/// The type of a value (C99 6.3.2.1, 2).
pub fn type_of_value(alloc: Global, t: &OperandType) -> Result<CType, NoMemory>
    ensures { IfOk result (λ r. r ≡ type_of_value_of (type_view t.now)) }
{
    match t {
        OperandType::NoValue => Ok(plain(Shape::Void)),
        OperandType::Integer(t) => Ok(plain(Shape::Int(*t))),
        OperandType::ToObject(constant, volatile, t) => pointer(
            alloc,
            qualified_as(alloc, *constant, *volatile, t.get())?,
        ),
        OperandType::ToFunction(sig) => {
            let sig = Boxed::new(alloc, sig.get().copy(alloc)?)?;
            pointer(alloc, plain(Shape::Func(sig)))
        }
    }
}
