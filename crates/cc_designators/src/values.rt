//! The value of what an expression designates (C99 6.3.2.1, 2 to 4).

ghost use Rattle.std.specs.Prelude.{◌≡◌, IfOk};
ghost use Rattle.cc_designators.specs.Designators.{first_element as first_element_of, loaded as loaded_of, value_at as value_at_of, null as null_of_type};
ghost use Rattle.cc_designators.specs.View.{designated_view};
ghost use Rattle.cc_operands.specs.Verdicts.{Judges};
ghost use Rattle.cc_operands.specs.View.{operand_view};
ghost use Rattle.cc_program.specs.declared.types.Shape.{out-Shape};

use crate::designated::DesignatedType;
use cc_operands::syntax::{CType, Expr, Place, Shape};
use cc_operands::typed_crate::pointer_to;
use cc_operands::{Breach, Operand, OperandType, Rule, owned, typed};
use cc_program::num::{Boxed, IntType, NoMemory};
use std::alloc::Global;

/// The address of the first element of an array (C99 6.3.2.1, 3).
fn first_element(
    alloc: Global,
    place: Boxed<Place>,
    constant: bool,
    volatile: bool,
    of: &CType,
) -> Result<Operand, NoMemory>
    ensures { IfOk result (λ r. operand_view r ≡ first_element_of place constant volatile of.now) }
{
    let first = Boxed::new(alloc, Expr::Const(0, IntType::Int))?;
    let element = Boxed::new(alloc, Place::Element(place, first))?;
    let value = Boxed::new(alloc, Expr::AddrOf(element))?;
    let of = Boxed::new(alloc, of.copy(alloc)?)?;
    Ok(typed(value, OperandType::ToObject(constant, volatile, of)))
}

/// The value of an object (C99 6.3.2.1, 2); that of a structure is read only member by member.
fn loaded(
    alloc: Global,
    place: Boxed<Place>,
    constant: bool,
    volatile: bool,
    t: &CType,
) -> Result<Operand, Breach>
    ensures { Judges operand_view result (loaded_of place constant volatile (out-Shape t.now.shape)) }
{
    match &t.shape {
        Shape::Int(i) => {
            let value = Boxed::new(alloc, Expr::Load(place))?;
            Ok(typed(value, OperandType::Integer(*i)))
        }
        Shape::Pointer(to) => {
            let to = owned(alloc, pointer_to(to.get()))?;
            let value = Boxed::new(alloc, Expr::Load(place))?;
            Ok(typed(value, to))
        }
        Shape::Array(of, _) => Ok(first_element(alloc, place, constant, volatile, of.get())?),
        Shape::Struct(_) => Ok(Operand {
            value: Boxed::new(alloc, Expr::Load(place))?,
            ctype: OperandType::NoValue,
            traps: false,
            structure: true,
        }),
        Shape::Void => Err(Breach::Breaks(Rule::VoidUsed)),
        Shape::Func(_) => Err(Breach::Breaks(Rule::VoidUsed)),
    }
}

/// The value of a place: that of an object, or a pointer to an array's first element or to a function.
pub fn value_at(alloc: Global, place: Boxed<Place>, t: DesignatedType) -> Result<Operand, Breach>
    ensures { Judges operand_view result (value_at_of place (designated_view t)) }
{
    match t {
        DesignatedType::Device(_, t) => {
            let value = Boxed::new(alloc, Expr::Load(place))?;
            Ok(typed(value, OperandType::Integer(t)))
        }
        DesignatedType::Object(constant, volatile, t) => {
            loaded(alloc, place, constant, volatile, t.get())
        }
        DesignatedType::Function(sig) => {
            let value = Boxed::new(alloc, Expr::AddrOf(place))?;
            Ok(typed(value, OperandType::ToFunction(sig)))
        }
    }
}

/// A null of a pointer type (C99 6.3.2.3, 3).
pub fn null(alloc: Global, t: CType) -> Result<Operand, NoMemory>
    ensures { IfOk result (λ r. operand_view r ≡ null_of_type t) }
{
    let ctype = match &t.shape {
        Shape::Pointer(to) => owned(alloc, pointer_to(to.get()))?,
        _ => OperandType::Integer(IntType::Int),
    };
    let t = Boxed::new(alloc, t)?;
    Ok(typed(Boxed::new(alloc, Expr::Null(t))?, ctype))
}
