//! Addresses, and what pointers point to (C99 6.5.3.2, 6.5.2.1).

ghost use Rattle.cc_designators.specs.Postfix.{address_at, address as address_of_expr, indirection as indirection_of, subscripted as subscripted_of, element as element_by_of};
ghost use Rattle.cc_designators.specs.View.{designated_view, expr_view};
ghost use Rattle.cc_operands.specs.Verdicts.{Judges};
ghost use Rattle.cc_operands.specs.View.{operand_view};
ghost use Rattle.cc_operands.specs.CcSyntax.Values.{address_of};

use crate::designated::{DesignatedType, TypedExpr, placed, pointed_to};
use cc_operands::syntax::{Expr, Place, Structure};
use cc_operands::{Breach, Operand, OperandType, Rule, typed};
use cc_program::num::Boxed;
use std::alloc::Global;

/// The address of a place that is no device.
fn place_address(alloc: Global, place: Boxed<Place>, t: DesignatedType) -> Result<Operand, Breach>
    ensures { Judges operand_view result (address_at place (address_of (designated_view t))) }
{
    let to = match t {
        DesignatedType::Device(_, _) => {
            return Err(Breach::Breaks(Rule::AddressOf));
        }
        DesignatedType::Object(constant, volatile, t) => OperandType::ToObject(
            constant, volatile, t,
        ),
        DesignatedType::Function(sig) => OperandType::ToFunction(sig),
    };
    let value = Boxed::new(alloc, Expr::AddrOf(place))?;
    Ok(typed(value, to))
}

/// `&a` (C99 6.5.3.2, 1).
pub fn address(alloc: Global, a: TypedExpr) -> Result<Operand, Breach>
    ensures { Judges operand_view result (address_of_expr (expr_view a)) }
{
    match a {
        TypedExpr::Place(place, t) => place_address(alloc, place, t.into_inner()),
        TypedExpr::Function(f, sig) => {
            let value = Boxed::new(alloc, Expr::FuncAddr(f))?;
            Ok(typed(value, OperandType::ToFunction(sig)))
        }
        TypedExpr::Value(x) => {
            if x.get().is_void() {
                Err(Breach::Breaks(Rule::VoidUsed))
            } else {
                Err(Breach::Breaks(Rule::AddressOf))
            }
        }
        TypedExpr::Intrinsic(_, _) => Err(Breach::Breaks(Rule::MainOrIntrinsic)),
        TypedExpr::Address(_, _, _) => Err(Breach::Breaks(Rule::AddressOf)),
    }
}

/// `*p` (C99 6.5.3.2, 2), where p names no device.
pub fn indirection(alloc: Global, p: Operand) -> Result<TypedExpr, Breach>
    ensures { Judges expr_view result (indirection_of (operand_view p)) }
{
    if p.is_void() {
        return Err(Breach::Breaks(Rule::VoidUsed));
    }
    match pointed_to(p.ctype) {
        None => Err(Breach::Breaks(Rule::Indirection)),
        Some(t) => Ok(placed(alloc, Place::Deref(p.value), t)?),
    }
}

/// `p[i]` of a pointer to an object (C99 6.5.2.1).
pub fn subscripted(
    alloc: Global,
    structures: &[Structure],
    x: Operand,
    i: Operand,
) -> Result<TypedExpr, Breach>
    ensures { Judges expr_view result (subscripted_of structures.now (operand_view x) (operand_view i)) }
{
    if x.is_void() || i.is_void() {
        return Err(Breach::Breaks(Rule::VoidUsed));
    }
    if !i.ctype.is_integer() || !x.ctype.points_to_object(structures) {
        return Err(Breach::Breaks(Rule::Subscript));
    }
    match pointed_to(x.ctype) {
        None => Err(Breach::Breaks(Rule::Subscript)),
        Some(t) => {
            let moved = Boxed::new(alloc, Expr::Move(x.value, i.value, false))?;
            Ok(placed(alloc, Place::Deref(moved), t)?)
        }
    }
}

/// `a[i]` of an array that is a place (C99 6.5.2.1).
pub fn element(
    alloc: Global,
    place: Boxed<Place>,
    t: &DesignatedType,
    i: Operand,
) -> Result<TypedExpr, Breach>
    ensures { Judges expr_view result (element_by_of place (designated_view t.now) (operand_view i)) }
{
    if i.is_void() {
        return Err(Breach::Breaks(Rule::VoidUsed));
    }
    if !i.ctype.is_integer() {
        return Err(Breach::Breaks(Rule::Subscript));
    }
    match t.element(alloc)? {
        None => Err(Breach::Breaks(Rule::Subscript)),
        Some(of) => Ok(placed(alloc, Place::Element(place, i.value), of)?),
    }
}
