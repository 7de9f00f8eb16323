//! What an expression designates before it is a value (C99 6.3.2.1), and the types of places, owned.

ghost use Rattle.std.specs.Prelude.{◌≡◌, IfOk, option_map};
ghost use Rattle.cc_designators.specs.Designators.{IsPlace, IsValue};
ghost use Rattle.cc_designators.specs.View.{designated_view, expr_view};
ghost use Rattle.cc_designators.specs.Postfix.{is_array_place as is_array_place_of};
ghost use Rattle.cc_operands.specs.View.{operand_view, type_view};
ghost use Rattle.cc_operands.specs.CcSyntax.Values.{written_to, element_of, member_of, pointed_to as pointed_to_of};
ghost use Rattle.cc_operands.specs.CcTyped.View.{place_view};

use cc_operands::syntax::{CType, Intr, Place, Sig, Structure};
use cc_operands::typed_crate::{PlaceType, is_void};
use cc_operands::{Operand, OperandType, owned};
use cc_program::num::{Boxed, IntType, NoMemory};
use std::alloc::Global;

/// The type of a place.
#[derive(Drop)]
pub enum DesignatedType {
    /// A device, and whether it is const.
    Device(bool, IntType),
    /// An object, and whether it is const and volatile.
    Object(bool, bool, Boxed<CType>),
    Function(Boxed<Sig>),
}

/// What an expression designates.
#[derive(Drop)]
pub enum TypedExpr {
    Place(Boxed<Place>, Boxed<DesignatedType>),
    Value(Boxed<Operand>),
    /// A function, by its id.
    Function(u32, Boxed<Sig>),
    /// An intrinsic, and where its name stands.
    Intrinsic(Intr, u32),
    /// An integer constant that is cast to a pointer type, and where the cast stands: a null, or what names a
    /// device.
    Address(i128, Boxed<CType>, u32),
}

/// A copy of the type of a place.
pub fn owned_place(alloc: Global, t: PlaceType) -> Result<DesignatedType, NoMemory>
    ensures { IfOk result (λ r. designated_view r ≡ place_view t.entry) }
{
    match t {
        PlaceType::Device(constant, t) => Ok(DesignatedType::Device(constant, t)),
        PlaceType::Object(constant, volatile, t) => {
            let t = Boxed::new(alloc, t.copy(alloc)?)?;
            Ok(DesignatedType::Object(constant, volatile, t))
        }
        PlaceType::Function(sig) => {
            let sig = Boxed::new(alloc, sig.copy(alloc)?)?;
            Ok(DesignatedType::Function(sig))
        }
    }
}

fn owned_place_some(alloc: Global, t: Option<PlaceType>) -> Result<Option<DesignatedType>, NoMemory>
    ensures { IfOk result (λ r. option_map designated_view r ≡ option_map place_view t.entry) }
{
    match t {
        None => Ok(None),
        Some(t) => Ok(Some(owned_place(alloc, t)?)),
    }
}

/// What a pointer points to (C99 6.5.3.2, 4).
pub fn pointed_to(t: OperandType) -> Option<DesignatedType>
    ensures { option_map designated_view result ≡ pointed_to_of (type_view t) }
{
    match t {
        OperandType::ToObject(constant, volatile, t) => {
            if is_void(t.get()) {
                None
            } else {
                Some(DesignatedType::Object(constant, volatile, t))
            }
        }
        OperandType::ToFunction(sig) => Some(DesignatedType::Function(sig)),
        OperandType::NoValue => None,
        OperandType::Integer(_) => None,
    }
}

impl DesignatedType {
    /// The type, borrowed.
    pub fn view(&self) -> PlaceType<'_>
        ensures { place_view result ≡ designated_view self.now }
    {
        match self {
            DesignatedType::Device(constant, t) => PlaceType::Device(*constant, *t),
            DesignatedType::Object(constant, volatile, t) => PlaceType::Object(
                *constant,
                *volatile,
                t.get(),
            ),
            DesignatedType::Function(sig) => PlaceType::Function(sig.get()),
        }
    }

    /// What the place takes where it is written: const ones take nothing (C99 6.3.2.1, 1).
    pub fn written(&self, alloc: Global) -> Result<Option<OperandType>, NoMemory>
        ensures { IfOk result (λ r. option_map type_view r ≡ written_to (designated_view self.now)) }
    {
        match self.view().written() {
            None => Ok(None),
            Some(t) => Ok(Some(owned(alloc, t)?)),
        }
    }

    /// An element of the array that the place holds (C99 6.5.2.1).
    pub fn element(&self, alloc: Global) -> Result<Option<DesignatedType>, NoMemory>
        ensures { IfOk result (λ r. option_map designated_view r ≡ element_of (designated_view self.now)) }
    {
        owned_place_some(alloc, self.view().element())
    }

    /// A member of the structure that the place holds, which is const or volatile where its structure is, too
    /// (C99 6.5.2.3, 3).
    pub fn member(
        &self,
        alloc: Global,
        structures: &[Structure],
        member: u32,
    ) -> Result<Option<DesignatedType>, NoMemory>
        ensures { IfOk result (λ r. option_map designated_view r ≡ member_of structures.now member (designated_view self.now)) }
    {
        owned_place_some(alloc, self.view().member(structures, member))
    }
}

/// A place of the type.
pub fn placed(alloc: Global, place: Place, t: DesignatedType) -> Result<TypedExpr, NoMemory>
    ensures { IfOk result (λ r. expr_view r ≡ IsPlace place (designated_view t)) }
{
    let place = Boxed::new(alloc, place)?;
    Ok(TypedExpr::Place(place, Boxed::new(alloc, t)?))
}

/// A value.
pub fn valued(alloc: Global, x: Operand) -> Result<TypedExpr, NoMemory>
    ensures { IfOk result (λ r. expr_view r ≡ IsValue (operand_view x)) }
{
    Ok(TypedExpr::Value(Boxed::new(alloc, x)?))
}

impl TypedExpr {
    /// Whether it is an array, whose elements are places of their own.
    pub fn is_array_place(&self) -> bool
        ensures { result ≡ is_array_place_of (expr_view self.now) }
    {
        match self {
            TypedExpr::Place(_, t) => t.get().view().element().is_some(),
            TypedExpr::Value(_) => false,
            TypedExpr::Function(_, _) => false,
            TypedExpr::Intrinsic(_, _) => false,
            TypedExpr::Address(_, _, _) => false,
        }
    }
}
