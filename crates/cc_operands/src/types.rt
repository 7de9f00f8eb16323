//! The types of values, owned.

ghost use Rattle.std.specs.Prelude.{◌≡◌, IfOk};
ghost use Rattle.cc_operands.specs.Operands.{is_pointer as is_pointer_of, is_nothing as is_nothing_of, is_to_void as is_to_void_of};
ghost use Rattle.cc_operands.specs.View.{type_view};
ghost use Rattle.cc_typed.specs.CcSyntax.Operators.{is_integer as is_integer_of, points_to_object as points_to_object_of};
ghost use Rattle.cc_typed.specs.CcSyntax.Values.{is_scalar as is_scalar_of, point_alike as point_alike_of, is_assignable as is_assignable_of};
ghost use Rattle.cc_typed.specs.View.{value_view};

use cc_program::num::{Boxed, IntType, NoMemory};
use cc_typed::syntax::{CType, Sig, Structure};
use cc_typed::{ValueType, is_void};
use std::alloc::Global;

/// The type of a value, which has no qualifiers of its own (C99 6.3.2.1, 2).
#[derive(Drop)]
pub enum OperandType {
    /// That of what a function gives that returns void.
    NoValue,
    Integer(IntType),
    /// A pointer to a type that is no function's, and whether what it points to is const and volatile.
    ToObject(bool, bool, Boxed<CType>),
    ToFunction(Boxed<Sig>),
}

/// A copy of a type.
pub fn owned(alloc: Global, t: ValueType) -> Result<OperandType, NoMemory>
    ensures { IfOk result (λ r. type_view r ≡ value_view t.entry) }
{
    match t {
        ValueType::NoValue => Ok(OperandType::NoValue),
        ValueType::Integer(t) => Ok(OperandType::Integer(t)),
        ValueType::ToObject(constant, volatile, t) => {
            let t = Boxed::new(alloc, t.copy(alloc)?)?;
            Ok(OperandType::ToObject(constant, volatile, t))
        }
        ValueType::ToFunction(sig) => {
            let sig = Boxed::new(alloc, sig.copy(alloc)?)?;
            Ok(OperandType::ToFunction(sig))
        }
    }
}

impl OperandType {
    /// The type, borrowed.
    pub fn view(&self) -> ValueType<'_>
        ensures { value_view result ≡ type_view self.now }
    {
        match self {
            OperandType::NoValue => ValueType::NoValue,
            OperandType::Integer(t) => ValueType::Integer(*t),
            OperandType::ToObject(constant, volatile, t) => ValueType::ToObject(
                *constant,
                *volatile,
                t.get(),
            ),
            OperandType::ToFunction(sig) => ValueType::ToFunction(sig.get()),
        }
    }

    /// A copy of the type.
    pub fn copy(&self, alloc: Global) -> Result<OperandType, NoMemory>
        ensures { IfOk result (λ r. type_view r ≡ type_view self.now) }
    {
        owned(alloc, self.view())
    }

    /// Whether it is an integer.
    pub fn is_integer(&self) -> bool
        ensures { result ≡ is_integer_of (type_view self.now) }
    {
        matches!(self, OperandType::Integer(_))
    }

    /// Whether it is a pointer.
    pub fn is_pointer(&self) -> bool
        ensures { result ≡ is_pointer_of (type_view self.now) }
    {
        match self {
            OperandType::ToObject(_, _, _) => true,
            OperandType::ToFunction(_) => true,
            OperandType::NoValue => false,
            OperandType::Integer(_) => false,
        }
    }

    /// Whether it is an integer or a pointer.
    pub fn is_scalar(&self) -> bool
        ensures { result ≡ is_scalar_of (type_view self.now) }
    {
        !self.is_nothing()
    }

    /// Whether there is no value.
    pub fn is_nothing(&self) -> bool
        ensures { result ≡ is_nothing_of (type_view self.now) }
    {
        matches!(self, OperandType::NoValue)
    }

    /// Whether it is a pointer to void.
    pub fn is_to_void(&self) -> bool
        ensures { result ≡ is_to_void_of (type_view self.now) }
    {
        match self {
            OperandType::ToObject(_, _, t) => is_void(t.get()),
            OperandType::NoValue => false,
            OperandType::Integer(_) => false,
            OperandType::ToFunction(_) => false,
        }
    }

    /// Whether it is a pointer to a complete object type.
    #[tactic(auto, using(crate::proofs::Moves::of_moves))]
    pub fn points_to_object(&self, structures: &[Structure]) -> bool
        ensures { result ≡ points_to_object_of structures.now (type_view self.now) }
    {
        let index = ValueType::Integer(IntType::Int);
        self.view().moved(index, structures).is_some()
    }

    /// Whether both are pointers to one type, outermost qualifiers aside.
    pub fn points_alike(&self, other: &OperandType) -> bool
        ensures { result ≡ point_alike_of (type_view self.now) (type_view other.now) }
    {
        self.view().points_alike(other.view())
    }

    /// Whether a value of the other type can be assigned to what has this one (C99 6.5.16.1, 1).
    pub fn is_assignable(&self, from: &OperandType) -> bool
        ensures { result ≡ is_assignable_of (type_view self.now) (type_view from.now) }
    {
        self.view().is_assignable(from.view())
    }
}
