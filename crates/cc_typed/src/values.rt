//! The types of values and of places.

ghost use Rattle.std.specs.Prelude.{◌≡◌, ◌&&◌, ◌||◌, not, option_map};
ghost use Rattle.cc_syntax.specs.Values.{is_scalar as is_scalar_of, is_void as is_void_of, pointer_to as pointer_to_of, scalar_value as scalar_value_of, result_value as result_value_of, object_place as object_place_of, read_from as read_from_of, written_to as written_to_of, address_of as address_of_of, pointed_to as pointed_to_of, element_of as element_of_of, member_of as member_of_of, member_at as member_at_of, member_in as member_in_of, point_alike as point_alike_of, is_assignable as is_assignable_of, implies as implies_of};
ghost use Rattle.cc_typed.specs.View.{value_view, place_view};
ghost use Rattle.std.specs.Prelude.{slice_get};
ghost use Rattle.std.specs.Option.{option_copied};

use crate::same::{alike, same_int, same_sig};
use cc_program::num::{IntType, Name, at};
use cc_syntax::{CType, Shape, Sig, Structure};

/// The type of a value, which has no qualifiers of its own.
#[derive(Clone, Copy)]
pub enum ValueType<'p> {
    /// The result of a function that returns void.
    NoValue,
    Integer(IntType),
    /// A pointer to a type that is no function's, and whether what it points to is const and volatile.
    ToObject(bool, bool, &'p CType),
    ToFunction(&'p Sig),
}

/// The type of a place.
#[derive(Clone, Copy)]
pub enum PlaceType<'p> {
    /// A device, and whether it is const.
    Device(bool, IntType),
    /// An object, and whether it is const and volatile.
    Object(bool, bool, &'p CType),
    Function(&'p Sig),
}

/// Whether a type is void.
pub fn is_void(t: &CType) -> bool
    ensures { result ≡ is_void_of t.now }
{
    matches!(&t.shape, Shape::Void)
}

/// A pointer to a type.
pub fn pointer_to(t: &CType) -> ValueType<'_>
    ensures { value_view result ≡ pointer_to_of t.now }
{
    match &t.shape {
        Shape::Func(sig) => ValueType::ToFunction(sig.get()),
        _ => ValueType::ToObject(t.is_const(), t.is_volatile(), t),
    }
}

/// The value of what has a scalar type; another type has none.
pub fn scalar_value(t: &CType) -> Option<ValueType<'_>>
    ensures { option_map value_view result ≡ scalar_value_of t.now }
{
    match &t.shape {
        Shape::Int(i) => Some(ValueType::Integer(*i)),
        Shape::Pointer(to) => Some(pointer_to(to.get())),
        _ => None,
    }
}

/// What a function of such a result gives.
pub fn result_value(t: &CType) -> Option<ValueType<'_>>
    ensures { option_map value_view result ≡ result_value_of t.now }
{
    if is_void(t) {
        Some(ValueType::NoValue)
    } else {
        scalar_value(t)
    }
}

/// An object that is declared with a type.
pub fn object_place(t: &CType) -> PlaceType<'_>
    ensures { place_view result ≡ object_place_of t.now }
{
    PlaceType::Object(t.is_const(), t.is_volatile(), t)
}

fn implies(a: bool, b: bool) -> bool
    ensures { result ≡ implies_of a b }
{
    !a || b
}

impl<'p> ValueType<'p> {
    /// Whether it is an integer or a pointer.
    pub fn is_scalar(self) -> bool
        ensures { result ≡ is_scalar_of (value_view self.entry) }
    {
        !matches!(self, ValueType::NoValue)
    }

    /// Whether both are pointers to one type, outermost qualifiers aside.
    pub fn points_alike(self, other: ValueType) -> bool
        ensures { result ≡ point_alike_of (value_view self.entry) (value_view other.entry) }
    {
        match (self, other) {
            (ValueType::ToObject(_, _, t), ValueType::ToObject(_, _, u)) => alike(t, u),
            (ValueType::ToFunction(s), ValueType::ToFunction(t)) => same_sig(s, t),
            _ => false,
        }
    }

    /// Whether a value can be assigned to what has this type (C99 6.5.16.1, 1).
    pub fn is_assignable(self, from: ValueType) -> bool
        ensures { result ≡ is_assignable_of (value_view self.entry) (value_view from.entry) }
    {
        match (self, from) {
            (ValueType::Integer(s), ValueType::Integer(t)) => same_int(s, t),
            (
                ValueType::ToObject(constant, volatile, t),
                ValueType::ToObject(from_constant, from_volatile, u),
            ) => alike(t, u)
                && implies(from_constant, constant)
                && implies(from_volatile, volatile),
            (ValueType::ToFunction(s), ValueType::ToFunction(t)) => same_sig(s, t),
            _ => false,
        }
    }

    /// What a pointer points to (C99 6.5.3.2, 4).
    pub fn pointed_to(self) -> Option<PlaceType<'p>>
        ensures { option_map place_view result ≡ pointed_to_of (value_view self.entry) }
    {
        match self {
            ValueType::ToObject(constant, volatile, t) => {
                if is_void(t) {
                    None
                } else {
                    Some(PlaceType::Object(constant, volatile, t))
                }
            }
            ValueType::ToFunction(sig) => Some(PlaceType::Function(sig)),
            ValueType::NoValue => None,
            ValueType::Integer(_) => None,
        }
    }
}

impl<'p> PlaceType<'p> {
    /// What the place gives where it is read (C99 6.3.2.1, 2).
    pub fn read(self) -> Option<ValueType<'p>>
        ensures { option_map value_view result ≡ read_from_of (place_view self.entry) }
    {
        match self {
            PlaceType::Device(_, t) => Some(ValueType::Integer(t)),
            PlaceType::Object(_, _, t) => scalar_value(t),
            PlaceType::Function(_) => None,
        }
    }

    /// What the place takes where it is written: const ones take nothing (C99 6.3.2.1, 1).
    pub fn written(self) -> Option<ValueType<'p>>
        ensures { option_map value_view result ≡ written_to_of (place_view self.entry) }
    {
        match self {
            PlaceType::Device(true, _) => None,
            PlaceType::Device(false, t) => Some(ValueType::Integer(t)),
            PlaceType::Object(true, _, _) => None,
            PlaceType::Object(false, _, t) => scalar_value(t),
            PlaceType::Function(_) => None,
        }
    }

    /// The address of the place (C99 6.5.3.2, 1); a device has none.
    pub fn address(self) -> Option<ValueType<'p>>
        ensures { option_map value_view result ≡ address_of_of (place_view self.entry) }
    {
        match self {
            PlaceType::Device(_, _) => None,
            PlaceType::Object(constant, volatile, t) => Some(ValueType::ToObject(
                constant, volatile, t,
            )),
            PlaceType::Function(sig) => Some(ValueType::ToFunction(sig)),
        }
    }

    /// An element of the array that the place holds (C99 6.5.2.1).
    pub fn element(self) -> Option<PlaceType<'p>>
        ensures { option_map place_view result ≡ element_of_of (place_view self.entry) }
    {
        match self {
            PlaceType::Object(constant, volatile, t) => match &t.shape {
                Shape::Array(of, _) => Some(PlaceType::Object(constant, volatile, of.get())),
                _ => None,
            },
            PlaceType::Device(_, _) => None,
            PlaceType::Function(_) => None,
        }
    }

    /// A member of the structure that the place holds, which is const or volatile where its structure
    /// is, too (C99 6.5.2.3, 3).
    pub fn member(self, structures: &'p [Structure], member: u32) -> Option<PlaceType<'p>>
        ensures { option_map place_view result ≡ member_of_of structures.now member (place_view self.entry) }
    {
        match self {
            PlaceType::Object(constant, volatile, t) => match &t.shape {
                Shape::Struct(id) => {
                    member_in(constant, volatile, at(structures, *id as usize), member)
                }
                _ => None,
            },
            PlaceType::Device(_, _) => None,
            PlaceType::Function(_) => None,
        }
    }
}

fn member_in(
    constant: bool,
    volatile: bool,
    structure: Option<&Structure>,
    member: u32,
) -> Option<PlaceType<'_>>
    ensures { option_map place_view result ≡ member_in_of constant volatile member (option_copied structure.entry) }
{
    match structure {
        None => None,
        Some(s) => member_at(constant, volatile, at(s.members.all(), member as usize)),
    }
}

fn member_at(
    constant: bool,
    volatile: bool,
    member: Option<&(Name, CType)>,
) -> Option<PlaceType<'_>>
    ensures { option_map place_view result ≡ member_at_of constant volatile (option_copied member.entry) }
{
    match member {
        None => None,
        Some((_, t)) => Some(PlaceType::Object(
            constant || t.is_const(),
            volatile || t.is_volatile(),
            t,
        )),
    }
}
