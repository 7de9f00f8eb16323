//! The type of each expression from those of its parts (C99 6.5).

ghost use Rattle.std.specs.Prelude.{◌≡◌, option_map, slice_get};
ghost use Rattle.std.specs.Option.{option_copied};
ghost use Rattle.cc_program.specs.CcNum.Results.{is_shift as is_shift_of};
ghost use Rattle.cc_syntax.specs.Operators.{is_promoted as is_promoted_of, is_comparison as is_comparison_of, is_additive as is_additive_of, difference_type as difference_type_of, constant_type as constant_type_of, function_type as function_type_of, is_of as is_of_of, is_promoted_value as is_promoted_value_of, is_integer as is_integer_of, unary_result as unary_result_of, unary_type as unary_type_of, second_fits as second_fits_of, binary_result as binary_result_of, binary_type as binary_type_of, conversion_type as conversion_type_of, points_to_object as points_to_object_of, moved_type as moved_type_of, has_difference as has_difference_of, gap_type as gap_type_of, comparison_type as comparison_type_of, logical_type as logical_type_of, common_type as common_type_of, choice_type as choice_type_of, assignment_type as assignment_type_of, changes_by as changes_by_of, change_type as change_type_of, after_type as after_type_of, subscript_type as subscript_type_of};
ghost use Rattle.cc_syntax.specs.Types.{is_complete as is_complete_of, has_members as has_members_of};
ghost use Rattle.cc_typed.specs.View.{value_view, place_view};

use crate::same::{alike, same_int, same_sig};
use crate::values::{PlaceType, ValueType, is_void};
use cc_program::num::{BinOp, IntType, Target, UnOp, at, promote, usual};
use cc_syntax::{CType, Func, Shape, Structure};

/// Whether the integer promotions leave a type as it is (C99 6.3.1.1, 2).
pub fn is_promoted(t: IntType, target: &Target) -> bool
    ensures { result ≡ is_promoted_of target.now t }
{
    same_int(promote(t, target), t)
}

/// Whether the second operand has a type of its own.
pub fn is_shift(op: BinOp) -> bool
    ensures { result ≡ is_shift_of op }
{
    matches!(op, BinOp::Shl | BinOp::Shr)
}

/// Whether an operator compares.
pub fn is_comparison(op: BinOp) -> bool
    ensures { result ≡ is_comparison_of op }
{
    matches!(
        op,
        BinOp::Lt | BinOp::Le | BinOp::Gt | BinOp::Ge | BinOp::Eq | BinOp::Ne
    )
}

/// Whether an operator adds or subtracts (C99 6.5.6).
fn is_additive(op: BinOp) -> bool
    ensures { result ≡ is_additive_of op }
{
    matches!(op, BinOp::Add | BinOp::Sub)
}

/// ptrdiff_t: `int` where it is as wide as a pointer, else `long`.
fn difference_type(target: &Target) -> IntType
    ensures { result ≡ difference_type_of target.now }
{
    if target.pointer_bytes <= target.int_bytes {
        IntType::Int
    } else {
        IntType::Long
    }
}

/// A constant of its type.
pub fn constant_type(n: i128, t: IntType, target: &Target) -> Option<ValueType<'static>>
    ensures { option_map value_view result ≡ constant_type_of target.now n t }
{
    if t.contains(n, target) {
        Some(ValueType::Integer(t))
    } else {
        None
    }
}

/// The address of a function, which no handler's is taken of.
pub fn function_type(f: Option<&Func>) -> Option<ValueType<'_>>
    ensures { option_map value_view result ≡ function_type_of (option_copied f.entry) }
{
    match f {
        None => None,
        Some(f) => match f.entry {
            None => Some(ValueType::ToFunction(&f.sig)),
            Some(_) => None,
        },
    }
}

fn unary_result(op: UnOp, t: IntType) -> IntType
    ensures { result ≡ unary_result_of op t }
{
    match op {
        UnOp::Neg => t,
        UnOp::Not => t,
        UnOp::Lnot => IntType::Int,
    }
}

fn binary_result(op: BinOp, t: IntType) -> IntType
    ensures { result ≡ binary_result_of op t }
{
    if is_comparison(op) { IntType::Int } else { t }
}

impl<'p> ValueType<'p> {
    /// Whether it is an integer of the type.
    pub fn is_of(self, t: IntType) -> bool
        ensures { result ≡ is_of_of t (value_view self.entry) }
    {
        match self {
            ValueType::Integer(s) => same_int(s, t),
            ValueType::NoValue => false,
            ValueType::ToObject(_, _, _) => false,
            ValueType::ToFunction(_) => false,
        }
    }

    fn is_promoted(self, target: &Target) -> bool
        ensures { result ≡ is_promoted_value_of target.now (value_view self.entry) }
    {
        match self {
            ValueType::Integer(s) => is_promoted(s, target),
            ValueType::NoValue => false,
            ValueType::ToObject(_, _, _) => false,
            ValueType::ToFunction(_) => false,
        }
    }

    fn is_integer(self) -> bool
        ensures { result ≡ is_integer_of (value_view self.entry) }
    {
        matches!(self, ValueType::Integer(_))
    }

    fn second_fits(self, op: BinOp, t: IntType, target: &Target) -> bool
        ensures { result ≡ second_fits_of target.now op t (value_view self.entry) }
    {
        if is_shift(op) {
            self.is_promoted(target)
        } else {
            self.is_of(t)
        }
    }

    /// `op a` (C99 6.5.3.3).
    pub fn unary(self, op: UnOp, t: IntType, target: &Target) -> Option<ValueType<'p>>
        ensures { option_map value_view result ≡ unary_type_of target.now op t (value_view self.entry) }
    {
        if is_promoted(t, target) && self.is_of(t) {
            Some(ValueType::Integer(unary_result(op, t)))
        } else {
            None
        }
    }

    /// `a op b` of integers (C99 6.5.5 to 6.5.12).
    pub fn binary(
        self,
        op: BinOp,
        t: IntType,
        other: ValueType,
        target: &Target,
    ) -> Option<ValueType<'p>>
        ensures { option_map value_view result ≡ binary_type_of target.now op t (value_view self.entry) (value_view other.entry) }
    {
        if is_promoted(t, target) && self.is_of(t) && other.second_fits(op, t, target) {
            Some(ValueType::Integer(binary_result(op, t)))
        } else {
            None
        }
    }

    /// A conversion of an integer (C99 6.3.1).
    pub fn converted(self, t: IntType) -> Option<ValueType<'p>>
        ensures { option_map value_view result ≡ conversion_type_of t (value_view self.entry) }
    {
        if self.is_integer() {
            Some(ValueType::Integer(t))
        } else {
            None
        }
    }

    fn points_to_object(self, structures: &[Structure]) -> bool
        ensures { result ≡ points_to_object_of structures.now (value_view self.entry) }
    {
        match self {
            ValueType::ToObject(_, _, t) => is_complete(t, structures),
            ValueType::NoValue => false,
            ValueType::Integer(_) => false,
            ValueType::ToFunction(_) => false,
        }
    }

    /// A pointer moved by an integer (C99 6.5.6, 8).
    pub fn moved(self, by: ValueType, structures: &[Structure]) -> Option<ValueType<'p>>
        ensures { option_map value_view result ≡ moved_type_of structures.now (value_view self.entry) (value_view by.entry) }
    {
        if self.points_to_object(structures) && by.is_integer() {
            Some(self)
        } else {
            None
        }
    }

    /// Whether two pointers to one type have a difference: to a complete object type, or to a function, where it traps.
    fn has_difference(self, structures: &[Structure]) -> bool
        ensures { result ≡ has_difference_of structures.now (value_view self.entry) }
    {
        match self {
            ValueType::ToFunction(_) => true,
            _ => self.points_to_object(structures),
        }
    }

    /// The difference of two pointers (C99 6.5.6, 9).
    pub fn gap(
        self,
        other: ValueType,
        structures: &[Structure],
        target: &Target,
    ) -> Option<ValueType<'p>>
        ensures { option_map value_view result ≡ gap_type_of structures.now target.now (value_view self.entry) (value_view other.entry) }
    {
        if self.points_alike(other) && self.has_difference(structures) {
            Some(ValueType::Integer(difference_type(target)))
        } else {
            None
        }
    }

    /// A comparison of two pointers (C99 6.5.8, 6.5.9).
    pub fn compared(self, op: BinOp, other: ValueType) -> Option<ValueType<'p>>
        ensures { option_map value_view result ≡ comparison_type_of op (value_view self.entry) (value_view other.entry) }
    {
        if is_comparison(op) && self.points_alike(other) {
            Some(ValueType::Integer(IntType::Int))
        } else {
            None
        }
    }

    /// `&&` and `||` (C99 6.5.13, 6.5.14).
    pub fn logical(self, other: ValueType) -> Option<ValueType<'p>>
        ensures { option_map value_view result ≡ logical_type_of (value_view self.entry) (value_view other.entry) }
    {
        if self.is_scalar() && other.is_scalar() {
            Some(ValueType::Integer(IntType::Int))
        } else {
            None
        }
    }

    fn common(self, other: ValueType, target: &Target) -> ValueType<'p>
        ensures { value_view result ≡ common_type_of target.now (value_view self.entry) (value_view other.entry) }
    {
        match (self, other) {
            (ValueType::Integer(s), ValueType::Integer(t)) => {
                if same_int(s, t) && is_promoted(s, target) {
                    ValueType::Integer(s)
                } else {
                    ValueType::NoValue
                }
            }
            (
                ValueType::ToObject(constant, volatile, t),
                ValueType::ToObject(other_constant, other_volatile, u),
            ) => {
                if alike(t, u) && !is_void(t) {
                    ValueType::ToObject(constant || other_constant, volatile || other_volatile, t)
                } else {
                    ValueType::NoValue
                }
            }
            (ValueType::ToFunction(s), ValueType::ToFunction(t)) => {
                if same_sig(s, t) {
                    ValueType::ToFunction(s)
                } else {
                    ValueType::NoValue
                }
            }
            _ => ValueType::NoValue,
        }
    }

    /// `c ? a : b`, of whose arms this is the first (C99 6.5.15).
    pub fn chosen(
        self,
        condition: ValueType,
        other: ValueType,
        target: &Target,
    ) -> Option<ValueType<'p>>
        ensures { option_map value_view result ≡ choice_type_of target.now (value_view condition.entry) (value_view self.entry) (value_view other.entry) }
    {
        if condition.is_scalar() {
            Some(self.common(other, target))
        } else {
            None
        }
    }

    /// What an assignment of the value to such a place gives (C99 6.5.16).
    pub fn assigned(self, value: ValueType) -> Option<ValueType<'p>>
        ensures { option_map value_view result ≡ assignment_type_of (value_view self.entry) (value_view value.entry) }
    {
        if self.is_assignable(value) {
            Some(self)
        } else {
            None
        }
    }

    /// A compound assignment to such a place (C99 6.5.16.2).
    pub fn changed(
        self,
        op: BinOp,
        t: IntType,
        value: ValueType,
        structures: &[Structure],
        target: &Target,
    ) -> Option<ValueType<'p>>
        ensures { option_map value_view result ≡ change_type_of structures.now target.now op t (value_view self.entry) (value_view value.entry) }
    {
        match self {
            ValueType::Integer(s) => {
                if !is_comparison(op) && changes_by(s, op, t, value, target) {
                    Some(ValueType::Integer(s))
                } else {
                    None
                }
            }
            ValueType::ToObject(constant, volatile, to) => {
                if is_additive(op) && is_complete(to, structures) && value.is_of(t) {
                    Some(ValueType::ToObject(constant, volatile, to))
                } else {
                    None
                }
            }
            ValueType::NoValue => None,
            ValueType::ToFunction(_) => None,
        }
    }

    /// A postfix `++` or `--` of such a place (C99 6.5.2.4).
    pub fn stepped(self, structures: &[Structure]) -> Option<ValueType<'p>>
        ensures { option_map value_view result ≡ after_type_of structures.now (value_view self.entry) }
    {
        if self.is_integer() || self.points_to_object(structures) {
            Some(self)
        } else {
            None
        }
    }
}

fn changes_by(s: IntType, op: BinOp, t: IntType, value: ValueType, target: &Target) -> bool
    ensures { result ≡ changes_by_of target.now s op t (value_view value.entry) }
{
    if is_shift(op) {
        same_int(promote(s, target), t) && value.is_promoted(target)
    } else {
        same_int(usual(s, t, target), t) && value.is_of(t)
    }
}

impl<'p> PlaceType<'p> {
    /// `a[i]` of an array (C99 6.5.2.1).
    pub fn subscripted(self, by: ValueType) -> Option<PlaceType<'p>>
        ensures { option_map place_view result ≡ subscript_type_of (place_view self.entry) (value_view by.entry) }
    {
        if by.is_integer() {
            self.element()
        } else {
            None
        }
    }
}

/// Whether a type is a complete object type (C99 6.2.5).
#[tactic(auto, unfolding(cc_syntax::specs::Types::is_complete))]
pub fn is_complete(t: &CType, structures: &[Structure]) -> bool
    ensures { result ≡ is_complete_of structures.now t.now }
{
    match &t.shape {
        Shape::Int(_) => true,
        Shape::Pointer(_) => true,
        Shape::Array(of, n) => 0 < *n && is_complete(of.get(), structures),
        Shape::Struct(id) => has_members(at(structures, *id as usize)),
        Shape::Void => false,
        Shape::Func(_) => false,
    }
}

/// Whether a structure has a content.
pub fn has_members(structure: Option<&Structure>) -> bool
    ensures { result ≡ has_members_of (option_copied structure.entry) }
{
    match structure {
        None => false,
        Some(s) => 0 < s.members.all().len(),
    }
}
