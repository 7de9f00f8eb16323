//! The type of each expression and each place from those that its parts have, where none of these is broken.

ghost use Rattle.std.specs.Prelude.{◌≡◌, option_map, Some as SomeOf};
ghost use Rattle.cc_syntax.specs.Expressions.{of_one, of_two};
ghost use Rattle.cc_syntax.specs.Operators.{unary_type, binary_type, conversion_type, moved_type, gap_type, comparison_type, logical_type, choice_type, assignment_type, change_type, after_type, subscript_type};
ghost use Rattle.cc_syntax.specs.Values.{read_from, written_to, address_of, pointed_to as pointed_to_of, member_of};
ghost use Rattle.cc_typed.specs.View.{value_view, place_view};

use crate::values::{PlaceType, ValueType};
use cc_program::num::{BinOp, IntType, UnOp};
use cc_syntax::Program;

/// A place that is read.
pub fn read<'p>(a: Option<PlaceType<'p>>) -> Option<ValueType<'p>>
    ensures { option_map value_view result ≡ of_one (option_map place_view a.entry) read_from }
{
    match a {
        None => None,
        Some(a) => a.read(),
    }
}

/// A place that is written.
fn written<'p>(a: Option<PlaceType<'p>>) -> Option<ValueType<'p>>
    ensures { option_map value_view result ≡ of_one (option_map place_view a.entry) written_to }
{
    match a {
        None => None,
        Some(a) => a.written(),
    }
}

/// The address of a place.
pub fn address<'p>(a: Option<PlaceType<'p>>) -> Option<ValueType<'p>>
    ensures { option_map value_view result ≡ of_one (option_map place_view a.entry) address_of }
{
    match a {
        None => None,
        Some(a) => a.address(),
    }
}

/// `op a`.
pub fn unary<'p>(
    p: &Program,
    op: UnOp,
    t: IntType,
    a: Option<ValueType<'p>>,
) -> Option<ValueType<'p>>
    ensures { option_map value_view result ≡ of_one (option_map value_view a.entry) (unary_type p.now.target op t) }
{
    match a {
        None => None,
        Some(a) => a.unary(op, t, &p.target),
    }
}

/// `a op b` of integers.
pub fn binary<'p>(
    p: &Program,
    op: BinOp,
    t: IntType,
    a: Option<ValueType<'p>>,
    b: Option<ValueType>,
) -> Option<ValueType<'p>>
    ensures { option_map value_view result ≡ of_two (option_map value_view a.entry) (option_map value_view b.entry) (binary_type p.now.target op t) }
{
    match (a, b) {
        (Some(a), Some(b)) => a.binary(op, t, b, &p.target),
        _ => None,
    }
}

/// A conversion of an integer.
pub fn converted<'p>(t: IntType, a: Option<ValueType<'p>>) -> Option<ValueType<'p>>
    ensures { option_map value_view result ≡ of_one (option_map value_view a.entry) (conversion_type t) }
{
    match a {
        None => None,
        Some(a) => a.converted(t),
    }
}

/// A pointer moved by an integer.
pub fn moved<'p>(
    p: &Program,
    a: Option<ValueType<'p>>,
    by: Option<ValueType>,
) -> Option<ValueType<'p>>
    ensures { option_map value_view result ≡ of_two (option_map value_view a.entry) (option_map value_view by.entry) (moved_type p.now.structures) }
{
    match (a, by) {
        (Some(a), Some(by)) => a.moved(by, p.structures.all()),
        _ => None,
    }
}

/// The difference of two pointers.
pub fn gap<'p>(p: &Program, a: Option<ValueType<'p>>, b: Option<ValueType>) -> Option<ValueType<'p>>
    ensures { option_map value_view result ≡ of_two (option_map value_view a.entry) (option_map value_view b.entry) (gap_type p.now.structures p.now.target) }
{
    match (a, b) {
        (Some(a), Some(b)) => a.gap(b, p.structures.all(), &p.target),
        _ => None,
    }
}

/// A comparison of two pointers.
pub fn compared<'p>(
    op: BinOp,
    a: Option<ValueType<'p>>,
    b: Option<ValueType>,
) -> Option<ValueType<'p>>
    ensures { option_map value_view result ≡ of_two (option_map value_view a.entry) (option_map value_view b.entry) (comparison_type op) }
{
    match (a, b) {
        (Some(a), Some(b)) => a.compared(op, b),
        _ => None,
    }
}

/// `&&` and `||`.
pub fn logical<'p>(a: Option<ValueType<'p>>, b: Option<ValueType>) -> Option<ValueType<'p>>
    ensures { option_map value_view result ≡ of_two (option_map value_view a.entry) (option_map value_view b.entry) logical_type }
{
    match (a, b) {
        (Some(a), Some(b)) => a.logical(b),
        _ => None,
    }
}

/// `c ? a : b`.
pub fn chosen<'p>(
    p: &Program,
    c: Option<ValueType>,
    a: Option<ValueType<'p>>,
    b: Option<ValueType>,
) -> Option<ValueType<'p>>
    ensures { option_map value_view result ≡ of_one (option_map value_view c.entry) (λ c. of_two (option_map value_view a.entry) (option_map value_view b.entry) (choice_type p.now.target c)) }
{
    match (c, a, b) {
        (Some(c), Some(a), Some(b)) => a.chosen(c, b, &p.target),
        _ => None,
    }
}

/// `a = b`.
pub fn assigned<'p>(a: Option<PlaceType<'p>>, b: Option<ValueType>) -> Option<ValueType<'p>>
    ensures { option_map value_view result ≡ of_two (of_one (option_map place_view a.entry) written_to) (option_map value_view b.entry) assignment_type }
{
    match (written(a), b) {
        (Some(to), Some(b)) => to.assigned(b),
        _ => None,
    }
}

/// A compound assignment.
pub fn changed<'p>(
    p: &Program,
    a: Option<PlaceType<'p>>,
    op: BinOp,
    t: IntType,
    b: Option<ValueType>,
) -> Option<ValueType<'p>>
    ensures { option_map value_view result ≡ of_two (of_one (option_map place_view a.entry) written_to) (option_map value_view b.entry) (change_type p.now.structures p.now.target op t) }
{
    match (written(a), b) {
        (Some(to), Some(b)) => to.changed(op, t, b, p.structures.all(), &p.target),
        _ => None,
    }
}

/// A postfix `++` or `--`.
pub fn stepped<'p>(p: &Program, a: Option<PlaceType<'p>>) -> Option<ValueType<'p>>
    ensures { option_map value_view result ≡ of_one (of_one (option_map place_view a.entry) written_to) (after_type p.now.structures) }
{
    match written(a) {
        None => None,
        Some(to) => to.stepped(p.structures.all()),
    }
}

/// `a, b`.
pub fn second<'p>(a: Option<ValueType>, b: Option<ValueType<'p>>) -> Option<ValueType<'p>>
    ensures { option_map value_view result ≡ of_two (option_map value_view a.entry) (option_map value_view b.entry) (λ a b. SomeOf b) }
{
    match a {
        None => None,
        Some(_) => b,
    }
}

/// `a[i]` of an array.
pub fn subscripted<'p>(a: Option<PlaceType<'p>>, i: Option<ValueType>) -> Option<PlaceType<'p>>
    ensures { option_map place_view result ≡ of_two (option_map place_view a.entry) (option_map value_view i.entry) subscript_type }
{
    match (a, i) {
        (Some(a), Some(i)) => a.subscripted(i),
        _ => None,
    }
}

/// A member of a structure.
pub fn member<'p>(p: &'p Program, a: Option<PlaceType<'p>>, member: u32) -> Option<PlaceType<'p>>
    ensures { option_map place_view result ≡ of_one (option_map place_view a.entry) (member_of p.now.structures member) }
{
    match a {
        None => None,
        Some(a) => a.member(p.structures.all(), member),
    }
}

/// What a pointer points to.
pub fn pointed_to<'p>(a: Option<ValueType<'p>>) -> Option<PlaceType<'p>>
    ensures { option_map place_view result ≡ of_one (option_map value_view a.entry) pointed_to_of }
{
    match a {
        None => None,
        Some(a) => a.pointed_to(),
    }
}
