//! Whether sets are of values of a type.

ghost use Rattle.std.specs.Prelude.{◌≡◌, ◌↔◌, ℤ, true, IsTrue, Some, option_map};
ghost use Rattle.cc_program.specs.CcNum.Integers.{is_value_of};
ghost use Rattle.cc_state.specs.Shape.{HoldsIntegers, IsSetIn, IsCellType};
ghost use Rattle.cc_state_reads.specs.CcStateOperators.Domains.{domain};
ghost use Rattle.cc_state_shaped.specs.Layout.{IsLayoutOf};
ghost use Rattle.cc_state_shaped.specs.Parts.{IsFoundCellType, IsSetOf};
ghost use Rattle.cc_state_reads.specs.CcTyped.View.{value_view};

use crate::addresses::holds_pointers;
use crate::layout::Layout;
use cc_program::num::{IntType, Target};
use cc_program::{CType, Program, Shape};
use cc_state_reads::lattice::IntDomain;
use cc_state_reads::places::Abs;
use cc_state_reads::typed::{ValueType, scalar_value};

/// Whether each member of a set is a value of a type.
fn are_values<I: IntDomain>(set: &I, t: IntType, target: &Target) -> bool
    ensures { IsTrue result ↔ ((n : ℤ) → I.Has set.now n → is_value_of t target.now n ≡ true) }
{
    match set.bounds() {
        None => true,
        Some((low, high)) => t.contains(low, target) && t.contains(high, target),
    }
}

/// Whether a set has no member.
fn is_empty<I: IntDomain>(set: &I) -> bool
    ensures { IsTrue result ↔ ((n : ℤ) → I.Has set.now n → ⊥) }
{
    match set.bounds() {
        None => true,
        Some(_) => false,
    }
}

/// Whether a set of integers is of values of a type. Of no value it is empty.
fn holds_integers<I: IntDomain>(p: &Program, t: ValueType, set: &I) -> bool
    ensures { IsTrue result ↔ HoldsIntegers p.now (domain I.Has I.IsBelow I.OpGives I.OpOneGives I.ToGives I.KeepGives I.members_of) (value_view t.entry) set.now }
{
    match t {
        ValueType::NoValue => is_empty(set),
        ValueType::Integer(int) => are_values(set, int, &p.target),
        ValueType::ToObject(_, _, _) => false,
        ValueType::ToFunction(_) => false,
    }
}

/// Whether a set is of values of a type.
fn is_set_in<I: IntDomain>(layout: &Layout<'_>, t: ValueType, set: &Abs<I>) -> bool
    requires { IsLayoutOf layout.now.program.now layout.now }
    ensures { IsTrue result ↔ IsSetIn layout.now.program.now (domain I.Has I.IsBelow I.OpGives I.OpOneGives I.ToGives I.KeepGives I.members_of) (value_view t.entry) set.now }
{
    match set {
        Abs::Ints(numbers) => holds_integers(layout.program, t, numbers),
        Abs::Addrs(places) => holds_pointers(layout, t, places),
    }
}

/// Whether there is a type, and a set is of values of it.
pub(crate) fn is_set_of<I: IntDomain>(
    layout: &Layout<'_>,
    t: Option<ValueType>,
    set: &Abs<I>,
) -> bool
    requires { IsLayoutOf layout.now.program.now layout.now }
    ensures { IsTrue result ↔ IsSetOf (domain I.Has I.IsBelow I.OpGives I.OpOneGives I.ToGives I.KeepGives I.members_of) layout.now.program.now (λ u. option_map value_view t.entry ≡ Some u) set.now }
{
    match t {
        None => false,
        Some(t) => is_set_in(layout, t, set),
    }
}

/// The type of what the cells of a declared type hold: of a scalar its value's, of an array that of its elements' cells.
fn cell_type(t: &CType) -> Option<ValueType<'_>>
    ensures { IsFoundCellType t.now (option_map value_view result) }
{
    match &t.shape {
        Shape::Array(of, _) => cell_type(of.get()),
        Shape::Int(_) => scalar_value(t),
        Shape::Pointer(_) => scalar_value(t),
        Shape::Void => None,
        Shape::Struct(_) => None,
        Shape::Func(_) => None,
    }
}

/// Whether a set is of what the cells of a declared type hold.
pub(crate) fn is_cell_set<I: IntDomain>(layout: &Layout<'_>, t: &CType, set: &Abs<I>) -> bool
    requires { IsLayoutOf layout.now.program.now layout.now }
    ensures { IsTrue result ↔ IsSetOf (domain I.Has I.IsBelow I.OpGives I.OpOneGives I.ToGives I.KeepGives I.members_of) layout.now.program.now (IsCellType t.now) set.now }
{
    is_set_of(layout, cell_type(t), set)
}
