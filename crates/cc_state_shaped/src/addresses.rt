//! Which addresses may stand in pointers of a type.

ghost use Rattle.std.specs.Prelude.{◌≡◌, ◌↔◌, IsTrue, All, option_map};
ghost use Rattle.cc_state_reads.specs.CcEval.Context.{object_type as object_type_of};
ghost use Rattle.cc_state.specs.Shape.{MayPoint, HoldsPointers};
ghost use Rattle.cc_state_shaped.specs.Layout.{IsLayoutOf};
ghost use Rattle.cc_state_reads.specs.CcSyntax.Expressions.{of_one};
ghost use Rattle.cc_state_reads.specs.CcSyntax.Initial.{place_at as place_at_of, names};
ghost use Rattle.cc_state_reads.specs.CcTyped.View.{value_view, place_view};

use crate::layout::Layout;
use cc_program::num::at;
use cc_program::{Address, Part, Program, Root};
use cc_sound::names_place;
use cc_state_reads::eval::object_type;
use cc_state_reads::places::Addrs;
use cc_state_reads::state_keys::cell_key;
use cc_state_reads::typed::{PlaceType, ValueType, function_type, is_assignable_some, place_at};

/// The type of the place to which a path leads in an object.
fn place_type<'p>(p: &'p Program, object: Root, path: &[Part]) -> Option<PlaceType<'p>>
    ensures { option_map place_view result ≡ of_one (object_type_of p.now object) (place_at_of p.now.structures path.now) }
{
    place_at(p.structures.all(), path, object_type(p, object)?)
}

/// Whether what is at the end of a path is named by pointers of a type, by this element of so many.
fn is_named(p: &Program, to: ValueType, object: Root, path: &[Part], index: u32, count: u32) -> bool
    ensures { result ≡ names (value_view to.entry) path.now index count (of_one (object_type_of p.now object) (place_at_of p.now.structures path.now)) }
{
    names_place(to, path, index, count, place_type(p, object, path))
}

/// Whether a function may be pointed to: it is there, of the type, and no handler.
fn is_function(p: &Program, to: ValueType, id: u32) -> bool
    ensures { IsTrue result ↔ MayPoint p.now (value_view to.entry) (Address.Func id) }
{
    is_assignable_some(Some(to), function_type(at(p.funcs.all(), id as usize)))
}

/// Whether an address may stand in a pointer of a type.
pub(crate) fn may_point(layout: &Layout<'_>, to: ValueType, a: &Address) -> bool
    requires { IsLayoutOf layout.now.program.now layout.now }
    ensures { IsTrue result ↔ MayPoint layout.now.program.now (value_view to.entry) a.now }
{
    match a {
        Address::Null => true,
        Address::Func(id) => is_function(layout.program, to, *id),
        Address::At {
            object,
            path,
            index,
            count,
        } => {
            is_named(layout.program, to, *object, path.all(), *index, *count)
                && layout.may_name(cell_key(layout.program, *object, path.all()))
        }
    }
}

/// Whether each of some addresses may.
fn may_all_point(layout: &Layout<'_>, to: ValueType, addresses: &[Address]) -> bool
    requires { IsLayoutOf layout.now.program.now layout.now }
    ensures { IsTrue result ↔ All (MayPoint layout.now.program.now (value_view to.entry)) addresses.now }
{
    for address in addresses {
        if !may_point(layout, to, address) {
            return false;
        }
    }
    true
}

/// Whether a set is of addresses that may stand in pointers of a type.
pub(crate) fn holds_pointers(layout: &Layout<'_>, t: ValueType, set: &Addrs) -> bool
    requires { IsLayoutOf layout.now.program.now layout.now }
    ensures { IsTrue result ↔ HoldsPointers layout.now.program.now (value_view t.entry) set.now }
{
    match t {
        ValueType::NoValue => false,
        ValueType::Integer(_) => false,
        ValueType::ToObject(_, _, _) => may_all_point(layout, t, set.members.all()),
        ValueType::ToFunction(_) => may_all_point(layout, t, set.members.all()),
    }
}
