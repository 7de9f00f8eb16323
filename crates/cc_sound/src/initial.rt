//! The first values of static objects (C99 6.7.8, 6.6).

ghost use Rattle.std.specs.Prelude.{◌≡◌, ◌↔◌, All, option_map, slice_get, length, take, true, List, Some, IsTrue};
ghost use Rattle.std.specs.List.{list_all};
ghost use Rattle.std.specs.Option.{option_copied};
ghost use Rattle.cc_program.specs.declared.types.Shape.{out-Shape};
ghost use Rattle.cc_program.specs.declared.value.Leaf.{Leaf as OfLeaf};
ghost use Rattle.cc_typed.specs.CcSyntax.Initial.{bound_of, place_at as place_at_of, names_element as names_element_of, leads_to_element as leads_to_element_of, names_whole as names_whole_of, names as names_of, is_zero as is_zero_of};
ghost use Rattle.cc_typed.specs.CcSyntax.Programs.{static_place as static_place_of, is_address as is_address_of, AreLeaves, AreElements, AreMembers, IsInitial};
ghost use Rattle.cc_typed.specs.CcSyntax.Expressions.{of_one};
ghost use Rattle.cc_typed.specs.CcSyntax.Lists.{is_count as is_count_of};
ghost use Rattle.cc_typed.specs.CcSyntax.Types.{IsInOrder, is_complete};
ghost use Rattle.cc_typed.specs.CcSyntax.Values.{address_of};
ghost use Rattle.cc_sound.specs.Leaves.{is_index as is_index_of, integer_behind, pointer_behind, is_end as is_end_of};
ghost use Rattle.cc_typed.specs.View.{value_view, place_view};

use cc_program::num::{IntType, Name, at};
use cc_typed::syntax::{Address, CType, Leaf, Object, Part, Program, Root, Shape, Structure};
use cc_typed::{
    PlaceType, ValueType, bound_of, function_type, is_assignable_some, place_at, pointer_to,
    static_type,
};

fn is_count(count: u32, bound: Option<u32>) -> bool
    ensures { result ≡ is_count_of count bound }
{
    match bound {
        None => false,
        Some(n) => count == n,
    }
}

fn address(a: Option<PlaceType<'_>>) -> Option<ValueType<'_>>
    ensures { option_map value_view result ≡ of_one (option_map place_view a.entry) address_of }
{
    a?.address()
}

fn names_element(to: ValueType, index: u32, count: u32, a: PlaceType) -> bool
    ensures { result ≡ names_element_of (value_view to.entry) index count (place_view a.entry) }
{
    is_count(count, bound_of(a))
        && index <= count
        && is_assignable_some(Some(to), address(a.element()))
}

fn is_index(step: Option<&Part>) -> bool
    ensures { result ≡ is_index_of (option_copied step.entry) }
{
    match step {
        Some(Part::Index(_)) => true,
        _ => false,
    }
}

/// Whether a path ends at an element of an array.
fn leads_to_element(path: &[Part]) -> bool
    ensures { result ≡ leads_to_element_of path.now }
{
    is_index(path.last())
}

fn names_whole(to: ValueType, path: &[Part], index: u32, count: u32, a: PlaceType) -> bool
    ensures { result ≡ names_whole_of (value_view to.entry) path.now index count (place_view a.entry) }
{
    !leads_to_element(path) && count == 1 && index <= 1 && is_assignable_some(Some(to), a.address())
}

/// Whether an address with this path, index and count, which leads to a place, may stand in a pointer of a type.
pub fn names_place(
    to: ValueType,
    path: &[Part],
    index: u32,
    count: u32,
    a: Option<PlaceType>,
) -> bool
    ensures { result ≡ names_of (value_view to.entry) path.now index count (option_map place_view a.entry) }
{
    match a {
        None => false,
        Some(a) => names_element(to, index, count, a) || names_whole(to, path, index, count, a),
    }
}

fn static_place(p: &Program, root: Root) -> Option<PlaceType<'_>>
    ensures { option_map place_view result ≡ static_place_of p.now root }
{
    match root {
        Root::Static(i) => static_type(p.objects.all(), i),
        Root::Auto {
            activation: _,
            func: _,
            local: _,
        } => None,
    }
}

fn address_place<'p>(p: &'p Program, root: Root, path: &[Part]) -> Option<PlaceType<'p>>
    ensures { option_map place_view result ≡ of_one (static_place_of p.now root) (place_at_of p.now.structures path.now) }
{
    place_at(p.structures.all(), path, static_place(p, root)?)
}

/// Whether it is an address constant of a pointer type (C99 6.6, 9).
fn is_address(p: &Program, to: ValueType, a: &Address) -> bool
    ensures { result ≡ is_address_of p.now (value_view to.entry) a.now }
{
    match a {
        Address::Null => true,
        Address::Func(f) => is_assignable_some(
            Some(to),
            function_type(at(p.funcs.all(), *f as usize)),
        ),
        Address::At {
            object,
            path,
            index,
            count,
        } => {
            names_place(
                to,
                path.all(),
                *index,
                *count,
                address_place(p, *object, path.all()),
            )
        }
    }
}

/// Zero or null.
fn is_zero(leaf: &Leaf) -> bool
    ensures { result ≡ is_zero_of leaf.now }
{
    match leaf {
        Leaf::Int(n) => *n == 0,
        Leaf::Place(Address::Null) => true,
        Leaf::Place(Address::Func(_)) => false,
        Leaf::Place(
            Address::At {
                object: _,
                path: _,
                index: _,
                count: _,
            },
        ) => false,
    }
}

fn are_zero(leaves: &[Leaf]) -> bool
    ensures { result ≡ list_all is_zero_of leaves.now }
{
    leaves.iter().all(|leaf| is_zero(leaf))
}

/// What stands behind the leaf of an integer.
fn behind_integer<'l>(p: &Program, t: IntType, leaves: &'l [Leaf]) -> Option<&'l [Leaf]>
    ensures { option_copied result ≡ integer_behind p.now t leaves.now }
{
    match leaves {
        [Leaf::Int(n), rest @ ..] => {
            if t.contains(*n, &p.target) {
                Some(rest)
            } else {
                None
            }
        }
        _ => None,
    }
}

/// What stands behind the leaf of a pointer.
fn behind_pointer<'l>(p: &Program, to: ValueType, leaves: &'l [Leaf]) -> Option<&'l [Leaf]>
    ensures { option_copied result ≡ pointer_behind p.now (value_view to.entry) leaves.now }
{
    match leaves {
        [Leaf::Place(a), rest @ ..] => {
            if is_address(p, to, a) {
                Some(rest)
            } else {
                None
            }
        }
        _ => None,
    }
}

/// What stands behind the leaves of a type over the structures before it.
#[cycle(leaves)]
fn behind<'l>(
    p: &Program,
    t: &CType,
    before: &[Structure],
    leaves: &'l [Leaf],
) -> Option<&'l [Leaf]>
    requires order { IsInOrder p.now.structures }
    requires before { before.now ≡ take (length before.now) p.now.structures }
    requires complete { is_complete before.now t.now ≡ true }
    ensures { (rest : List OfLeaf) → (option_copied result ≡ Some rest) ↔ AreLeaves p.now t.now leaves.now rest }
{
    match &t.shape {
        Shape::Int(i) => behind_integer(p, *i, leaves),
        Shape::Pointer(to) => behind_pointer(p, pointer_to(to.get()), leaves),
        Shape::Array(of, count) => behind_elements(p, of.get(), *count, before, leaves),
        Shape::Struct(id) => {
            let id = *id as usize;
            behind_members(p, before[id].members.all(), &before[..id], leaves)
        }
        Shape::Void | Shape::Func(_) => None,
    }
}

/// What stands behind the leaves of so many elements of a type.
#[cycle(leaves)]
fn behind_elements<'l>(
    p: &Program,
    of: &CType,
    count: u32,
    before: &[Structure],
    leaves: &'l [Leaf],
) -> Option<&'l [Leaf]>
    requires order { IsInOrder p.now.structures }
    requires before { before.now ≡ take (length before.now) p.now.structures }
    requires complete { is_complete before.now of.now ≡ true }
    ensures { (rest : List OfLeaf) → (option_copied result ≡ Some rest) ↔ AreElements p.now of.now count leaves.now rest }
{
    let mut left = leaves;
    let mut missing = count;
    while 0 < missing {
        left = behind(p, of, before, left)?;
        missing -= 1;
    }
    Some(left)
}

/// What stands behind the leaves of members.
#[cycle(leaves)]
fn behind_members<'l>(
    p: &Program,
    members: &[(Name, CType)],
    before: &[Structure],
    leaves: &'l [Leaf],
) -> Option<&'l [Leaf]>
    requires order { IsInOrder p.now.structures }
    requires before { before.now ≡ take (length before.now) p.now.structures }
    requires complete { All (λ m. is_complete before.now m.1 ≡ true) members.now }
    ensures { (rest : List OfLeaf) → (option_copied result ≡ Some rest) ↔ AreMembers p.now members.now leaves.now rest }
{
    let mut left = leaves;
    for (_, t) in members {
        left = behind(p, t, before, left)?;
    }
    Some(left)
}

fn is_end(left: Option<&[Leaf]>) -> bool
    ensures { result ≡ is_end_of (option_copied left.entry) }
{
    match left {
        Some([]) => true,
        _ => false,
    }
}

/// Whether an object may start with its first values.
pub fn is_initial(p: &Program, object: &Object) -> bool
    requires order { IsInOrder p.now.structures }
    requires complete { is_complete p.now.structures object.now.ctype ≡ true }
    ensures { IsTrue result ↔ IsInitial p.now object.now.ctype object.now.init }
{
    let leaves = object.init.all();
    if leaves.is_empty() {
        return true;
    }
    is_end(behind(p, &object.ctype, p.structures.all(), leaves)) && !are_zero(leaves)
}
