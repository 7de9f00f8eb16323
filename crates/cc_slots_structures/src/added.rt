//! Where structures stand, place by place.

ghost use Rattle.std.specs.Prelude.{◌≤◌, ◌*◌, ◌&&◌, false, true, length, sum_by};
ghost use Rattle.std.specs.List.{list_any};
ghost use Rattle.cc_slots_structures.specs.Added.{AreAdded};
ghost use Rattle.cc_slots_structures.specs.Copies.{copies_at, copies_in, copies_in_members, copies_of};
ghost use Rattle.cc_slots_structures.specs.Stands.{stands_at, stands_in, stands_in_locals, stands_in_objects};

use crate::standing::{Standing, both, of_elements, of_local, of_object, of_type};
use cc_program::num::Name;
use cc_program::{CType, Func, Object, Shape};

/// A structure stands at one more place, where it is one of the first.
fn add_structure(list: &mut [Standing], first: usize, s: u32, place: Standing)
    requires { first ≤ length list.old }
    ensures { AreAdded first (λ counts. place.copies * copies_at counts s) (λ there. place.is_open && stands_at there s) (λ there. place.is_automatic && stands_at there s) list.old list.new }
{
    let s = s as usize;
    if first <= s {
        return;
    }
    let before = list[s];
    list[s] = both(before, place);
}

/// Something of a type stands at one more place.
fn add(list: &mut [Standing], first: usize, t: &CType, place: Standing)
    requires { first ≤ length list.old }
    ensures { AreAdded first (λ counts. place.copies * copies_in counts t.now) (λ there. place.is_open && stands_in false there t.now) (λ there. place.is_automatic && stands_in true there t.now) list.old list.new }
{
    let here = of_type(place, t.constant);
    match &t.shape {
        Shape::Array(of, n) => add(list, first, of.get(), of_elements(here, *n)),
        Shape::Struct(s) => add_structure(list, first, *s, here),
        Shape::Void => {}
        Shape::Int(_) => {}
        Shape::Pointer(_) => {}
        Shape::Func(_) => {}
    }
}

/// Some members, or locals, stand at one more place.
pub(crate) fn add_members(
    list: &mut [Standing],
    first: usize,
    members: &[(Name, CType)],
    place: Standing,
)
    requires { first ≤ length list.old }
    ensures { AreAdded first (λ counts. place.copies * copies_in_members counts members.now) (λ there. place.is_open && list_any (λ m. stands_in false there m.1) members.now) (λ there. place.is_automatic && list_any (λ m. stands_in true there m.1) members.now) list.old list.new }
{
    for member in members {
        add(list, first, &member.1, place);
    }
}

/// Some static objects stand.
pub(crate) fn add_objects(list: &mut [Standing], first: usize, objects: &[Object])
    requires { first ≤ length list.old }
    ensures { AreAdded first (λ counts. sum_by (copies_of counts) objects.now) (λ there. stands_in_objects false there objects.now) (λ there. false) list.old list.new }
{
    for object in objects {
        add(
            list,
            first,
            &object.ctype,
            of_object(object.ctype.is_const()),
        );
    }
}

/// The locals of some functions stand.
pub(crate) fn add_locals(list: &mut [Standing], first: usize, funcs: &[Func])
    requires { first ≤ length list.old }
    ensures { AreAdded first (λ counts. 0) (λ there. stands_in_locals false there funcs.now) (λ there. stands_in_locals true there funcs.now) list.old list.new }
{
    for f in funcs {
        add_members(list, first, f.locals.all(), of_local());
    }
}
