//! The names of what a program's ids stand for.

ghost use Rattle.std.specs.Prelude.{◌≡◌, OnOk, option_map, slice_get};
ghost use Rattle.std.specs.Option.{option_copied};
ghost use Rattle.cc_program.specs.declared.types.Shape.{out-Shape};
ghost use Rattle.cc_pieces.specs.View.{pieces_of};
ghost use Rattle.cc_bodies.specs.Names.{named, local_name as local_name_of, object_name as object_name_of, func_name as func_name_of, member_at as member_at_of, member_shape, member_name as member_name_of};
ghost use Rattle.cc_typed.specs.View.{place_view};

use cc_pieces::{Symbol, name};
use cc_program::num::{Name, NoMemory, at};
use cc_program::{CType, Func, Object, Shape, Structure};
use cc_typed::PlaceType;

/// Puts a name in front, nothing where there is none.
pub fn put_named<'p>(out: &mut Vec<Symbol>, found: Option<&'p Name>) -> Result<(), NoMemory>
    ensures { OnOk result (pieces_of out.new.items ≡ named (option_copied found.entry) (pieces_of out.old.items)) }
{
    match found {
        None => Ok(()),
        Some(x) => name(out, x.all()),
    }
}

/// The name of a local.
pub fn local_name(locals: &[(Name, CType)], local: u32) -> Option<&Name>
    ensures { option_copied result ≡ local_name_of (slice_get locals.now local) }
{
    match at(locals, local as usize) {
        None => None,
        Some((name, _)) => Some(name),
    }
}

/// The name of a static object.
pub fn object_name(objects: &[Object], object: u32) -> Option<&Name>
    ensures { option_copied result ≡ object_name_of (slice_get objects.now object) }
{
    match at(objects, object as usize) {
        None => None,
        Some(o) => Some(&o.name),
    }
}

/// The name of a function.
pub fn func_name(funcs: &[Func], func: u32) -> Option<&Name>
    ensures { option_copied result ≡ func_name_of (slice_get funcs.now func) }
{
    match at(funcs, func as usize) {
        None => None,
        Some(f) => Some(&f.name),
    }
}

fn member_at(structure: Option<&Structure>, member: u32) -> Option<&Name>
    ensures { option_copied result ≡ member_at_of member (option_copied structure.entry) }
{
    match structure {
        None => None,
        Some(s) => local_name(s.members.all(), member),
    }
}

fn member_in<'p>(structures: &'p [Structure], member: u32, shape: &Shape) -> Option<&'p Name>
    ensures { option_copied result ≡ member_shape structures.now member (out-Shape shape.now) }
{
    match shape {
        Shape::Struct(id) => member_at(at(structures, *id as usize), member),
        _ => None,
    }
}

/// The name of a member of the structure that a place holds.
pub fn member_name<'p>(
    structures: &'p [Structure],
    member: u32,
    place: Option<PlaceType>,
) -> Option<&'p Name>
    ensures { option_copied result ≡ member_name_of structures.now member (option_map place_view place.entry) }
{
    match place {
        None => None,
        Some(PlaceType::Device(_, _)) => None,
        Some(PlaceType::Object(_, _, t)) => member_in(structures, member, &t.shape),
        Some(PlaceType::Function(_)) => None,
    }
}
