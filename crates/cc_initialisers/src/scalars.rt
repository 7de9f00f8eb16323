//! The places of the scalars of an object, in the order in which they are given their first values.

ghost use Rattle.std.specs.Prelude.{◌≡◌, ◌++◌, false, IfOk, OnOk};
ghost use Rattle.cc_initialisers.specs.Contents.{contents};
ghost use Rattle.cc_initialisers.specs.Scalars.{index_at as index_at_of, elements_from, scalars_from};
ghost use Rattle.cc_initialisers.specs.View.{part_view, members_view, content_view};

use crate::content::{Content, Members, Part};
use cc_operands::lex::Suffix;
use cc_operands::number_type;
use cc_operands::syntax::{CType, Expr, Place, Structure};
use cc_program::num::{Boxed, NoMemory, Target};
use std::alloc::Global;

/// The number of an element, as it would be written.
fn index_at(target: &Target, i: u32) -> Expr
    ensures { result ≡ index_at_of target.now i }
{
    let suffix = Suffix {
        decimal: true,
        unsigned: false,
        longs: 0,
    };
    Expr::Const(i128::from(i), number_type(target, u64::from(i), suffix))
}

/// An element of an array.
fn element(alloc: Global, target: &Target, array: &Place, i: u32) -> Result<Place, NoMemory>
    ensures { IfOk result (λ a. a ≡ Place.Element array.now (index_at_of target.now i)) }
{
    let array = Boxed::new(alloc, array.copy(alloc)?)?;
    let index = Boxed::new(alloc, index_at(target, i))?;
    Ok(Place::Element(array, index))
}

/// A member of a structure.
fn member(alloc: Global, structure: &Place, m: u32) -> Result<Place, NoMemory>
    ensures { IfOk result (λ a. a ≡ Place.Member structure.now m) }
{
    let structure = Boxed::new(alloc, structure.copy(alloc)?)?;
    Ok(Place::Member(structure, m))
}

/// The places of the scalars of so many elements of an array.
#[cycle(scalars)]
fn put_elements(
    alloc: Global,
    target: &Target,
    n: u32,
    of: Part,
    array: &Place,
    out: &mut Vec<Place>,
) -> Result<(), NoMemory>
    ensures { OnOk result (out.new.items ≡ out.old.items ++ elements_from target.now 0 n (scalars_from target.now (part_view of.entry) 0) array.now) }
{
    for i in 0..n {
        let a = element(alloc, target, array, i)?;
        put_scalars(alloc, target, of.content(), a, out)?;
    }
    Ok(())
}

/// The places of the scalars of the members of a structure.
#[cycle(scalars)]
fn put_members(
    alloc: Global,
    target: &Target,
    members: Members,
    structure: &Place,
    out: &mut Vec<Place>,
) -> Result<(), NoMemory>
    ensures { OnOk result (out.new.items ≡ out.old.items ++ scalars_from target.now (members_view members.entry) 0 structure.now) }
{
    let mut m = 0u32;
    for named in members.all {
        let a = member(alloc, structure, m)?;
        put_scalars(alloc, target, members.part(named).content(), a, out)?;
        let Some(next) = m.checked_add(1) else {
            return Err(NoMemory);
        };
        m = next;
    }
    Ok(())
}

/// The places of the scalars of an object that lies at a place.
#[cycle(scalars)]
fn put_scalars(
    alloc: Global,
    target: &Target,
    object: Content,
    place: Place,
    out: &mut Vec<Place>,
) -> Result<(), NoMemory>
    ensures { OnOk result (out.new.items ≡ out.old.items ++ scalars_from target.now (content_view object.entry) 0 place) }
{
    match object {
        Content::Scalar(_, _) => {
            out.push(place)?;
            Ok(())
        }
        Content::Elements(n, of) => put_elements(alloc, target, n, of, &place, out),
        Content::Members(members) => put_members(alloc, target, members, &place, out),
    }
}

/// The places of the scalars of an object of the type that lies at a place, in the order of paths. A structure of 2^32
/// members is as want of memory.
pub fn scalar_places(
    alloc: Global,
    target: &Target,
    structures: &[Structure],
    t: &CType,
    place: Place,
) -> Result<Vec<Place>, NoMemory>
    ensures { IfOk result (λ places. places.items ≡ scalars_from target.now (contents structures.now t.now false) 0 place) }
{
    let mut out = Vec::new(alloc);
    let object = Part::whole(structures, t).content();
    put_scalars(alloc, target, object, place, &mut out)?;
    Ok(out)
}
