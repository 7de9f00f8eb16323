//! What places lead to (C99 6.3.2.1, 6.5.2.1, 6.5.2.3, 6.5.3.2).

ghost use Rattle.std.specs.Prelude.{◌≡◌, ◌++◌, ◌∷◌, [], IfOk, option_map, option_and_then};
ghost use Rattle.std.specs.Option.{option_copied};
ghost use Rattle.cc_syntax.specs.Initial.{place_at as place_at_of};
ghost use Rattle.cc_syntax.specs.Values.{element_of};
ghost use Rattle.cc_typed.specs.View.{place_view};
ghost use Rattle.cc_program.specs.declared.value.Part.TheVariants.{Index, Member as MemberOf};
ghost use Rattle.cc_eval.specs.Context.{local_type as local_type_of, object_type as object_type_of, are_alike as are_alike_of, has_elements as has_elements_of, path_to as path_to_of, named_by as named_by_of, designated as designated_of, cell_of, cell_at as cell_at_of, reached as reached_of, element as element_in_place, element_in as element_in_of, member as member_of_place, address_at as address_at_of, is_seen as is_seen_of};

use cc_program::num::{List, NoMemory, at};
use cc_program::{Address, Cell, Func, Part, Program, Root, copy_list};
use cc_typed::{PlaceType, alike, bound_of, object_place, place_at, static_type};
use cc_values::element_at;
use std::alloc::Global;

/// What a place leads to, before it is accessed.
#[derive(Drop)]
pub enum Spot {
    Device(u32),
    /// What a declaration names, or a member.
    Object(Root, List<Part>),
    /// An element, or what a pointer points to.
    Address(Address),
}

fn local_type(local: u32, func: Option<&Func>) -> Option<PlaceType<'_>>
    ensures { option_map place_view result ≡ local_type_of local (option_copied func.entry) }
{
    match func {
        None => None,
        Some(f) => match at(f.locals.all(), local as usize) {
            None => None,
            Some((_, t)) => Some(object_place(t)),
        },
    }
}

/// The type of a named object.
pub fn object_type(p: &Program, object: Root) -> Option<PlaceType<'_>>
    ensures { option_map place_view result ≡ object_type_of p.now object }
{
    match object {
        Root::Static(i) => static_type(p.objects.all(), i),
        Root::Auto {
            activation: _,
            func,
            local,
        } => local_type(local, at(p.funcs.all(), func as usize)),
    }
}

/// Whether what is there is an object of the other's type, qualifiers aside.
fn are_alike(a: Option<PlaceType>, b: PlaceType) -> bool
    ensures { result ≡ are_alike_of (option_map place_view a.entry) (place_view b.entry) }
{
    match (a, b) {
        (Some(PlaceType::Object(_, _, t)), PlaceType::Object(_, _, u)) => alike(t, u),
        _ => false,
    }
}

/// The type of the elements of what a path leads to.
fn elements_at<'p>(p: &'p Program, object: Root, path: &[Part]) -> Option<PlaceType<'p>>
    ensures { option_map place_view result ≡ option_and_then element_of (option_and_then (place_at_of p.now.structures path.now) (object_type_of p.now object)) }
{
    place_at(p.structures.all(), path, object_type(p, object)?)?.element()
}

fn has_elements(p: &Program, t: PlaceType, object: Root, path: &[Part]) -> bool
    ensures { result ≡ has_elements_of p.now (place_view t.entry) object path.now }
{
    are_alike(elements_at(p, object, path), t)
}

/// A path with one more step.
fn longer(alloc: Global, path: &List<Part>, step: Part) -> Result<List<Part>, NoMemory>
    ensures { IfOk result (λ r. r ≡ path.now ++ step ∷ []) }
{
    let mut longer = copy_list(alloc, path)?.into_vec();
    longer.push(step)?;
    Ok(List::of(longer))
}

fn path_to(
    alloc: Global,
    is_element: bool,
    path: &List<Part>,
    index: u32,
) -> Result<List<Part>, NoMemory>
    ensures { IfOk result (λ r. r ≡ path_to_of is_element path.now index) }
{
    if is_element {
        longer(alloc, path, Part::Index(index))
    } else {
        copy_list(alloc, path)
    }
}

/// The object of a type that an address names, if it names one.
fn named_by(
    alloc: Global,
    p: &Program,
    t: PlaceType,
    a: &Address,
) -> Result<Option<(Root, List<Part>)>, NoMemory>
    ensures { IfOk result (λ r. r ≡ named_by_of p.now (place_view t.entry) a.now) }
{
    match a {
        Address::Null => Ok(None),
        Address::Func(_) => Ok(None),
        Address::At {
            object,
            path,
            index,
            count,
        } => {
            if *index < *count {
                let is_element = has_elements(p, t, *object, path.all());
                Ok(Some((*object, path_to(alloc, is_element, path, *index)?)))
            } else {
                Ok(None)
            }
        }
    }
}

/// The object to which a place of a type leads.
fn designated(
    alloc: Global,
    p: &Program,
    t: PlaceType,
    s: &Spot,
) -> Result<Option<(Root, List<Part>)>, NoMemory>
    ensures { IfOk result (λ r. r ≡ designated_of p.now (place_view t.entry) s.now) }
{
    match s {
        Spot::Device(_) => Ok(None),
        Spot::Object(object, path) => Ok(Some((*object, copy_list(alloc, path)?))),
        Spot::Address(a) => named_by(alloc, p, t, a),
    }
}

fn named_cell(named: Option<(Root, List<Part>)>) -> Option<Cell>
    ensures { result ≡ option_map cell_of named }
{
    match named {
        None => None,
        Some((object, path)) => Some(Cell::At { object, path }),
    }
}

fn cell_at(alloc: Global, p: &Program, t: PlaceType, s: &Spot) -> Result<Option<Cell>, NoMemory>
    ensures { IfOk result (λ r. r ≡ cell_at_of p.now (place_view t.entry) s.now) }
{
    match s {
        Spot::Device(d) => Ok(Some(Cell::Device(*d))),
        Spot::Object(object, path) => Ok(Some(Cell::At {
            object: *object,
            path: copy_list(alloc, path)?,
        })),
        Spot::Address(a) => Ok(named_cell(named_by(alloc, p, t, a)?)),
    }
}

/// The cell of a scalar type to which a place leads.
pub fn reached(
    alloc: Global,
    p: &Program,
    t: Option<PlaceType>,
    s: &Option<Spot>,
) -> Result<Option<Cell>, NoMemory>
    ensures { IfOk result (λ r. r ≡ reached_of p.now (option_map place_view t.entry) s.now) }
{
    match (t, s) {
        (Some(t), Some(s)) => cell_at(alloc, p, t, s),
        _ => Ok(None),
    }
}

fn at_address(a: Option<Address>) -> Option<Spot>
    ensures { result ≡ option_map SpotAddress a }
{
    match a {
        None => None,
        Some(a) => Some(Spot::Address(a)),
    }
}

fn element_in(
    alloc: Global,
    bound: Option<u32>,
    i: i128,
    o: &(Root, List<Part>),
) -> Result<Option<Spot>, NoMemory>
    ensures { IfOk result (λ r. r ≡ element_in_of bound i o.now) }
{
    match bound {
        None => Ok(None),
        Some(count) => Ok(at_address(element_at(alloc, o.0, &o.1, i, count)?)),
    }
}

/// An element of the array to which a place leads, or what is one past the last of them.
pub fn element(
    alloc: Global,
    p: &Program,
    i: i128,
    t: PlaceType,
    s: &Spot,
) -> Result<Option<Spot>, NoMemory>
    ensures { IfOk result (λ r. r ≡ element_in_place p.now i (place_view t.entry) s.now) }
{
    match designated(alloc, p, t, s)? {
        None => Ok(None),
        Some(o) => element_in(alloc, bound_of(t), i, &o),
    }
}

/// A member of the structure to which a place leads.
pub fn member(
    alloc: Global,
    p: &Program,
    m: u32,
    t: PlaceType,
    s: &Spot,
) -> Result<Option<Spot>, NoMemory>
    ensures { IfOk result (λ r. r ≡ member_of_place p.now m (place_view t.entry) s.now) }
{
    match designated(alloc, p, t, s)? {
        None => Ok(None),
        Some((object, path)) => {
            let path = longer(alloc, &path, Part::Member(m))?;
            Ok(Some(Spot::Object(object, path)))
        }
    }
}

/// A pointer to a place.
pub fn address_at(s: Spot) -> Option<Address>
    ensures { result ≡ address_at_of s }
{
    match s {
        Spot::Device(_) => None,
        Spot::Object(object, path) => Some(Address::At {
            object,
            path,
            index: 0,
            count: 1,
        }),
        Spot::Address(a) => Some(a),
    }
}

/// Whether an access through a place is an event of the trace (C99 6.7.3, 6).
pub fn is_seen(t: Option<PlaceType>) -> bool
    ensures { result ≡ is_seen_of (option_map place_view t.entry) }
{
    match t {
        None => false,
        Some(PlaceType::Device(_, _)) => true,
        Some(PlaceType::Object(_, volatile, _)) => volatile,
        Some(PlaceType::Function(_)) => false,
    }
}

ghost use Rattle.cc_eval.specs.declared.spots.Spot.TheVariants.{Address as SpotAddress};
