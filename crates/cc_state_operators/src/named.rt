//! The objects that addresses name, and the addresses of what is in them (C99 6.5.2.1, 6.5.2.3).

ghost use Rattle.std.specs.Prelude.{◌≡◌, ◌++◌, ◌∷◌, [], IfOk, option_map, option_and_then};
ghost use Rattle.cc_eval.specs.Context.{object_type as object_type_of, are_alike as are_alike_of, has_elements as has_elements_of, path_to as path_to_of, named_by as named_by_of};
ghost use Rattle.cc_program.specs.declared.value.Part.TheVariants.{Index, Member as MemberOf};
ghost use Rattle.cc_eval.specs.CcSyntax.Initial.{place_at as place_at_of};
ghost use Rattle.cc_eval.specs.CcSyntax.Values.{element_of};
ghost use Rattle.cc_eval.specs.CcTyped.View.{place_view};
ghost use Rattle.cc_state_operators.specs.Addresses.{member_address as member_address_of};

use cc_eval::object_type;
use cc_eval::typed::{PlaceType, alike, place_at};
use cc_program::num::{List, NoMemory};
use cc_program::{Address, Part, Program, Root, copy_list};
use std::alloc::Global;

/// Whether what is there is an object of the other's type, qualifiers aside.
fn are_alike(a: Option<PlaceType>, b: PlaceType) -> bool
    ensures { result ≡ are_alike_of (option_map place_view a.entry) (place_view b.entry) }
{
    match (a, b) {
        (Some(PlaceType::Object(_, _, t)), PlaceType::Object(_, _, u)) => alike(t, u),
        _ => false,
    }
}

/// The type of the elements of what a path leads to.
fn elements_at<'p>(p: &'p Program, object: Root, path: &[Part]) -> Option<PlaceType<'p>>
    ensures { option_map place_view result ≡ option_and_then element_of (option_and_then (place_at_of p.now.structures path.now) (object_type_of p.now object)) }
{
    place_at(p.structures.all(), path, object_type(p, object)?)?.element()
}

fn has_elements(p: &Program, t: PlaceType, object: Root, path: &[Part]) -> bool
    ensures { result ≡ has_elements_of p.now (place_view t.entry) object path.now }
{
    are_alike(elements_at(p, object, path), t)
}

/// A path with one more step.
fn longer(alloc: Global, path: &List<Part>, step: Part) -> Result<List<Part>, NoMemory>
    ensures { IfOk result (λ r. r ≡ path.now ++ step ∷ []) }
{
    let mut longer = copy_list(alloc, path)?.into_vec();
    longer.push(step)?;
    Ok(List::of(longer))
}

fn path_to(
    alloc: Global,
    is_element: bool,
    path: &List<Part>,
    index: u32,
) -> Result<List<Part>, NoMemory>
    ensures { IfOk result (λ r. r ≡ path_to_of is_element path.now index) }
{
    if is_element {
        longer(alloc, path, Part::Index(index))
    } else {
        copy_list(alloc, path)
    }
}

/// The object of a type that an address names, if it names one.
pub(crate) fn named_by(
    alloc: Global,
    p: &Program,
    t: PlaceType,
    a: &Address,
) -> Result<Option<(Root, List<Part>)>, NoMemory>
    ensures { IfOk result (λ r. r ≡ named_by_of p.now (place_view t.entry) a.now) }
{
    match a {
        Address::Null => Ok(None),
        Address::Func(_) => Ok(None),
        Address::At {
            object,
            path,
            index,
            count,
        } => {
            if *index < *count {
                let is_element = has_elements(p, t, *object, path.all());
                Ok(Some((*object, path_to(alloc, is_element, path, *index)?)))
            } else {
                Ok(None)
            }
        }
    }
}

/// The address of a member of the structure that an address names.
pub(crate) fn member_address(
    alloc: Global,
    p: &Program,
    t: PlaceType,
    m: u32,
    a: &Address,
) -> Result<Option<Address>, NoMemory>
    ensures { IfOk result (λ r. r ≡ member_address_of p.now (place_view t.entry) m a.now) }
{
    match named_by(alloc, p, t, a)? {
        None => Ok(None),
        Some((object, path)) => Ok(Some(Address::At {
            object,
            path: longer(alloc, &path, Part::Member(m))?,
            index: 0,
            count: 1,
        })),
    }
}
