//! The first cause why sources are no program.

ghost use Rattle.std.specs.Prelude.{◌≡◌, IfOk, map, not};
ghost use Rattle.std.specs.List.{list_any};
ghost use Rattle.std.specs.Option.{option_copied};
ghost use Rattle.cc_causes.specs.Causes.{agree as agree_of, types_differ as types_differ_of, disagree as disagree_of, is_undefined as is_undefined_of, is_twice, is_main as is_main_of, first_named, cause, cause_of_things};
ghost use Rattle.cc_linked_names.specs.Given.{given_name};
ghost use Rattle.cc_structures.specs.Structures.{type_in};
ghost use Rattle.cc_syntax.specs.SameTypes.{same_type as same_type_of};
ghost use Rattle.cc_things.specs.View.{thing_view, view_of, views_of};

use crate::entries::bad_handler;
use crate::fault::LinkFault;
use crate::numbers::structures_in;
use cc_definitions::{is_named_main, own_name};
use cc_linked_names::Given;
use cc_program::num::{List, Name, NoMemory, at};
use cc_program::{CType, Roles, copy_list};
use cc_things::{Mention, Thing, is_defined, is_defined_twice, is_device, is_external, is_used};
use cc_typed::{same_flag, same_shape};
use cc_unit::renumber_type;
use std::alloc::Global;

/// The type that a mention has, by the numbers of structures in the program.
fn type_of(alloc: Global, structures: &[List<u32>], m: &Mention<'_>) -> Result<CType, NoMemory>
    ensures { IfOk result (λ t. t ≡ type_in structures.now m.now.text m.now.name.now.ctype) }
{
    renumber_type(
        alloc,
        structures_in(structures, m.text as usize),
        &m.name.ctype,
    )
}

/// Whether two types are the same one, with their qualifiers.
#[tactic(auto, unfolding(cc_syntax::specs::SameTypes::comparison_of, cc_syntax::specs::SameTypes::shape_comparison))]
fn same_type(t: &CType, u: &CType) -> bool
    ensures { result ≡ same_type_of t.now u.now }
{
    same_flag(t.constant, u.constant)
        && same_flag(t.volatile, u.volatile)
        && same_shape(&t.shape, &u.shape)
}

/// Whether a mention has this type.
fn agrees(
    alloc: Global,
    structures: &[List<u32>],
    t: &CType,
    m: &Mention<'_>,
) -> Result<bool, NoMemory>
    ensures { IfOk result (λ r. r ≡ same_type_of t.now (type_in structures.now m.now.text m.now.name.now.ctype)) }
{
    let u = type_of(alloc, structures, m)?;
    Ok(same_type(t, &u))
}

/// Whether some mention has another type than this one.
fn differs(
    alloc: Global,
    structures: &[List<u32>],
    t: &CType,
    mentions: &[Mention<'_>],
) -> Result<bool, NoMemory>
    ensures { IfOk result (λ r. r ≡ list_any (λ m. not (same_type_of t.now (type_in structures.now m.text m.name.ctype))) (map view_of mentions.now)) }
{
    for m in mentions {
        let is_same = agrees(alloc, structures, t, m)?;
        if !is_same {
            return Ok(true);
        }
    }
    Ok(false)
}

/// Whether some mention has another type than the first.
fn disagree(
    alloc: Global,
    structures: &[List<u32>],
    mentions: &[Mention<'_>],
) -> Result<bool, NoMemory>
    ensures { IfOk result (λ r. r ≡ disagree_of structures.now (views_of mentions.now)) }
{
    match at(mentions, 0) {
        None => Ok(false),
        Some(m) => {
            let t = type_of(alloc, structures, m)?;
            differs(alloc, structures, &t, mentions)
        }
    }
}

/// Whether an external name has two types (C99 6.2.7).
fn types_differ(alloc: Global, structures: &[List<u32>], t: &Thing<'_>) -> Result<bool, NoMemory>
    ensures { IfOk result (λ r. r ≡ types_differ_of structures.now (thing_view t.now)) }
{
    if !is_external(t) {
        return Ok(false);
    }
    disagree(alloc, structures, t.mentions.as_slice())
}

/// The name of the first thing that has two types.
fn first_with_two_types<'t>(
    alloc: Global,
    structures: &[List<u32>],
    things: &[Thing<'t>],
) -> Result<Option<&'t Name>, NoMemory>
    ensures { IfOk result (λ name. option_copied name ≡ first_named (types_differ_of structures.now) (map thing_view things.now)) }
{
    for t in things {
        let is_fault = types_differ(alloc, structures, t)?;
        if is_fault {
            return Ok(own_name(t));
        }
    }
    Ok(None)
}

/// The name of the first thing that has two definitions (C99 6.9).
fn first_defined_twice<'t>(things: &[Thing<'t>]) -> Option<&'t Name>
    ensures { option_copied result ≡ first_named is_twice (map thing_view things.now) }
{
    for t in things {
        if is_defined_twice(t) {
            return own_name(t);
        }
    }
    None
}

fn is_undefined(t: &Thing<'_>) -> bool
    ensures { result ≡ is_undefined_of (thing_view t.now) }
{
    is_used(t) && !is_defined(t) && !is_device(t)
}

/// The name of the first thing that is used and has no definition.
fn first_undefined<'t>(things: &[Thing<'t>]) -> Option<&'t Name>
    ensures { option_copied result ≡ first_named is_undefined_of (map thing_view things.now) }
{
    for t in things {
        if is_undefined(t) {
            return own_name(t);
        }
    }
    None
}

fn is_main(t: &Thing<'_>) -> bool
    ensures { result ≡ is_main_of (thing_view t.now) }
{
    is_named_main(t) && is_defined(t)
}

/// Whether there is the function that runs first (C99 5.1.2.2.1).
fn has_main(things: &[Thing<'_>]) -> bool
    ensures { result ≡ list_any is_main_of (map thing_view things.now) }
{
    for t in things {
        if is_main(t) {
            return true;
        }
    }
    false
}

/// What stands against things by themselves, before their names in the program are asked for.
fn fault_of_things(
    alloc: Global,
    structures: &[List<u32>],
    things: &[Thing<'_>],
) -> Result<Option<LinkFault>, NoMemory>
    ensures { IfOk result (λ fault. fault ≡ cause_of_things structures.now (map thing_view things.now)) }
{
    if let Some(name) = first_with_two_types(alloc, structures, things)? {
        return Ok(Some(LinkFault::TypesDiffer(copy_list(alloc, name)?)));
    }
    if let Some(name) = first_defined_twice(things) {
        return Ok(Some(LinkFault::Twice(copy_list(alloc, name)?)));
    }
    if let Some(name) = first_undefined(things) {
        return Ok(Some(LinkFault::Undefined(copy_list(alloc, name)?)));
    }
    if has_main(things) {
        Ok(None)
    } else {
        Ok(Some(LinkFault::NoMain))
    }
}

/// The first cause why sources are no program.
pub fn first_fault(
    alloc: Global,
    structures: &[List<u32>],
    things: &[Thing<'_>],
    roles: &Roles,
    given: &Given,
) -> Result<Option<LinkFault>, NoMemory>
    ensures { IfOk result (λ fault. fault ≡ cause (map thing_view things.now) roles.now (given_name given.now) structures.now) }
{
    if let Some(fault) = fault_of_things(alloc, structures, things)? {
        return Ok(Some(fault));
    }
    match bad_handler(alloc, things, roles, given)? {
        None => Ok(None),
        Some(name) => Ok(Some(LinkFault::BadHandler(name))),
    }
}
