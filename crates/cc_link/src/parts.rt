//! What the program has.

ghost use Rattle.std.specs.Prelude.{◌≡◌, ◌+◌, ◌++◌, IfOk, OnOk, [], filter_map, map, option_and_then, option_to_list, position, slice_get, unwrap_or, zip};
ghost use Rattle.std.specs.Option.{option_copied};
ghost use Rattle.cc_definitions.specs.Handlers.{is_named_main as is_named_main_of};
ghost use Rattle.cc_definitions.specs.Definitions.{thing_at as thing_of_number, thing_or_none};
ghost use Rattle.cc_link.specs.Linked.{structure_of as structure_of_known, device_in as device_in_kind, device_at as device_of_number, leaves_in as leaves_in_kind, ids_in as ids_in_text, object_in as object_in_mention, object_by as object_by_thing, object_at as object_of_number, func_by, func_at as func_of_number, no_ids as no_ids_of};
ghost use Rattle.cc_linked_names.specs.Given.{given_name};
ghost use Rattle.cc_relocation.specs.Relocated.{func_with};
ghost use Rattle.cc_structures.specs.View.{known_of, knowns_of};
ghost use Rattle.cc_things.specs.View.{thing_view, view_of};

use cc_causes::{entry_at, structures_in};
use cc_definitions::{definition, function_of, is_named_main, thing_at};
use cc_linked_names::Given;
use cc_program::num::{List, Name, NoMemory, at};
use cc_program::{Device, Entry, Func, Leaf, Object, Roles, Structure, copy_list};
use cc_relocation::{relocated_device, relocated_func, relocated_object, relocated_structure};
use cc_structures::Known;
use cc_things::{Mention, Thing};
use cc_unit::{Ids, UnitKind};
use std::alloc::Global;

fn structure(
    alloc: Global,
    numbers: &[List<u32>],
    tag: &Name,
    known: &Known<'_>,
) -> Result<Structure, NoMemory>
    ensures { IfOk result (λ r. r ≡ structure_of_known numbers.now (tag.now, known_of known.now)) }
{
    let numbers = structures_in(numbers, known.text as usize);
    relocated_structure(alloc, tag, numbers, &known.structure.members)
}

/// The structures of a program, with these tags. Each has one.
pub fn structures(
    alloc: Global,
    numbers: &[List<u32>],
    tags: &[Name],
    firsts: &[Known<'_>],
) -> Result<List<Structure>, NoMemory>
    ensures { IfOk result (λ structures. structures ≡ map (structure_of_known numbers.now) (zip tags.now (knowns_of firsts.now))) }
{
    let mut structures = Vec::new(alloc);
    let mut position: usize = 0;
    for known in firsts {
        let Some(tag) = at(tags, position) else {
            return Ok(List::of(structures));
        };
        let tagged = structure(alloc, numbers, tag, known)?;
        structures.push(tagged)?;
        position += 1;
    }
    Ok(List::of(structures))
}

/// Puts what is there behind others.
fn put<T: Drop>(made: &mut Vec<T>, one: Option<T>) -> Result<(), NoMemory>
    ensures { OnOk result (made.new.items ≡ made.old.items ++ option_to_list one) }
{
    if let Some(one) = one {
        made.push(one)?;
    }
    Ok(())
}

fn device_in(kind: &UnitKind) -> Option<&Device>
    ensures { option_copied result ≡ device_in_kind kind.now }
{
    match kind {
        UnitKind::Device(device) => Some(device),
        UnitKind::Object(_) => None,
        UnitKind::Func(_, _) => None,
    }
}

fn device_of<'t>(t: &Thing<'t>) -> Option<&'t Device>
    ensures { option_copied result ≡ option_and_then (λ m. device_in_kind m.name.kind) (slice_get (thing_view t.now).mentions 0) }
{
    match at(t.mentions.as_slice(), 0) {
        None => None,
        Some(m) => device_in(&m.name.kind),
    }
}

fn device_there<'t>(t: Option<&Thing<'t>>) -> Option<&'t Device>
    ensures { option_copied result ≡ option_and_then (λ m. device_in_kind m.name.kind) (slice_get (thing_or_none (option_copied t.entry)).mentions 0) }
{
    match t {
        None => None,
        Some(t) => device_of(t),
    }
}

fn device_at(
    alloc: Global,
    things: &[Thing<'_>],
    given: &Given,
    number: usize,
) -> Result<Option<Device>, NoMemory>
    ensures { IfOk result (λ device. device ≡ device_of_number (map thing_view things.now) (given_name given.now) number) }
{
    match device_there(thing_at(things, number)) {
        None => Ok(None),
        Some(device) => Ok(Some(relocated_device(alloc, given.name_of(number), device)?)),
    }
}

/// The devices of a program.
pub fn devices(
    alloc: Global,
    things: &[Thing<'_>],
    given: &Given,
    numbers: &[usize],
) -> Result<List<Device>, NoMemory>
    ensures { IfOk result (λ devices. devices ≡ filter_map (device_of_number (map thing_view things.now) (given_name given.now)) numbers.now) }
{
    let mut devices = Vec::new(alloc);
    for number in numbers {
        let device = device_at(alloc, things, given, *number)?;
        put(&mut devices, device)?;
    }
    Ok(List::of(devices))
}

fn leaves_in(kind: &UnitKind) -> &[Leaf]
    ensures { result.now ≡ leaves_in_kind kind.now }
{
    match kind {
        UnitKind::Object(init) => init.all(),
        UnitKind::Device(_) => &[],
        UnitKind::Func(_, _) => &[],
    }
}

fn no_ids(alloc: Global) -> Ids
    ensures { result ≡ no_ids_of }
{
    Ids {
        structures: List::of(Vec::new(alloc)),
        names: List::of(Vec::new(alloc)),
    }
}

/// The name of a thing in the program, or an empty one.
fn name_or_none(alloc: Global, given: &Given, number: usize) -> Result<Name, NoMemory>
    ensures { IfOk result (λ name. name ≡ unwrap_or (given_name given.now number) []) }
{
    match given.name_of(number) {
        None => Ok(List::of(Vec::new(alloc))),
        Some(name) => copy_list(alloc, name),
    }
}

/// The object that a mention defines.
fn object_in(alloc: Global, ids: &[Ids], name: Name, m: &Mention<'_>) -> Result<Object, NoMemory>
    ensures { IfOk result (λ object. object ≡ object_in_mention ids.now name (view_of m.now)) }
{
    let init = leaves_in(&m.name.kind);
    match at(ids, m.text as usize) {
        None => relocated_object(alloc, name, &no_ids(alloc), &m.name.ctype, init),
        Some(ids) => relocated_object(alloc, name, ids, &m.name.ctype, init),
    }
}

fn object_of(
    alloc: Global,
    ids: &[Ids],
    name: Name,
    t: &Thing<'_>,
) -> Result<Option<Object>, NoMemory>
    ensures { IfOk result (λ object. object ≡ object_by_thing ids.now name (thing_view t.now)) }
{
    match definition(t) {
        None => Ok(None),
        Some(m) => Ok(Some(object_in(alloc, ids, name, &m)?)),
    }
}

fn object_there(
    alloc: Global,
    ids: &[Ids],
    name: Name,
    t: Option<&Thing<'_>>,
) -> Result<Option<Object>, NoMemory>
    ensures { IfOk result (λ object. object ≡ object_by_thing ids.now name (thing_or_none (option_copied t.entry))) }
{
    match t {
        None => Ok(None),
        Some(t) => object_of(alloc, ids, name, t),
    }
}

fn object_at(
    alloc: Global,
    things: &[Thing<'_>],
    given: &Given,
    ids: &[Ids],
    number: usize,
) -> Result<Option<Object>, NoMemory>
    ensures { IfOk result (λ object. object ≡ object_of_number (map thing_view things.now) (given_name given.now) ids.now number) }
{
    let name = name_or_none(alloc, given, number)?;
    object_there(alloc, ids, name, thing_at(things, number))
}

/// The objects of a program.
pub fn objects(
    alloc: Global,
    things: &[Thing<'_>],
    given: &Given,
    ids: &[Ids],
    numbers: &[usize],
) -> Result<List<Object>, NoMemory>
    ensures { IfOk result (λ objects. objects ≡ filter_map (object_of_number (map thing_view things.now) (given_name given.now) ids.now) numbers.now) }
{
    let mut objects = Vec::new(alloc);
    for number in numbers {
        let object = object_at(alloc, things, given, ids, *number)?;
        put(&mut objects, object)?;
    }
    Ok(List::of(objects))
}

fn func_in(
    alloc: Global,
    ids: &[Ids],
    text: u32,
    name: Name,
    names: &[Name],
    entry: Option<Entry>,
    func: &Func,
) -> Result<Func, NoMemory>
    ensures { IfOk result (λ r. r ≡ func_with name names.now entry (ids_in_text ids.now text) func.now) }
{
    match at(ids, text as usize) {
        None => relocated_func(alloc, name, names, entry, &no_ids(alloc), func),
        Some(ids) => relocated_func(alloc, name, names, entry, ids, func),
    }
}

fn func_of(
    alloc: Global,
    ids: &[Ids],
    name: Name,
    names: &[Name],
    entry: Option<Entry>,
    t: &Thing<'_>,
) -> Result<Option<Func>, NoMemory>
    ensures { IfOk result (λ func. func ≡ func_by ids.now name names.now entry (thing_view t.now)) }
{
    match definition(t) {
        None => Ok(None),
        Some(m) => match function_of(t) {
            None => Ok(None),
            Some(func) => Ok(Some(func_in(alloc, ids, m.text, name, names, entry, func)?)),
        },
    }
}

fn func_there(
    alloc: Global,
    ids: &[Ids],
    name: Name,
    names: &[Name],
    entry: Option<Entry>,
    t: Option<&Thing<'_>>,
) -> Result<Option<Func>, NoMemory>
    ensures { IfOk result (λ func. func ≡ func_by ids.now name names.now entry (thing_or_none (option_copied t.entry))) }
{
    match t {
        None => Ok(None),
        Some(t) => func_of(alloc, ids, name, names, entry, t),
    }
}

fn func_at(
    alloc: Global,
    things: &[Thing<'_>],
    roles: &Roles,
    given: &Given,
    ids: &[Ids],
    function: &(usize, List<Name>),
) -> Result<Option<Func>, NoMemory>
    ensures { IfOk result (λ func. func ≡ func_of_number (map thing_view things.now) (given_name given.now) roles.now ids.now function.now) }
{
    let number = function.0;
    let name = name_or_none(alloc, given, number)?;
    let entry = entry_at(things, roles, given, number);
    let names = function.1.all();
    func_there(alloc, ids, name, names, entry, thing_at(things, number))
}

/// The functions of a program.
pub fn funcs(
    alloc: Global,
    things: &[Thing<'_>],
    roles: &Roles,
    given: &Given,
    ids: &[Ids],
) -> Result<List<Func>, NoMemory>
    ensures { IfOk result (λ funcs. funcs ≡ filter_map (func_of_number (map thing_view things.now) (given_name given.now) roles.now ids.now) given.now.locals.items) }
{
    let mut funcs = Vec::new(alloc);
    for function in given.locals.as_slice() {
        let func = func_at(alloc, things, roles, given, ids, function)?;
        put(&mut funcs, func)?;
    }
    Ok(List::of(funcs))
}

fn is_named_main_there(t: Option<&Thing<'_>>) -> bool
    ensures { result ≡ is_named_main_of (thing_or_none (option_copied t.entry)) }
{
    match t {
        None => false,
        Some(t) => is_named_main(t),
    }
}

fn is_named_main_at(things: &[Thing<'_>], number: usize) -> bool
    ensures { result ≡ is_named_main_of (thing_of_number (map thing_view things.now) number) }
{
    is_named_main_there(thing_at(things, number))
}

/// The position behind one.
fn behind(position: u32) -> Result<u32, NoMemory>
    ensures { IfOk result (λ next. next ≡ position + 1) }
{
    position.checked_add(1).ok_or(NoMemory)
}

/// The id of the function that runs first.
pub fn main_number(things: &[Thing<'_>], functions: &[usize]) -> Result<u32, NoMemory>
    ensures { IfOk result (λ main. main ≡ unwrap_or (position (λ k. is_named_main_of (thing_of_number (map thing_view things.now) k)) functions.now) 0) }
{
    let mut position: u32 = 0;
    for number in functions {
        if is_named_main_at(things, *number) {
            return Ok(position);
        }
        position = behind(position)?;
    }
    Ok(0)
}
