//! What a program has, in order.

ghost use Rattle.std.specs.Prelude.{◌≡◌, ◌++◌, ◌∷◌, [], IfOk, OnOk, filter, map, not, option_map, option_to_list, if◌then◌else◌};
ghost use Rattle.cc_definitions.specs.Definitions.{definition as definition_of, defined as defined_of, devices as devices_of, has_a_name as has_a_name_of, is_function as is_function_of, is_named_by, named as named_of, numbers_of, has_definition, place_at, place_of as place_of_definition, thing_at as thing_of_number, thing_or_none};
ghost use Rattle.std.specs.Option.{option_copied};
ghost use Rattle.cc_things.specs.View.{thing_view};

use crate::facts::{definition, is_function, own_name};
use cc_order::{Place, sort_places};
use cc_program::num::{NoMemory, at};
use cc_things::{Thing, is_device, is_external, is_there};
use std::alloc::Global;

/// The place of the definition of the thing of a number, where it has one.
fn place_of(t: &Thing<'_>, number: usize) -> Option<Place>
    ensures { result ≡ option_map (λ m. place_of_definition number m) (definition_of (thing_view t.now)) }
{
    match definition(t) {
        None => None,
        Some(m) => Some(Place {
            source: m.text,
            offset: m.name.first.unwrap_or(0),
            number,
        }),
    }
}

fn put_place(places: &mut Vec<Place>, place: Option<Place>) -> Result<(), NoMemory>
    ensures { OnOk result (places.new.items ≡ places.old.items ++ option_to_list place) }
{
    if let Some(place) = place {
        places.push(place)?;
    }
    Ok(())
}

/// The places of all definitions, in order of first appearance of what they define.
fn places(alloc: Global, things: &[Thing<'_>]) -> Result<Vec<Place>, NoMemory>
    ensures { IfOk result (λ places. places.items ≡ map (place_at (map thing_view things.now)) (numbers_of has_definition (map thing_view things.now))) }
{
    let mut places = Vec::new(alloc);
    let mut number: usize = 0;
    for t in things {
        put_place(&mut places, place_of(t, number))?;
        number += 1;
    }
    Ok(places)
}

/// The numbers of what stands at places.
fn numbers(alloc: Global, places: &[Place]) -> Result<Vec<usize>, NoMemory>
    ensures { IfOk result (λ numbers. numbers.items ≡ map (λ p. p.number) places.now) }
{
    let mut numbers = Vec::new(alloc);
    for place in places {
        numbers.push(place.number)?;
    }
    Ok(numbers)
}

/// Puts a number behind others, where it passes.
fn put(numbers: &mut Vec<usize>, passes: bool, number: usize) -> Result<(), NoMemory>
    ensures { OnOk result (numbers.new.items ≡ numbers.old.items ++ (if passes then number ∷ [] else [])) }
{
    if passes {
        numbers.push(number)?;
    }
    Ok(())
}

/// The numbers of what is defined, in order of the text.
pub fn defined(alloc: Global, things: &[Thing<'_>]) -> Result<Vec<usize>, NoMemory>
    ensures { IfOk result (λ defined. defined.items ≡ defined_of (map thing_view things.now)) }
{
    let mut found = places(alloc, things)?;
    sort_places(&mut found)?;
    let numbers = numbers(alloc, found.as_slice())?;
    Ok(numbers)
}

/// The numbers of functions, and of objects.
#[derive(Drop)]
pub struct Kinds {
    pub functions: Vec<usize>,
    pub objects: Vec<usize>,
}

/// The thing of a number, where there is one.
pub fn thing_at<'a, 't>(things: &'a [Thing<'t>], number: usize) -> Option<&'a Thing<'t>>
    ensures { thing_or_none (option_copied result) ≡ thing_of_number (map thing_view things.now) number }
{
    at(things, number)
}

fn is_function_there(t: Option<&Thing<'_>>) -> bool
    ensures { result ≡ is_function_of (thing_or_none (option_copied t.entry)) }
{
    match t {
        None => false,
        Some(t) => is_function(t),
    }
}

fn is_function_at(things: &[Thing<'_>], number: usize) -> bool
    ensures { result ≡ is_function_of (thing_of_number (map thing_view things.now) number) }
{
    is_function_there(thing_at(things, number))
}

/// Which of some things are functions, and which are objects.
pub fn kinds_of(alloc: Global, things: &[Thing<'_>], defined: &[usize]) -> Result<Kinds, NoMemory>
    ensures functions { IfOk result (λ kinds. kinds.functions.items ≡ filter (λ k. is_function_of (thing_of_number (map thing_view things.now) k)) defined.now) }
    ensures objects { IfOk result (λ kinds. kinds.objects.items ≡ filter (λ k. not (is_function_of (thing_of_number (map thing_view things.now) k))) defined.now) }
{
    let mut functions = Vec::new(alloc);
    let mut objects = Vec::new(alloc);
    for number in defined {
        let is_function = is_function_at(things, *number);
        put(&mut functions, is_function, *number)?;
        put(&mut objects, !is_function, *number)?;
    }
    Ok(Kinds { functions, objects })
}

/// The numbers of devices, in order of first appearance.
pub fn devices(alloc: Global, things: &[Thing<'_>]) -> Result<Vec<usize>, NoMemory>
    ensures { IfOk result (λ devices. devices.items ≡ devices_of (map thing_view things.now)) }
{
    let mut devices = Vec::new(alloc);
    let mut number: usize = 0;
    for t in things {
        put(&mut devices, is_device(t), number)?;
        number += 1;
    }
    Ok(devices)
}

/// Whether a thing has a name in the program.
fn has_a_name(t: &Thing<'_>) -> bool
    ensures { result ≡ has_a_name_of (thing_view t.now) }
{
    is_there(t) && !(is_device(t) && own_name(t).is_none())
}

/// Whether a thing has a name in the program, and is external, or is not.
fn is_named_by_linkage(t: &Thing<'_>, external: bool) -> bool
    ensures { result ≡ is_named_by external (thing_view t.now) }
{
    has_a_name(t) && (is_external(t) == external)
}

/// The numbers of what has a name in the program and is external, or is not.
fn named_by_linkage(
    alloc: Global,
    things: &[Thing<'_>],
    external: bool,
) -> Result<Vec<usize>, NoMemory>
    ensures { IfOk result (λ named. named.items ≡ numbers_of (is_named_by external) (map thing_view things.now)) }
{
    let mut named = Vec::new(alloc);
    let mut number: usize = 0;
    for t in things {
        put(&mut named, is_named_by_linkage(t, external), number)?;
        number += 1;
    }
    Ok(named)
}

/// The numbers of what has a name in the program, in the order in which names are given.
pub fn named(alloc: Global, things: &[Thing<'_>]) -> Result<Vec<usize>, NoMemory>
    ensures { IfOk result (λ named. named.items ≡ named_of (map thing_view things.now)) }
{
    let mut named = named_by_linkage(alloc, things, true)?;
    let others = named_by_linkage(alloc, things, false)?;
    named.extend_from_slice(others.as_slice())?;
    Ok(named)
}
