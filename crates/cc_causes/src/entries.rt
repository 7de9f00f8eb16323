//! Which functions of a program are interrupt handlers.

ghost use Rattle.std.specs.Prelude.{◌≡◌, ◌&&◌, not, IfOk, find, length, map, option_and_then};
ghost use Rattle.std.specs.Option.{option_copied};
ghost use Rattle.std.specs.Str.{bytes_eq};
ghost use Rattle.cc_definitions.specs.Definitions.{thing_at as thing_of_number, thing_or_none, numbers_below};
ghost use Rattle.cc_definitions.specs.Handlers.{may_be_handler as may_be_handler_of, entry_given as entry_given_of};
ghost use Rattle.cc_causes.specs.Causes.{handler_name as handler_name_of, bad_handler as bad_handler_of};
ghost use Rattle.cc_causes.specs.Entries.{is_in_roles as is_in_roles_of, entry_by as entry_by_of, entry_at as entry_at_of, is_bad_handler as is_bad_handler_of, is_named, is_nowhere as is_nowhere_of};
ghost use Rattle.cc_linked_names.specs.Given.{given_name};
ghost use Rattle.cc_names.specs.Names.{is_among as is_among_of};
ghost use Rattle.cc_things.specs.Things.{is_device as is_device_thing, own_name as own_name_of};
ghost use Rattle.cc_things.specs.View.{thing_view};

use cc_definitions::{entry_given, has_name, may_be_handler, own_name, thing_at};
use cc_linked_names::Given;
use cc_program::num::{Name, NoMemory};
use cc_program::{Entry, Roles, copy_list};
use cc_things::{Thing, is_device};
use std::alloc::Global;

fn is_same(name: &[u8], other: &[u8]) -> bool
    ensures { result ≡ bytes_eq name.now other.now }
{
    name == other
}

fn is_among(name: &[u8], names: &[Name]) -> bool
    ensures { result ≡ is_among_of name.now names.now }
{
    for other in names {
        if is_same(name, other.all()) {
            return true;
        }
    }
    false
}

fn is_in_roles(roles: &Roles, name: Option<&Name>) -> bool
    ensures { result ≡ is_in_roles_of roles.now (option_copied name.entry) }
{
    match name {
        None => false,
        Some(name) => is_among(name.all(), roles.handlers.all()),
    }
}

fn entry_by(given: Option<Entry>, listed: bool) -> Option<Entry>
    ensures { result ≡ entry_by_of given listed }
{
    match given {
        Some(entry) => Some(entry),
        None => { if listed { Some(Entry::Listed) } else { None } }
    }
}

/// How a thing is a handler, by its attributes and by the name that it has in the program.
fn entry_of(t: &Thing<'_>, roles: &Roles, name: Option<&Name>) -> Option<Entry>
    ensures { result ≡ entry_by_of (entry_given_of (thing_view t.now)) (not (is_device_thing (thing_view t.now)) && is_in_roles_of roles.now (option_copied name.entry)) }
{
    entry_by(entry_given(t), !is_device(t) && is_in_roles(roles, name))
}

fn entry_there(t: Option<&Thing<'_>>, roles: &Roles, name: Option<&Name>) -> Option<Entry>
    ensures { result ≡ entry_by_of (entry_given_of (thing_or_none (option_copied t.entry))) (not (is_device_thing (thing_or_none (option_copied t.entry))) && is_in_roles_of roles.now (option_copied name.entry)) }
{
    match t {
        None => entry_by(None, is_in_roles(roles, name)),
        Some(t) => entry_of(t, roles, name),
    }
}

/// How the thing of a number is a handler.
pub fn entry_at(things: &[Thing<'_>], roles: &Roles, given: &Given, number: usize) -> Option<Entry>
    ensures { result ≡ entry_at_of (map thing_view things.now) roles.now (given_name given.now) number }
{
    entry_there(thing_at(things, number), roles, given.name_of(number))
}

fn may_be_handler_there(t: Option<&Thing<'_>>) -> bool
    ensures { result ≡ may_be_handler_of (thing_or_none (option_copied t.entry)) }
{
    match t {
        None => false,
        Some(t) => may_be_handler(t),
    }
}

fn is_device_there(t: Option<&Thing<'_>>) -> bool
    ensures { result ≡ is_device_thing (thing_or_none (option_copied t.entry)) }
{
    match t {
        None => false,
        Some(t) => is_device(t),
    }
}

fn own_name_there<'t>(t: Option<&Thing<'t>>) -> Option<&'t Name>
    ensures { option_copied result ≡ own_name_of (thing_or_none (option_copied t.entry)) }
{
    match t {
        None => None,
        Some(t) => own_name(t),
    }
}

/// Whether the thing of a number is a handler and may be none.
fn is_bad_handler(things: &[Thing<'_>], roles: &Roles, given: &Given, number: usize) -> bool
    ensures { result ≡ is_bad_handler_of (map thing_view things.now) roles.now (given_name given.now) number }
{
    entry_at(things, roles, given, number).is_some()
        && !may_be_handler_there(thing_at(things, number))
}

fn copied(alloc: Global, name: Option<&Name>) -> Result<Option<Name>, NoMemory>
    ensures { IfOk result (λ copy. copy ≡ option_copied name.entry) }
{
    match name {
        None => Ok(None),
        Some(name) => Ok(Some(copy_list(alloc, name)?)),
    }
}

fn own_name_at(alloc: Global, things: &[Thing<'_>], number: usize) -> Result<Option<Name>, NoMemory>
    ensures { IfOk result (λ name. name ≡ own_name_of (thing_of_number (map thing_view things.now) number)) }
{
    copied(alloc, own_name_there(thing_at(things, number)))
}

/// The name of a handler in the program, or in the sources where it is not there.
fn handler_name(
    alloc: Global,
    things: &[Thing<'_>],
    given: &Given,
    number: usize,
) -> Result<Option<Name>, NoMemory>
    ensures { IfOk result (λ name. name ≡ handler_name_of (map thing_view things.now) (given_name given.now) number) }
{
    match given.name_of(number) {
        Some(name) => Ok(Some(copy_list(alloc, name)?)),
        None => own_name_at(alloc, things, number),
    }
}

/// The name of the first thing that is a handler and may be none.
fn bad_thing(
    alloc: Global,
    things: &[Thing<'_>],
    roles: &Roles,
    given: &Given,
) -> Result<Option<Name>, NoMemory>
    ensures { IfOk result (λ name. name ≡ option_and_then (handler_name_of (map thing_view things.now) (given_name given.now)) (find (is_bad_handler_of (map thing_view things.now) roles.now (given_name given.now)) (numbers_below (length (map thing_view things.now))))) }
{
    for number in 0..things.len() {
        if is_bad_handler(things, roles, given, number) {
            return handler_name(alloc, things, given, number);
        }
    }
    Ok(None)
}

/// Whether the thing of a number is a function or an object that has this name in the program.
fn has_name_at(things: &[Thing<'_>], given: &Given, name: &[u8], number: usize) -> bool
    ensures { result ≡ is_named (map thing_view things.now) (given_name given.now) name.now number }
{
    !is_device_there(thing_at(things, number)) && has_name(name, given.name_of(number))
}

/// Whether no function and no object has a name that the roles have.
fn is_nowhere(things: &[Thing<'_>], given: &Given, name: &[u8]) -> bool
    ensures { result ≡ is_nowhere_of (map thing_view things.now) (given_name given.now) name.now }
{
    for number in 0..things.len() {
        if has_name_at(things, given, name, number) {
            return false;
        }
    }
    true
}

/// The first name of the roles that no function and no object has.
fn missing_name<'r>(things: &[Thing<'_>], roles: &'r Roles, given: &Given) -> Option<&'r Name>
    ensures { option_copied result ≡ find (is_nowhere_of (map thing_view things.now) (given_name given.now)) roles.now.handlers }
{
    for name in roles.handlers.all() {
        if is_nowhere(things, given, name.all()) {
            return Some(name);
        }
    }
    None
}

/// The first handler that may be none.
pub fn bad_handler(
    alloc: Global,
    things: &[Thing<'_>],
    roles: &Roles,
    given: &Given,
) -> Result<Option<Name>, NoMemory>
    ensures { IfOk result (λ name. name ≡ bad_handler_of (map thing_view things.now) roles.now (given_name given.now)) }
{
    match bad_thing(alloc, things, roles, given)? {
        Some(name) => Ok(Some(name)),
        None => copied(alloc, missing_name(things, roles, given)),
    }
}
