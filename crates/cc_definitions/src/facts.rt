//! The definition and the name of a thing.

ghost use Rattle.std.specs.Prelude.{◌≡◌, option_map};
ghost use Rattle.std.specs.Option.{option_copied};
ghost use Rattle.cc_definitions.specs.Definitions.{definition as definition_of, func_in as func_of_kind, function_of as function_of_thing, is_function as is_function_of};
ghost use Rattle.cc_things.specs.Things.{is_definition as is_definition_of, is_func_kind, own_name as own_name_of};
ghost use Rattle.cc_things.specs.View.{thing_view, view_of};

use cc_program::Func;
use cc_program::num::{Name, at};
use cc_things::{Mention, Thing};
use cc_unit::{UnitKind, UnitName};

fn is_definition(m: &Mention<'_>) -> bool
    ensures { result ≡ is_definition_of (view_of m.now) }
{
    m.name.count > 0
}

/// The mention that defines a thing, where it has one definition.
pub fn definition<'t>(t: &Thing<'t>) -> Option<Mention<'t>>
    ensures { option_map view_of result ≡ definition_of (thing_view t.now) }
{
    for m in t.mentions.as_slice() {
        if is_definition(m) {
            return Some(*m);
        }
    }
    None
}

fn is_func_name(m: &Mention<'_>) -> bool
    ensures { result ≡ is_func_kind (view_of m.now).name.kind }
{
    match &m.name.kind {
        UnitKind::Func(_, _) => true,
        UnitKind::Object(_) => false,
        UnitKind::Device(_) => false,
    }
}

/// Whether it is defined as a function.
#[tactic(auto, using(crate::proofs::Finding::of_definitions))]
pub fn is_function(t: &Thing<'_>) -> bool
    ensures { result ≡ is_function_of (thing_view t.now) }
{
    match definition(t) {
        None => false,
        Some(m) => is_func_name(&m),
    }
}

fn func_in(kind: &UnitKind) -> Option<&Func>
    ensures { option_copied result ≡ func_of_kind kind.now }
{
    match kind {
        UnitKind::Func(_, Some(f)) => Some(f.get()),
        _ => None,
    }
}

fn func_in_name(name: &UnitName) -> Option<&Func>
    ensures { option_copied result ≡ func_of_kind name.now.kind }
{
    func_in(&name.kind)
}

/// The function that a thing is defined as.
#[tactic(auto, using(crate::proofs::Finding::of_definitions))]
pub fn function_of<'t>(t: &Thing<'t>) -> Option<&'t Func>
    ensures { option_copied result ≡ function_of_thing (thing_view t.now) }
{
    match definition(t) {
        None => None,
        Some(m) => func_in_name(m.name),
    }
}

fn name_in(name: &UnitName) -> Option<&Name>
    ensures { option_copied result ≡ name.now.name }
{
    match &name.name {
        None => None,
        Some(name) => Some(name),
    }
}

/// The name that a thing has in the sources: that of its first mention.
#[tactic(auto, using(crate::proofs::Finding::of_definitions))]
pub fn own_name<'t>(t: &Thing<'t>) -> Option<&'t Name>
    ensures { option_copied result ≡ own_name_of (thing_view t.now) }
{
    match at(t.mentions.as_slice(), 0) {
        None => None,
        Some(m) => name_in(m.name),
    }
}
