//! What is known of a thing.

ghost use Rattle.std.specs.Prelude.{◌≡◌, nat_lt};
ghost use Rattle.std.specs.List.{list_any};
ghost use Rattle.cc_things.specs.Things.{is_external as is_external_thing, is_external_linkage, is_func as is_func_thing, is_func_kind, is_device_kind, definitions, is_defined as is_defined_thing, is_used as is_used_thing, is_device as is_device_thing, is_there as is_there_thing};
ghost use Rattle.cc_things.specs.View.{view_of, thing_view};

use crate::mention::Mention;
use crate::thing::Thing;
use cc_unit::{Linkage, UnitKind};

fn is_external_name(m: &Mention<'_>) -> bool
    ensures { result ≡ is_external_linkage (view_of m.now).name.linkage }
{
    match m.name.linkage {
        Linkage::External => true,
        Linkage::Internal => false,
        Linkage::Local => false,
    }
}

fn is_device_name(m: &Mention<'_>) -> bool
    ensures { result ≡ is_device_kind (view_of m.now).name.kind }
{
    match &m.name.kind {
        UnitKind::Device(_) => true,
        UnitKind::Object(_) => false,
        UnitKind::Func(_, _) => false,
    }
}

fn is_func_name(m: &Mention<'_>) -> bool
    ensures { result ≡ is_func_kind (view_of m.now).name.kind }
{
    match &m.name.kind {
        UnitKind::Func(_, _) => true,
        UnitKind::Object(_) => false,
        UnitKind::Device(_) => false,
    }
}

/// Whether it has an external name (C99 6.2.2, 2).
#[tactic(auto, using(crate::proofs::Counted::of_views))]
pub fn is_external(t: &Thing<'_>) -> bool
    ensures { result ≡ is_external_thing (thing_view t.now) }
{
    for m in t.mentions.as_slice() {
        if is_external_name(m) {
            return true;
        }
    }
    false
}

/// Whether it is a function.
#[tactic(auto, using(crate::proofs::Counted::of_views))]
pub fn is_func(t: &Thing<'_>) -> bool
    ensures { result ≡ is_func_thing (thing_view t.now) }
{
    for m in t.mentions.as_slice() {
        if is_func_name(m) {
            return true;
        }
    }
    false
}

/// Whether some source defines it.
#[tactic(auto, using(crate::proofs::Counted::of_views))]
pub fn is_defined(t: &Thing<'_>) -> bool
    ensures { result ≡ is_defined_thing (thing_view t.now) }
{
    for m in t.mentions.as_slice() {
        if m.name.count > 0 {
            return true;
        }
    }
    false
}

/// Whether it has more than one definition.
#[tactic(auto, using(crate::proofs::Counted::of_views))]
pub fn is_defined_twice(t: &Thing<'_>) -> bool
    ensures { result ≡ nat_lt 1 (definitions (thing_view t.now)) }
{
    let mut is_defined = false;
    for m in t.mentions.as_slice() {
        if m.name.count > 1 {
            return true;
        }
        if m.name.count == 1 {
            if is_defined {
                return true;
            }
            is_defined = true;
        }
    }
    false
}

/// Whether a body or a first value speaks of it.
#[tactic(auto, using(crate::proofs::Counted::of_views))]
pub fn is_used(t: &Thing<'_>) -> bool
    ensures { result ≡ is_used_thing (thing_view t.now) }
{
    for m in t.mentions.as_slice() {
        if m.used {
            return true;
        }
    }
    false
}

/// Whether a source has it as a device.
#[tactic(auto, using(crate::proofs::Counted::of_views))]
fn is_device_somewhere(t: &Thing<'_>) -> bool
    ensures { result ≡ list_any (λ m. is_device_kind m.name.kind) (thing_view t.now).mentions }
{
    for m in t.mentions.as_slice() {
        if is_device_name(m) {
            return true;
        }
    }
    false
}

/// Whether it is a device: what some source defines is an object.
pub fn is_device(t: &Thing<'_>) -> bool
    ensures { result ≡ is_device_thing (thing_view t.now) }
{
    is_device_somewhere(t) && !is_defined(t)
}

/// Whether the program has it: what is defined, and devices.
pub fn is_there(t: &Thing<'_>) -> bool
    ensures { result ≡ is_there_thing (thing_view t.now) }
{
    is_defined(t) || is_device(t)
}
