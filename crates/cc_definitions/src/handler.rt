//! Which functions may be interrupt handlers, and which are by their attributes.

ghost use Rattle.std.specs.Prelude.{◌≡◌};
ghost use Rattle.std.specs.Option.{option_copied};
ghost use Rattle.cc_definitions.specs.Handlers.{entry_in as entry_of_kind, entry_given as entry_given_of, takes_and_gives_nothing as takes_and_gives_nothing_of, has_handler_type as has_handler_type_of, has_name as has_name_of, is_named_main as is_named_main_of, may_be_handler as may_be_handler_of};
ghost use Rattle.cc_program.specs.declared.types.Shape.{out-Shape};
ghost use Rattle.cc_typed.specs.CcSyntax.Sound.{is_plain_void as is_plain_void_of};
ghost use Rattle.cc_things.specs.View.{thing_view};

use crate::facts::own_name;
use cc_program::num::Name;
use cc_program::{CType, Entry, Shape, Sig};
use cc_things::{Thing, is_defined, is_external, is_func, is_used};
use cc_typed::{is_unqualified, is_void};
use cc_unit::{UnitKind, both_entries};

fn entry_in(kind: &UnitKind) -> Option<Entry>
    ensures { result ≡ entry_of_kind kind.now }
{
    match kind {
        UnitKind::Func(entry, _) => *entry,
        UnitKind::Object(_) => None,
        UnitKind::Device(_) => None,
    }
}

/// How a thing is a handler by its attributes: those of all its declarations add up.
pub fn entry_given(t: &Thing<'_>) -> Option<Entry>
    ensures { result ≡ entry_given_of (thing_view t.now) }
{
    let mut entry = None;
    for m in t.mentions.as_slice() {
        entry = both_entries(entry, entry_in(&m.name.kind));
    }
    entry
}

fn is_plain_void(t: &CType) -> bool
    ensures { result ≡ is_plain_void_of t.now }
{
    is_unqualified(t) && is_void(t)
}

fn takes_and_gives_nothing(shape: &Shape) -> bool
    ensures { result ≡ takes_and_gives_nothing_of (out-Shape shape.now) }
{
    match shape {
        Shape::Func(sig) => {
            let sig: &Sig = sig.get();
            sig.params.all().len() == 0 && is_plain_void(&sig.result)
        }
        _ => false,
    }
}

/// Whether a thing is declared as `void f(void)` everywhere.
fn has_handler_type(t: &Thing<'_>) -> bool
    ensures { result ≡ has_handler_type_of (thing_view t.now) }
{
    for m in t.mentions.as_slice() {
        if !takes_and_gives_nothing(&m.name.ctype.shape) {
            return false;
        }
    }
    true
}

/// Whether there is a name, and it is this one.
pub fn has_name(name: &[u8], known: Option<&Name>) -> bool
    ensures { result ≡ has_name_of name.now (option_copied known.entry) }
{
    match known {
        None => false,
        Some(known) => name == known.all(),
    }
}

/// Whether a thing is the function that runs first (C99 5.1.2.2.1).
pub fn is_named_main(t: &Thing<'_>) -> bool
    ensures { result ≡ is_named_main_of (thing_view t.now) }
{
    is_external(t) && is_func(t) && has_name("main".as_bytes(), own_name(t))
}

/// Whether a thing is a defined `void f(void)` other than main, which nothing calls and whose address nothing takes.
pub fn may_be_handler(t: &Thing<'_>) -> bool
    ensures { result ≡ may_be_handler_of (thing_view t.now) }
{
    is_defined(t) && has_handler_type(t) && !(is_named_main(t) || is_used(t))
}
