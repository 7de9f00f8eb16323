//! Which keys are slots', and of which an address may be named.

ghost use Rattle.std.specs.Prelude.{◌≡◌, ◌↔◌, ◌<◌, ℕ, IsTrue, length, map, IfOk};
ghost use Rattle.std.specs.List.{list_any};
ghost use Rattle.std.specs.Option.{option_copied};
ghost use Rattle.cc_program.specs.declared.types.Shape.{out-Shape};
ghost use Rattle.cc_state.specs.Shape.{ctype_of as ctype_of_key, is_scalar_type as is_scalar_type_of, is_row_shape, is_slot_type as is_slot_type_of};
ghost use Rattle.cc_state_reads.specs.CcStateKeys.Addressed.{taken_keys};
ghost use Rattle.cc_state_reads.specs.CcStateKeys.Keys.{is_key as is_key_of};
ghost use Rattle.cc_state_shaped.specs.Names.{is_slot_of, may_name as may_name_of, HaveSame};

use cc_program::num::{NoMemory, at};
use cc_program::{CType, Program, Shape};
use cc_state_reads::state_facts::Key;
use cc_state_reads::state_keys::is_key;
use cc_state_reads::typed::scalar_value;
use std::alloc::Global;

/// The declared type of a key.
pub(crate) fn ctype_of(p: &Program, key: Key) -> Option<&CType>
    ensures { option_copied result ≡ ctype_of_key p.now key }
{
    match key {
        Key::Object(i) => match at(p.objects.all(), i as usize) {
            None => None,
            Some(object) => Some(&object.ctype),
        },
        Key::Local(f, r) => match at(p.funcs.all(), f as usize) {
            None => None,
            Some(func) => match at(func.locals.all(), r as usize) {
                None => None,
                Some(local) => Some(&local.1),
            },
        },
        Key::Member(s, m) => match at(p.structures.all(), s as usize) {
            None => None,
            Some(structure) => match at(structure.members.all(), m as usize) {
                None => None,
                Some(member) => Some(&member.1),
            },
        },
    }
}

fn is_scalar_type(t: &CType) -> bool
    ensures { result ≡ is_scalar_type_of t.now }
{
    scalar_value(t).is_some()
}

/// Whether a type is an array of scalars.
fn is_row(t: &CType) -> bool
    ensures { result ≡ is_row_shape (out-Shape t.now.shape) }
{
    match &t.shape {
        Shape::Array(of, _) => is_scalar_type(of.get()),
        Shape::Void | Shape::Int(_) | Shape::Pointer(_) | Shape::Struct(_) | Shape::Func(_) => {
            false
        }
    }
}

fn is_slot_type(key: Key, t: &CType) -> bool
    ensures { result ≡ is_slot_type_of key t.now }
{
    match key {
        Key::Object(_) => is_scalar_type(t) || is_row(t),
        Key::Local(_, _) => false,
        Key::Member(_, _) => is_scalar_type(t),
    }
}

/// Whether a key is a slot's.
fn is_slot(p: &Program, key: Key) -> bool
    ensures { result ≡ is_slot_of key (ctype_of_key p.now key) }
{
    match ctype_of(p, key) {
        None => false,
        Some(t) => is_slot_type(key, t),
    }
}

fn is_among(keys: &[Key], key: Key) -> bool
    ensures { result ≡ list_any (is_key_of key) keys.now }
{
    keys.iter().any(|other| is_key(key, *other))
}

/// Whether an address may name a cell of a key, where these are the keys whose addresses the text takes.
#[tactic(auto, unfolding(crate::specs::Names::may_name))]
pub(crate) fn may_name(p: &Program, taken: &[Key], key: Key) -> bool
    requires { taken.now ≡ taken_keys p.now }
    ensures { result ≡ may_name_of p.now key }
{
    !is_slot(p, key) || is_among(taken, key)
}

/// Of each of some keys, whether one may.
pub(crate) fn named_keys(
    alloc: Global,
    p: &Program,
    keys: &[Key],
    taken: &[Key],
) -> Result<Vec<bool>, NoMemory>
    requires { taken.now ≡ taken_keys p.now }
    ensures { IfOk result (λ names. names.items ≡ map (may_name_of p.now) keys.now) }
{
    let mut names = Vec::new(alloc);
    for key in keys {
        names.push(may_name(p, taken, *key))?;
    }
    Ok(names)
}

/// Whether two lists have one key at a place.
fn has_same(keys: &[Key], others: &[Key], number: usize) -> bool
    ensures { IsTrue result ↔ HaveSame keys.now others.now number }
{
    match at(keys, number) {
        None => false,
        Some(key) => match at(others, number) {
            None => false,
            Some(other) => is_key(*key, *other),
        },
    }
}

/// Whether each key of a list stands at its place in another one.
fn have_same(keys: &[Key], others: &[Key]) -> bool
    ensures { IsTrue result ↔ ((n : ℕ) → n < length keys.now → HaveSame keys.now others.now n) }
{
    for number in 0..keys.len() {
        if !has_same(keys, others, number) {
            return false;
        }
    }
    true
}

/// Whether two lists of keys are the same.
pub(crate) fn are_same(keys: &[Key], others: &[Key]) -> bool
    ensures { IsTrue result ↔ keys.now ≡ others.now }
{
    keys.len() == others.len() && have_same(keys, others)
}
