//! How many elements the array of a key has.

ghost use Rattle.std.specs.Prelude.{◌≡◌};
ghost use Rattle.std.specs.Option.{option_copied};
ghost use Rattle.cc_slots_accesses.specs.Arrays.{array_length as array_length_of, length_of as length_of_type};
ghost use Rattle.cc_state.specs.Shape.{ctype_of as ctype_of_key};

use cc_program::num::at;
use cc_program::{CType, Program, Shape};
use cc_rules_flows::state_facts::Key;

/// The declared type of a key.
pub fn ctype_of(p: &Program, key: Key) -> Option<&CType>
    ensures { option_copied result ≡ ctype_of_key p.now key }
{
    match key {
        Key::Object(i) => match at(p.objects.all(), i as usize) {
            None => None,
            Some(object) => Some(&object.ctype),
        },
        Key::Local(f, r) => match at(p.funcs.all(), f as usize) {
            None => None,
            Some(func) => match at(func.locals.all(), r as usize) {
                None => None,
                Some(local) => Some(&local.1),
            },
        },
        Key::Member(s, m) => match at(p.structures.all(), s as usize) {
            None => None,
            Some(structure) => match at(structure.members.all(), m as usize) {
                None => None,
                Some(member) => Some(&member.1),
            },
        },
    }
}

/// How many elements an array has.
pub fn length_of(t: &CType) -> Option<u32>
    ensures { result ≡ length_of_type t.now }
{
    match &t.shape {
        Shape::Array(_, n) => Some(*n),
        Shape::Void | Shape::Int(_) | Shape::Pointer(_) | Shape::Struct(_) | Shape::Func(_) => None,
    }
}

/// How many elements the array of a key has, where it is one.
pub fn array_length(p: &Program, key: Key) -> Option<u32>
    ensures { result ≡ array_length_of p.now key }
{
    length_of(ctype_of(p, key)?)
}
