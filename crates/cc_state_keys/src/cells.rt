//! The key of a cell, by the path that leads to it.

ghost use Rattle.std.specs.Prelude.{◌≡◌, option_map, option_and_then};
ghost use Rattle.cc_state_facts.specs.declared.facts.Key.TheVariants as key;
ghost use Rattle.cc_state_keys.specs.Keys.{root_key as root_key_of, structure_of as structure_in, key_of_step as key_of_step_of, key_along as key_along_of, cell_key as cell_key_of};
ghost use Rattle.cc_eval.specs.CcTyped.View.{place_view};

use cc_eval::object_type;
use cc_eval::typed::{PlaceType, step_into};
use cc_program::{Part, Program, Root, Shape, Structure};
use cc_state_facts::Key;

fn root_key(object: Root) -> Key
    ensures { result ≡ root_key_of object }
{
    match object {
        Root::Static(i) => Key::Object(i),
        Root::Auto {
            activation: _,
            func,
            local,
        } => Key::Local(func, local),
    }
}

/// The structure that a place is of.
fn structure_of(a: PlaceType) -> Option<u32>
    ensures { result ≡ structure_in (place_view a.entry) }
{
    match a {
        PlaceType::Object(_, _, t) => match &t.shape {
            Shape::Struct(s) => Some(*s),
            _ => None,
        },
        PlaceType::Device(_, _) => None,
        PlaceType::Function(_) => None,
    }
}

/// The key of a member of the structure that a place is of.
pub fn member_key(a: Option<PlaceType>, m: u32) -> Option<Key>
    ensures { result ≡ option_map (λ s. key.Member s m) (option_and_then structure_in (option_map place_view a.entry)) }
{
    match structure_of(a?) {
        None => None,
        Some(s) => Some(Key::Member(s, m)),
    }
}

/// The key behind a step from a place, where the key so far is this.
fn key_of_step(step: Part, a: PlaceType, before: Key) -> Key
    ensures { result ≡ key_of_step_of step (place_view a.entry) before }
{
    match step {
        Part::Index(_) => before,
        Part::Member(m) => match structure_of(a) {
            None => before,
            Some(s) => Key::Member(s, m),
        },
    }
}

/// The key behind a path from a place, where the key so far is this.
fn key_along(structures: &[Structure], path: &[Part], start: PlaceType, before: Key) -> Key
    ensures { result ≡ key_along_of structures.now path.now (Some (place_view start.entry)) before }
{
    let mut left = path;
    let mut place = start;
    let mut key = before;
    while let [step, rest @ ..] = left {
        key = key_of_step(*step, place, key);
        match step_into(structures, *step, place) {
            None => return key,
            Some(next) => place = next,
        }
        left = rest;
    }
    key
}

/// The key of the cell to which a path leads in an object: that of the last member on the path, or else of the object.
pub fn cell_key(p: &Program, object: Root, path: &[Part]) -> Key
    ensures { result ≡ cell_key_of p.now object path.now }
{
    let key = root_key(object);
    match object_type(p, object) {
        None => key,
        Some(start) => key_along(p.structures.all(), path, start, key),
    }
}
