//! The numbers of the keys of tracked cells.

ghost use Rattle.std.specs.Prelude.{◌≡◌, ◌<◌, ◌^◌, map, length, IfOk};
ghost use Rattle.cc_rules_asked.specs.CcStateKeys.Keys.{keys_of, key_number as key_number_of};
ghost use Rattle.cc_rules_asked.specs.CcSyntax.Sound.{IsTypedProgram};

use cc_program::Program;
use cc_program::num::NoMemory;
use cc_rules_asked::state_facts::Key;
use cc_rules_asked::state_keys::{key_number, keys};
use std::alloc::Global;

/// The number of an object's key, where it has one.
fn key_of(p: &Program, keys: &[Key], object: u32) -> Option<u32>
    requires keys { keys.now ≡ keys_of p.now }
    requires few { length keys.now < 2 ^ 32 }
    ensures { result ≡ key_number_of p.now (Key.Object object) }
{
    match key_number(keys, Key::Object(object)) {
        None => None,
        Some(number) => Some(number as u32),
    }
}

/// The numbers of the keys of some objects, by the keys of the program.
fn numbers_of(
    alloc: Global,
    p: &Program,
    keys: &[Key],
    objects: &[u32],
) -> Result<Vec<Option<u32>>, NoMemory>
    requires keys { keys.now ≡ keys_of p.now }
    requires few { length keys.now < 2 ^ 32 }
    ensures { IfOk result (λ numbers. numbers.items ≡ map (λ i. key_number_of p.now (Key.Object i)) objects.now) }
{
    let mut numbers = Vec::new(alloc);
    for object in objects {
        numbers.push(key_of(p, keys, *object))?;
    }
    Ok(numbers)
}

/// The numbers of the keys of some objects.
pub(crate) fn keys_of_cells(
    alloc: Global,
    p: &Program,
    objects: &[u32],
) -> Result<Vec<Option<u32>>, NoMemory>
    requires typed { IsTypedProgram p.now }
    requires few { length (keys_of p.now) < 2 ^ 32 }
    ensures { IfOk result (λ numbers. numbers.items ≡ map (λ i. key_number_of p.now (Key.Object i)) objects.now) }
{
    let keys = keys(alloc, p)?;
    numbers_of(alloc, p, &keys, objects)
}
