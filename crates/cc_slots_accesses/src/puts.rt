//! An access that is put behind those of the keys that it names.

ghost use Rattle.std.specs.Prelude.{◌≡◌, ℕ, Some, length, slice_set, OnOk};
ghost use Rattle.cc_slots_accesses.specs.Puts.{IsPut, of_number, put_behind};
ghost use Rattle.cc_state_keys.specs.Keys.{key_number as key_number_of, keys_of};

use crate::access::Access;
use crate::lists::put;
use cc_program::Program;
use cc_program::num::{List, NoMemory};
use cc_rules_flows::state_facts::Key;
use cc_state_keys::key_number;
use std::alloc::Global;

/// Puts an access behind those of a key, where the program has that; a list for each key of the program.
fn put_one(
    alloc: Global,
    p: &Program,
    keys: &[Key],
    lists: &mut [List<Access>],
    key: Key,
    access: Access,
) -> Result<(), NoMemory>
    requires keys { keys.now ≡ keys_of p.now }
    requires lists { length lists.old ≡ length keys.now }
    ensures lacking { OnOk result (key_number_of p.now key ≡ None → lists.new ≡ lists.old) }
    ensures put { OnOk result ((n : ℕ) → key_number_of p.now key ≡ Some n → lists.new ≡ slice_set lists.old n (put_behind (of_number lists.old n) access)) }
{
    match key_number(keys, key) {
        None => Ok(()),
        Some(number) => put(alloc, lists, number, access),
    }
}

/// Puts an access behind those of some keys, where the program has them; a list for each key of the program.
pub(crate) fn put_all(
    alloc: Global,
    p: &Program,
    keys: &[Key],
    lists: &mut [List<Access>],
    named: &[Key],
    access: Access,
) -> Result<(), NoMemory>
    requires keys { keys.now ≡ keys_of p.now }
    requires lists { length lists.old ≡ length keys.now }
    ensures { OnOk result (IsPut p.now named.now access lists.old lists.new) }
{
    for key in named {
        put_one(alloc, p, keys, lists, *key, access)?;
    }
    Ok(())
}
