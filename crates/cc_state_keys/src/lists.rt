//! Lists that grow, and marks.

ghost use Rattle.std.specs.Prelude.{◌≡◌, ◌++◌, slice_get, OnOk};
ghost use Rattle.cc_registers.specs.Kept.{if_kept};
ghost use Rattle.cc_state_keys.specs.Lists.{only, only_if};

use cc_program::num::{NoMemory, at};
use cc_state_facts::Key;

/// Puts something behind others, where it passes.
pub fn put_if<T: Copy>(items: &mut Vec<T>, passes: bool, item: T) -> Result<(), NoMemory>
    ensures { OnOk result (items.new.items ≡ items.old.items ++ only_if passes item) }
{
    if passes {
        items.push(item)?;
    }
    Ok(())
}

/// Puts a key behind others, where there is one.
pub fn put_some(keys: &mut Vec<Key>, key: Option<Key>) -> Result<(), NoMemory>
    ensures { OnOk result (keys.new.items ≡ keys.old.items ++ only key) }
{
    match key {
        None => Ok(()),
        Some(key) => Ok(keys.push(key)?),
    }
}

/// Whether the mark of a number is set, where it has one.
pub fn is_marked(marks: &[bool], number: usize) -> bool
    ensures { result ≡ if_kept (slice_get marks.now number) }
{
    match at(marks, number) {
        None => false,
        Some(is) => *is,
    }
}
