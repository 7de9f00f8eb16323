//! Which keys of a program have their addresses taken.

ghost use Rattle.std.specs.Prelude.{◌≡◌, ℕ, [], true, false, Some, None, length, replicate, slice_set, IfOk};
ghost use Rattle.cc_slots.specs.Marks.{AreMarks};
ghost use Rattle.cc_state_points.specs.CcStateFacts.Facts.{mark_of as mark_of_number};
ghost use Rattle.cc_state_points.specs.CcStateKeys.Addressed.{taken_keys as taken_keys_of};
ghost use Rattle.cc_state_points.specs.CcStateKeys.Keys.{key_number as key_number_of, keys_of};
ghost use Rattle.cc_state_points.specs.CcSyntax.Sound.{IsTypedProgram};

use cc_program::Program;
use cc_program::num::{NoMemory, at};
use cc_state_points::state_facts::Key;
use cc_state_points::state_keys::{key_number, taken_keys};
use std::alloc::Global;

/// The mark of a key, by its number.
pub(crate) fn mark_of(marks: &[bool], number: usize) -> bool
    ensures { result ≡ mark_of_number marks.now number }
{
    match at(marks, number) {
        None => false,
        Some(mark) => *mark,
    }
}

/// Marks a key, where the program has it.
fn mark(p: &Program, keys: &[Key], key: Key, marks: &mut [bool])
    requires keys { keys.now ≡ keys_of p.now }
    requires marks { length marks.old ≡ length keys.now }
    ensures lacking { key_number_of p.now key ≡ None → marks.new ≡ marks.old }
    ensures set { (n : ℕ) → key_number_of p.now key ≡ Some n → marks.new ≡ slice_set marks.old n true }
{
    match key_number(keys, key) {
        None => {}
        Some(number) => marks[number] = true,
    }
}

/// Marks each of some keys, where the program has it.
fn mark_all(p: &Program, keys: &[Key], named: &[Key], marks: &mut [bool])
    requires keys { keys.now ≡ keys_of p.now }
    requires none { AreMarks p.now [] marks.old }
    ensures { AreMarks p.now named.now marks.new }
{
    for key in named {
        mark(p, keys, *key, marks);
    }
}

/// As many marks, none of which is set.
fn unmarked(alloc: Global, count: usize) -> Result<Vec<bool>, NoMemory>
    ensures { IfOk result (λ marks. marks.items ≡ replicate count false) }
{
    Ok(vec![in alloc; false; count]?)
}

/// Of each key of a program, by its number, whether its address is taken. The only error is want of memory.
pub(crate) fn addressed(alloc: Global, p: &Program, keys: &[Key]) -> Result<Vec<bool>, NoMemory>
    requires typed { IsTypedProgram p.now }
    requires keys { keys.now ≡ keys_of p.now }
    ensures { IfOk result (λ marks. AreMarks p.now (taken_keys_of p.now) marks.items) }
{
    let taken = taken_keys(alloc, p)?;
    let mut marks = unmarked(alloc, keys.len())?;
    mark_all(p, keys, &taken, &mut marks);
    Ok(marks)
}
