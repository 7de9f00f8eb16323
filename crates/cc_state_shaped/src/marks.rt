//! How many marks and sets of levels facts have, and whether what is marked alone has levels.

ghost use Rattle.std.specs.Prelude.{◌≡◌, ◌↔◌, IsTrue};
ghost use Rattle.cc_state_reads.specs.CcStateFacts.Facts.{mark_of as mark_of_list};
ghost use Rattle.cc_state_shaped.specs.Parts.{AreByFunction, AreByKey, IsMarkedAt, AreMarked, HaveMarks};

use cc_program::num::at;
use cc_state_reads::state_facts::Facts;

/// Whether there is so much of all that facts have by function.
pub(crate) fn are_by_function<I>(facts: &Facts<I>, count: usize) -> bool
    ensures { IsTrue result ↔ AreByFunction facts.now count }
{
    facts.by_main.all().len() == count
        && facts.by_handler.all().len() == count
        && facts.levels.all().len() == count
        && facts.from.all().len() == count
}

/// Whether there is so much of all that facts have by key.
pub(crate) fn are_by_key<I>(facts: &Facts<I>, count: usize) -> bool
    ensures { IsTrue result ↔ AreByKey facts.now count }
{
    facts.handler_reads.all().len() == count
        && facts.handler_writes.all().len() == count
        && facts.read_levels.all().len() == count
        && facts.write_levels.all().len() == count
}

/// A mark, which is not set where there is none.
fn mark_of(marks: &[bool], number: usize) -> bool
    ensures { result ≡ mark_of_list marks.now number }
{
    match at(marks, number) {
        None => false,
        Some(is) => *is,
    }
}

/// Whether a set of levels is empty, or one of two marks is set.
fn is_marked(first: &[bool], second: &[bool], number: usize, set: u8) -> bool
    ensures { IsTrue result ↔ IsMarkedAt first.now second.now number set }
{
    set == 0 || mark_of(first, number) || mark_of(second, number)
}

/// Whether each set of levels is.
fn are_marked(first: &[bool], second: &[bool], levels: &[u8]) -> bool
    ensures { IsTrue result ↔ AreMarked first.now second.now levels.now }
{
    for (number, set) in levels.iter().enumerate() {
        if !is_marked(first, second, number, *set) {
            return false;
        }
    }
    true
}

/// Whether what is marked alone has levels: functions that are reached, and keys that handlers access.
pub(crate) fn have_marks<I>(facts: &Facts<I>) -> bool
    ensures { IsTrue result ↔ HaveMarks facts.now }
{
    let (by_main, by_handler) = (facts.by_main.all(), facts.by_handler.all());
    let (reads, writes) = (facts.handler_reads.all(), facts.handler_writes.all());
    are_marked(by_main, by_handler, facts.levels.all())
        && are_marked(by_main, by_handler, facts.from.all())
        && are_marked(reads, writes, facts.read_levels.all())
        && are_marked(reads, writes, facts.write_levels.all())
}
