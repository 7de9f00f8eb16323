//! Marks and sets of levels in order, one by one.

ghost use Rattle.std.specs.Prelude.{◌≡◌, ◌↔◌, IsTrue, IfOk, length, bit_or};
ghost use Rattle.cc_lattice.specs.Tables.{AreJoins};
ghost use Rattle.cc_state_facts.specs.Orders.{IsMarkBelow, AreMarksBelow, AreLevelSetsBelow, IsMarkJoin, IsLevelJoin};
ghost use Rattle.cc_state_facts.specs.Levels.{AreLevelsWithin};

use cc_program::num::NoMemory;
use std::alloc::Global;

fn is_mark_below(mark: bool, other: bool) -> bool
    ensures { IsTrue result ↔ IsMarkBelow mark other }
{
    !mark || other
}

/// Whether each mark that is set is set at its place among the others.
pub(crate) fn are_marks_below(marks: &[bool], others: &[bool]) -> bool
    requires { length marks.now ≡ length others.now }
    ensures { IsTrue result ↔ AreMarksBelow marks.now others.now }
{
    for (at, mark) in marks.iter().enumerate() {
        if !is_mark_below(*mark, others[at]) {
            return false;
        }
    }
    true
}

fn mark_of_both(mark: bool, other: bool) -> bool
    ensures { IsMarkJoin mark other result }
{
    mark || other
}

/// The marks that are set in one of two lists.
pub(crate) fn mark_joins(
    alloc: Global,
    marks: &[bool],
    others: &[bool],
) -> Result<Vec<bool>, NoMemory>
    requires { length marks.now ≡ length others.now }
    ensures { IfOk result (λ both. AreJoins IsMarkJoin marks.now others.now both.items) }
{
    let mut both = Vec::new(alloc);
    for (at, mark) in marks.iter().enumerate() {
        both.push(mark_of_both(*mark, others[at]))?;
    }
    Ok(both)
}

/// Whether each level of a set is in another one.
pub fn are_levels_within(levels: u8, others: u8) -> bool
    ensures { IsTrue result ↔ AreLevelsWithin levels others }
{
    levels | others == others
}

/// The levels of both sets.
pub fn levels_of_both(levels: u8, others: u8) -> u8
    ensures { result ≡ bit_or levels others }
{
    levels | others
}

/// Whether each set of levels is in the other one at its place.
pub(crate) fn are_levels_below(sets: &[u8], others: &[u8]) -> bool
    requires { length sets.now ≡ length others.now }
    ensures { IsTrue result ↔ AreLevelSetsBelow sets.now others.now }
{
    for (at, levels) in sets.iter().enumerate() {
        if !are_levels_within(*levels, others[at]) {
            return false;
        }
    }
    true
}

/// The levels of each two sets.
pub(crate) fn level_joins(alloc: Global, sets: &[u8], others: &[u8]) -> Result<Vec<u8>, NoMemory>
    requires { length sets.now ≡ length others.now }
    ensures { IfOk result (λ both. AreJoins IsLevelJoin sets.now others.now both.items) }
{
    let mut both = Vec::new(alloc);
    for (at, levels) in sets.iter().enumerate() {
        both.push(levels_of_both(*levels, others[at]))?;
    }
    Ok(both)
}
