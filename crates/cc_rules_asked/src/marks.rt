//! Marks and sets of levels of facts.

ghost use Rattle.std.specs.Prelude.{◌≡◌, ◌≤◌};
ghost use Rattle.cc_rules.specs.CcStateFacts.Facts.{mark_of, levels_of};
ghost use Rattle.cc_rules.specs.CcStateFacts.Levels.{only_level as only_level_of};

use cc_program::num::at;

/// A mark of a function or a key.
pub fn mark(marks: &[bool], n: usize) -> bool
    ensures { result ≡ mark_of marks.now n }
{
    match at(marks, n) {
        Some(mark) => *mark,
        None => false,
    }
}

/// A set of levels of a function or a key.
pub fn levels(sets: &[u8], n: usize) -> u8
    ensures { result ≡ levels_of sets.now n }
{
    match at(sets, n) {
        Some(levels) => *levels,
        None => 0,
    }
}

/// The set of one level.
pub fn only_level(level: u8) -> u8
    requires { level ≤ 7 }
    ensures { result ≡ only_level_of level }
{
    match level {
        0 => 1,
        1 => 2,
        2 => 4,
        3 => 8,
        4 => 16,
        5 => 32,
        6 => 64,
        _ => 128,
    }
}
