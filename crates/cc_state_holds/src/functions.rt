//! From where the function of an activation was reached, and at which level it runs.

ghost use Rattle.std.specs.Prelude.{◌≡◌, ◌↔◌, Some, max, IsTrue, if◌then◌else◌};
ghost use Rattle.std.specs.Option.{option_copied};
ghost use Rattle.std.specs.Str.{bytes_eq};
ghost use Rattle.cc_proof_covers.specs.Covers.{innermost as innermost_of};
ghost use Rattle.cc_state.specs.View.{IsLevelIn};
ghost use Rattle.cc_state_reads.specs.CcStateFacts.Facts.{mark_of as mark_in, levels_of as levels_in};
ghost use Rattle.cc_state_reads.specs.CcStateFacts.Levels.{has_level as has_level_of};
ghost use Rattle.cc_state_holds.specs.Parts.{IsReachedFrom, MayRunAt};
ghost use Rattle.cc_steps.specs.Turn.{named_level as named_level_of, level_in as level_in_of, level_of as level_of_func, running_level as running_level_of};
ghost use Rattle.cc_steps.specs.View.{actives_of};

use cc_meaning::Activation;
use cc_program::num::{Name, at};
use cc_program::{Func, Program};
use cc_state_reads::state_facts::{Facts, has_level};

fn same(name: &[u8], other: &[u8]) -> bool
    ensures { result ≡ bytes_eq name.now other.now }
{
    name == other
}

/// The level that the roles give to a name, else 0.
fn named_level(levels: &[(Name, u8)], name: &Name) -> u8
    ensures { result ≡ named_level_of levels.now name.now }
{
    match levels {
        [] => 0,
        [level, others @ ..] => {
            if same(name.all(), level.0.all()) {
                level.1
            } else {
                named_level(others, name)
            }
        }
    }
}

fn level_in(p: &Program, f: Option<&Func>) -> u8
    ensures { result ≡ level_in_of p.now (option_copied f.entry) }
{
    match f {
        None => 0,
        Some(f) => named_level(p.roles.levels.all(), &f.name),
    }
}

/// The level of a function.
fn level_of(p: &Program, func: u32) -> u8
    ensures { result ≡ level_of_func p.now func }
{
    level_in(p, at(p.funcs.all(), func as usize))
}

fn greater(a: u8, b: u8) -> u8
    ensures { result ≡ max a b }
{
    if a < b { b } else { a }
}

/// The greatest level of some handlers, and of one more activation.
fn level_over(p: &Program, a: &Activation, level: u8) -> u8
    ensures { result ≡ (if a.now.handler then max (level_of_func p.now a.now.func) level else level) }
{
    if a.handler {
        greater(level_of(p, a.func), level)
    } else {
        level
    }
}

/// The greatest level of the handlers that have not returned; 0 where there is none.
#[tactic(auto, using(crate::proofs::Stacks::of_levels))]
pub fn running_level(p: &Program, stack: &[Activation]) -> u8
    ensures { result ≡ running_level_of p.now (actives_of stack.now) }
{
    let mut level = 0;
    for a in stack {
        level = level_over(p, a, level);
    }
    level
}

/// The level of the innermost handler, once there is one more activation.
fn innermost_over(p: &Program, a: &Activation, level: Option<u8>) -> Option<u8>
    ensures { result ≡ (if a.now.handler then Some (level_of_func p.now a.now.func) else level) }
{
    if a.handler {
        Some(level_of(p, a.func))
    } else {
        level
    }
}

/// The level of the innermost handler that has not returned, where there is one.
#[tactic(auto, using(crate::proofs::Stacks::of_innermost))]
pub fn innermost(p: &Program, stack: &[Activation]) -> Option<u8>
    ensures { result ≡ innermost_of p.now (actives_of stack.now) }
{
    let mut level = None;
    for a in stack {
        level = innermost_over(p, a, level);
    }
    level
}

fn mark_of(marks: &[bool], n: u32) -> bool
    ensures { result ≡ mark_in marks.now n }
{
    match at(marks, n as usize) {
        None => false,
        Some(mark) => *mark,
    }
}

fn levels_of(sets: &[u8], n: u32) -> u8
    ensures { result ≡ levels_in sets.now n }
{
    match at(sets, n as usize) {
        None => 0,
        Some(levels) => *levels,
    }
}

/// Whether a set has a level, which is in none beyond 7.
#[tactic(auto, using(crate::proofs::Stacks::no_high_level))]
fn is_among(set: u8, level: u8) -> bool
    ensures { result ≡ has_level_of set level }
{
    if level > 7 {
        return false;
    }
    has_level(set, level)
}

/// Whether a level from 0 to 7 is in a set.
fn is_level_in(set: u8, level: u8) -> bool
    ensures { IsTrue result ↔ IsLevelIn set level }
{
    level < 8 && is_among(set, level)
}

/// Whether main reaches a function, or the innermost handler, of this level, does.
pub fn is_reached_from<I>(facts: &Facts<I>, level: Option<u8>, func: u32) -> bool
    ensures { IsTrue result ↔ IsReachedFrom facts.now level func }
{
    match level {
        None => mark_of(facts.by_main.all(), func),
        Some(level) => {
            mark_of(facts.by_handler.all(), func)
                && is_level_in(levels_of(facts.from.all(), func), level)
        }
    }
}

/// Whether a function may run at a level.
pub fn may_run_at<I>(facts: &Facts<I>, func: u32, level: u8) -> bool
    ensures { IsTrue result ↔ MayRunAt facts.now func level }
{
    is_among(levels_of(facts.levels.all(), func), level)
}
