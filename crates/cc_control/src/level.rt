//! Levels of nesting.

ghost use Rattle.std.specs.Prelude.{◌≡◌, ◌<◌, ◌++◌, ◌∷◌, [], true, length, IfOk, IfSome, MatchOption};
ghost use Rattle.std.specs.Option.{option_copied};
ghost use Rattle.cc_control.specs.Control.{around_list as around_list_of, first_is, is_loop as is_loop_of, is_left_by_break as is_left_by_break_of, coming as coming_of, behind_first as behind_first_of, bodies};
ghost use Rattle.cc_control.specs.View.{left_of, level_of, levels_of, is_settled, first_of};

use crate::phase::Phase;
use crate::statements::{behind_body, is_left_by_break, is_loop};
use cc_program::num::NoMemory;
use cc_program::{Case, Stmt};
use std::alloc::Global;

/// What is left of a list of statements: some of them, and behind them all that stand in these cases of a `switch`, one
/// after the other, since each falls through into the next (C99 6.8.4.2).
#[derive(Clone, Copy)]
pub struct Left<'p> {
    pub list: &'p [Stmt],
    pub cases: &'p [Case],
}

/// A level of nesting (C99 6.8): what is left of a list of statements, the position of the first one in the whole list, up
/// to `u32::MAX`, and which full expression of that statement is worked, or of a level around another comes next. The
/// first statement of a level around another is the one that contains that other.
#[derive(Clone, Copy)]
pub struct Level<'p> {
    pub left: Left<'p>,
    pub position: u32,
    pub phase: Phase,
}

/// Where an activation stands: the innermost level, and those around it, the body's first. Where nothing is left of the
/// innermost one, the function is done.
#[derive(Drop)]
pub struct Control<'p> {
    pub here: Level<'p>,
    pub around: Vec<Level<'p>>,
}

/// The same statements; the first of them, where there is one, is the first of the list.
pub fn settled<'p>(list: &'p [Stmt], cases: &'p [Case]) -> Left<'p>
    ensures same { left_of result ≡ list.now ++ bodies cases.now }
    ensures first { is_settled result ≡ true }
{
    let mut left = Left { list, cases };
    while left.list.is_empty() {
        let Some((case, cases)) = left.cases.split_first() else {
            return left;
        };
        left = Left {
            list: case.body.all(),
            cases,
        };
    }
    left
}

/// What is left behind the first statement.
pub fn behind_first<'p>(left: Left<'p>) -> Left<'p>
    ensures { left_of result ≡ behind_first_of (left_of left.entry) }
{
    let left = settled(left.list, left.cases);
    match left.list {
        [] => left,
        [_, list @ ..] => Left {
            list,
            cases: left.cases,
        },
    }
}

/// The first statement that is left, where there is one.
pub fn first<'p>(left: Left<'p>) -> Option<&'p Stmt>
    ensures { option_copied result ≡ first_of (left_of left.entry) }
{
    match settled(left.list, left.cases).list {
        [] => None,
        [s, ..] => Some(s),
    }
}

/// Whether the first statement is a loop.
pub fn is_in_loop(left: Left) -> bool
    ensures { result ≡ first_is is_loop_of (left_of left.entry) }
{
    match first(left) {
        None => false,
        Some(s) => is_loop(s),
    }
}

/// Whether the first statement is what `break` leaves.
pub fn is_in_breakable(left: Left) -> bool
    ensures { result ≡ first_is is_left_by_break_of (left_of left.entry) }
{
    match first(left) {
        None => false,
        Some(s) => is_left_by_break(s),
    }
}

/// The same level, as one around a list inside its first statement: what comes next is what comes once that list is done.
pub fn around_list<'p>(at: Level<'p>) -> Level<'p>
    ensures { level_of result ≡ around_list_of (level_of at.entry) }
{
    Level {
        left: at.left,
        position: at.position,
        phase: match first(at.left) {
            None => Phase::First,
            Some(s) => behind_body(s),
        },
    }
}

/// The innermost level, and those around it.
pub fn innermost<'l, 'p>(levels: &'l [Level<'p>]) -> Option<(&'l Level<'p>, &'l [Level<'p>])>
    ensures parts { MatchOption result (levels_of levels.now ≡ []) (λ p. levels_of levels.now ≡ level_of p.0.now ∷ levels_of p.1.now) }
    ensures fewer { IfSome result (λ p. length p.1.now < length levels.now) }
{
    levels.split_last()
}

/// A copy of levels.
pub fn copied<'p>(alloc: Global, levels: &[Level<'p>]) -> Result<Vec<Level<'p>>, NoMemory>
    ensures { IfOk result (λ v. levels_of v.items ≡ levels_of levels.now) }
{
    Ok(Vec::from_slice(alloc, levels)?)
}
