//! Where an activation goes on. What is answered keeps a copy of the levels around, so the ones that are given stay as
//! they are; the one error is want of memory.

ghost use Rattle.std.specs.Prelude.{◌≡◌, [], IfOk};
ghost use Rattle.cc_control.specs.Control.{close as close_of, behind as behind_of, broken as broken_of, continued as continued_of, arm as arm_of, level};
ghost use Rattle.cc_control.specs.View.{left_of, level_of, levels_of, control_of};

use crate::begin::begin;
use crate::level::{
    Control, Left, Level, behind_first, copied, innermost, is_in_breakable, is_in_loop, settled,
};
use crate::phase::Phase;
use crate::statements::counted;
use cc_program::Stmt;
use cc_program::num::{List, NoMemory};
use std::alloc::Global;

/// Nothing is left.
#[tactic(auto, using(crate::proofs::LevelLemmas::of_levels))]
fn ended<'p>(alloc: Global, position: u32) -> Control<'p>
    ensures { control_of result ≡ (level [] position Phase.First, []) }
{
    Control {
        here: Level {
            left: Left {
                list: &[],
                cases: &[],
            },
            position,
            phase: Phase::First,
        },
        around: Vec::new(alloc),
    }
}

/// Stands at a level, with these around it.
fn back_to<'p>(alloc: Global, at: &Level<'p>, around: &[Level<'p>]) -> Result<Control<'p>, NoMemory>
    ensures { IfOk result (λ c. control_of c ≡ (level_of at.now, levels_of around.now)) }
{
    Ok(Control {
        here: *at,
        around: copied(alloc, around)?,
    })
}

/// Goes on with what is left of a list, whose first statement has this position, inside these levels, the body's first.
/// A list that is done gives way to what is behind it in the list around, and the body of a loop to the expression that
/// comes behind it (C99 6.8, 6.8.5). Where all are done, nothing is left at the level that is answered.
pub fn close<'p>(
    alloc: Global,
    left: Left<'p>,
    position: u32,
    around: &[Level<'p>],
) -> Result<Control<'p>, NoMemory>
    ensures { IfOk result (λ c. control_of c ≡ close_of (left_of left.entry) position (levels_of around.now)) }
{
    let next = settled(left.list, left.cases);
    if !next.list.is_empty() {
        return begin(alloc, next, position, around);
    }
    match innermost(around) {
        None => Ok(ended(alloc, position)),
        Some((at, outer)) => {
            if is_in_loop(at.left) {
                return back_to(alloc, at, outer);
            }
            close(
                alloc,
                behind_first(at.left),
                at.position.saturating_add(1),
                outer,
            )
        }
    }
}

/// Goes on behind the first statement of a level, with these around it (C99 6.8). The position counts up to `u32::MAX`.
pub fn behind<'p>(
    alloc: Global,
    at: Level<'p>,
    around: &[Level<'p>],
) -> Result<Control<'p>, NoMemory>
    ensures { IfOk result (λ c. control_of c ≡ behind_of (level_of at.entry) (levels_of around.now)) }
{
    close(
        alloc,
        behind_first(at.left),
        at.position.saturating_add(1),
        around,
    )
}

/// Goes on behind the innermost loop or `switch` of these levels, as `break` does (C99 6.8.6.3); where there is none,
/// nothing is left.
pub fn broken<'p>(alloc: Global, around: &[Level<'p>]) -> Result<Control<'p>, NoMemory>
    ensures { IfOk result (λ c. control_of c ≡ broken_of (levels_of around.now)) }
{
    match innermost(around) {
        None => Ok(ended(alloc, 0)),
        Some((at, outer)) => {
            if is_in_breakable(at.left) {
                return behind(alloc, *at, outer);
            }
            broken(alloc, outer)
        }
    }
}

/// Stands at the innermost loop of these levels, at the expression that comes behind its body, as `continue` does (C99
/// 6.8.6.2); where there is none, nothing is left.
pub fn continued<'p>(alloc: Global, around: &[Level<'p>]) -> Result<Control<'p>, NoMemory>
    ensures { IfOk result (λ c. control_of c ≡ continued_of (levels_of around.now)) }
{
    match innermost(around) {
        None => Ok(ended(alloc, 0)),
        Some((at, outer)) => {
            if is_in_loop(at.left) {
                return back_to(alloc, at, outer);
            }
            continued(alloc, outer)
        }
    }
}

/// Goes on with the first or the second arm of an `if`, inside these levels, of which the innermost is that of the `if`
/// (C99 6.8.4.1). Positions in the second arm count on from those in the first, up to `u32::MAX`.
pub fn arm<'p>(
    alloc: Global,
    is_first: bool,
    these: &'p List<Stmt>,
    those: &'p List<Stmt>,
    around: &[Level<'p>],
) -> Result<Control<'p>, NoMemory>
    ensures { IfOk result (λ c. control_of c ≡ arm_of is_first these.now those.now (levels_of around.now)) }
{
    let (list, position) = if is_first {
        (these.all(), 0)
    } else {
        (those.all(), counted(these.all().len()))
    };
    close(alloc, Left { list, cases: &[] }, position, around)
}
