//! Where a statement begins.

ghost use Rattle.std.specs.Prelude.{◌≡◌, ◌<◌, length, IfOk};
ghost use Rattle.cc_control.specs.Control.{close as close_of};
ghost use Rattle.cc_control.specs.View.{left_of, levels_of, control_of};

use crate::level::{Control, Left, Level, copied};
use crate::phase::Phase;
use crate::statements::{behind_body, first_phase, opening};
use cc_program::num::NoMemory;
use std::alloc::Global;

/// Begins the first statement of a list, which has this position there, inside these levels, the body's first. A block
/// and a `do` that are not empty are entered without a step (C99 6.8.2, 6.8.5.2). The one error is want of memory.
pub fn begin<'p>(
    alloc: Global,
    left: Left<'p>,
    position: u32,
    around: &[Level<'p>],
) -> Result<Control<'p>, NoMemory>
    requires { 0 < length left.list.now }
    ensures { IfOk result (λ c. control_of c ≡ close_of (left_of left.entry) position (levels_of around.now)) }
{
    let mut levels = copied(alloc, around)?;
    let mut inside = left;
    let mut at = position;
    while let [s, ..] = inside.list {
        let inner = opening(s);
        if inner.is_empty() {
            let here = Level {
                left: inside,
                position: at,
                phase: first_phase(s),
            };
            return Ok(Control {
                here,
                around: levels,
            });
        }
        levels.push(Level {
            left: inside,
            position: at,
            phase: behind_body(s),
        })?;
        inside = Left {
            list: inner,
            cases: &[],
        };
        at = 0;
    }
    Ok(Control {
        here: Level {
            left: inside,
            position: at,
            phase: Phase::First,
        },
        around: levels,
    })
}
