//! The registers of each function.

ghost use Rattle.std.specs.Prelude.{◌≡◌, ◌<◌, ◌^◌, length, IfOk};
ghost use Rattle.cc_slots_points.specs.Frames.{AreFrames, HaveFewLocals, IsFrame};

use cc_program::Func;
use cc_program::num::{List, NoMemory};
use cc_state_points::registers::registers_of;
use cc_state_points::state_keys::registers;
use std::alloc::Global;

/// Which locals of a function are registers.
#[derive(Drop)]
pub(crate) struct Frame {
    /// Of each local, whether it is one.
    pub(crate) kept: List<bool>,
    /// Those that are, ascending.
    pub(crate) registers: List<u32>,
}

fn frame_of(alloc: Global, f: &Func) -> Result<Frame, NoMemory>
    requires { length f.now.locals < 2 ^ 32 }
    ensures { IfOk result (IsFrame f.now) }
{
    let kept = registers_of(alloc, f)?;
    let registers = registers(alloc, f)?;
    Ok(Frame {
        kept: List::of(kept),
        registers: List::of(registers),
    })
}

/// The registers of each function, by its id.
pub(crate) fn frames(alloc: Global, funcs: &[Func]) -> Result<Vec<Frame>, NoMemory>
    requires { HaveFewLocals funcs.now }
    ensures { IfOk result (λ frames. AreFrames funcs.now frames.items) }
{
    let mut frames = Vec::new(alloc);
    for f in funcs {
        let frame = frame_of(alloc, f)?;
        frames.push(frame)?;
    }
    Ok(frames)
}
