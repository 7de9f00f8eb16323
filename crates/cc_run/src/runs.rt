//! Runs of a program.

ghost use Rattle.std.specs.Prelude.{◌≡◌, ◌↔◌, IsTrue, ◌+◌, ◌<◌, ◌-◌, ◌^◌, true, IfOk, OnOk};
ghost use Rattle.cc_states.specs.CcSyntax.Sound.{IsSound};
ghost use Rattle.cc_states.specs.CcSteps.Runs.{run};
ghost use Rattle.cc_states.specs.CcSteps.declared.event.Took.TheVariants.{Ended};
ghost use Rattle.cc_meaning.specs.View.{state_of};
ghost use Rattle.cc_run.specs.Driven.{turns_ascend, first_of, left_behind as left_behind_of, arrivals_for, driven};
ghost use Rattle.cc_run.specs.Trace.{trace_text as text_of_trace};

use crate::trace::trace_text;
use cc_meaning::{Machine, Took, start};
use cc_program::Program;
use cc_program::num::NoMemory;
use std::alloc::Global;

/// Who arrives at a turn, of arrivals that come no earlier.
fn arriving(left: &[(u32, u32)], turn: u32) -> Option<u32>
    ensures { result ≡ first_of left.now turn }
{
    match left {
        [] => None,
        [(due, handler), ..] => { if *due == turn { Some(*handler) } else { None } }
    }
}

/// The arrivals behind a turn, of those that come no earlier.
fn left_behind(left: &[(u32, u32)], turn: u32) -> &[(u32, u32)]
    ensures { result.now ≡ left_behind_of left.now turn }
{
    match left {
        [] => left,
        [(due, _), later @ ..] => { if *due == turn { later } else { left } }
    }
}

fn has_ended(took: Took) -> bool
    ensures { IsTrue result ↔ (took ≡ Ended) }
{
    matches!(took, Took::Ended)
}

/// Makes so many turns. Once the run has ended, turns change nothing.
#[tactic(auto, using(crate::proofs::DriveLemmas::of_turns))]
fn make_turns<'p>(
    alloc: Global,
    machine: &mut Machine<'p>,
    arrivals: &[(u32, u32)],
    turns: u32,
) -> Result<(), NoMemory>
    requires sound { IsSound machine.old.program.now }
    requires few { (state_of machine.old).opened + turns < 2 ^ 64 - 1 }
    requires ascend { turns_ascend 0 arrivals.now ≡ true }
    ensures program { machine.new.program ≡ machine.old.program }
    ensures state { OnOk result (state_of machine.new ≡ run machine.old.program.now (state_of machine.old) (arrivals_for arrivals.now 1 turns)) }
{
    let mut left = arrivals;
    for made in 0..turns {
        let arrival = arriving(left, made + 1);
        left = left_behind(left, made + 1);
        if has_ended(machine.step(alloc, arrival)?) {
            return Ok(());
        }
    }
    Ok(())
}

/// The text of the trace of a program after so many turns, with the end of the run. Arrivals are pairs of a turn,
/// counted from 1, and a handler's id; at any other turn, and at one where the handler may not enter, the program makes
/// a step.
pub fn drive(
    alloc: Global,
    p: &Program,
    inputs: Vec<i128>,
    arrivals: &[(u32, u32)],
    turns: u32,
) -> Result<Vec<u8>, NoMemory>
    requires sound { IsSound p.now }
    requires ascend { turns_ascend 0 arrivals.now ≡ true }
    ensures { IfOk result (λ text. text.items ≡ text_of_trace p.now (driven p.now inputs.items arrivals.now turns)) }
{
    let mut machine = start(alloc, p, inputs)?;
    make_turns(alloc, &mut machine, arrivals, turns)?;
    trace_text(alloc, p, machine.trace(), machine.end())
}
