//! Runs, whose states may lie in facts.

ghost use Rattle.std.specs.Prelude.{◌≡◌};
ghost use Rattle.cc_flow.specs.Points.{flow_of};
ghost use Rattle.cc_state.specs.Shape.{HaveShape};
ghost use Rattle.cc_state_operators.specs.Domains.{domain};
ghost use Rattle.cc_syntax.specs.Normal.{IsNormal};

use cases_script::{Page, split};
use cc_flow::Flow;
use cc_lattice::IntDomain;
use cc_meaning::{End, Machine, start};
use cc_program::Program;
use cc_state_facts::Facts;
use cc_state_holds::holds;
use std::alloc::Global;

/// So many inputs, all the same.
fn inputs_of(alloc: Global, input: i64, count: u32) -> Option<Vec<i128>> {
    let mut inputs = Vec::new(alloc);
    for _ in 0..count {
        inputs.push(i128::from(input)).ok()?;
    }
    Some(inputs)
}

/// The function that arrives at a turn.
fn arrival_at(arrivals: &str, turn: u32) -> Option<u32> {
    for word in arrivals.split_whitespace() {
        let (at, function) = word.split_once(',')?;
        if at.parse() == Ok(turn) {
            return function.parse().ok();
        }
    }
    None
}

/// One more turn, and whether the state behind it lies in facts.
fn next_holds<I: IntDomain>(
    alloc: Global,
    facts: &Facts<I>,
    flow: &Flow,
    m: &mut Machine<'_>,
    arrival: Option<u32>,
) -> Option<bool>
    requires normal { IsNormal m.old.program.now }
    requires flow { flow.now ≡ flow_of m.old.program.now }
    requires shape { HaveShape (domain I.Has I.IsBelow I.OpGives I.OpOneGives I.ToGives I.KeepGives I.members_of) m.old.program.now facts.now }
    ensures { m.new.program ≡ m.old.program }
{
    if m.opened() == u64::MAX {
        return None;
    }
    m.step(alloc, arrival).ok()?;
    holds(alloc, facts, flow, m).ok()
}

/// Writes after how many turns, of so many at the most, a state does not lie in facts, or that all do.
pub fn write_run<I: IntDomain>(
    alloc: Global,
    page: &mut Page,
    p: &Program,
    flow: &Flow,
    facts: &Facts<I>,
    words: &str,
) -> Option<()>
    requires normal { IsNormal p.now }
    requires flow { flow.now ≡ flow_of p.now }
    requires shape { HaveShape (domain I.Has I.IsBelow I.OpGives I.OpOneGives I.ToGives I.KeepGives I.members_of) p.now facts.now }
{
    let (most, rest) = split(words);
    let (input, arrivals) = split(rest);
    let most: u32 = most.parse().ok()?;
    let inputs = inputs_of(alloc, input.parse().ok()?, most)?;
    let mut m = start(alloc, p, inputs).ok()?;
    let mut turns: u32 = 0;
    let mut fits = holds(alloc, facts, flow, &m).ok()?;
    for turn in 1..=most {
        if !fits || m.end() != End::Going {
            break;
        }
        turns = turn;
        fits = next_holds(alloc, facts, flow, &mut m, arrival_at(arrivals, turn))?;
    }
    page.put(if fits {
        "hold to turn "
    } else {
        "fail at turn "
    });
    page.show(turns);
    Some(())
}
