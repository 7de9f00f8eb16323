//! The accesses of all points.

ghost use Rattle.std.specs.Prelude.{◌≡◌, ◌≤◌, ℕ, [], length, IfOk, OnOk};
ghost use Rattle.cc_state_points.specs.CcFlow.Points.{count_of, flow_of};
ghost use Rattle.cc_slots_accesses.specs.Puts.{of_number};
ghost use Rattle.cc_slots_points.specs.Frames.{AreFrames};
ghost use Rattle.cc_slots_points.specs.Lists.{AreLists, AreListsBelow};
ghost use Rattle.cc_state_points.specs.CcState.Shape.{HaveShape};
ghost use Rattle.cc_state_points.specs.CcStateOperators.Domains.{domain};
ghost use Rattle.cc_state_points.specs.CcSyntax.Normal.{IsNormal};

use crate::frames::{Frame, frames};
use crate::points::pass;
use cc_program::Program;
use cc_program::num::{List, NoMemory};
use cc_slots_accesses::Access;
use cc_state_points::flow::Flow;
use cc_state_points::lattice::IntDomain;
use cc_state_points::state_facts::Facts;
use std::alloc::Global;

/// As many lists, each with nothing in it.
fn empty_lists(alloc: Global, count: usize) -> Result<Vec<List<Access>>, NoMemory>
    ensures many { IfOk result (λ lists. length lists.items ≡ count) }
    ensures empty { IfOk result (λ lists. (n : ℕ) → of_number lists.items n ≡ []) }
{
    let mut lists = Vec::new(alloc);
    for number in 0..count {
        lists.push(List::of(Vec::new(alloc)))?;
    }
    Ok(lists)
}

/// Puts the access of each point, where it is one, behind those of the keys that its place names.
fn pass_all<I: IntDomain>(
    alloc: Global,
    p: &Program,
    flow: &Flow,
    frames: &[Frame],
    facts: &Facts<I>,
    lists: &mut [List<Access>],
) -> Result<(), NoMemory>
    requires normal { IsNormal p.now }
    requires few { count_of p.now ≤ 65536 }
    requires flow { flow.now ≡ flow_of p.now }
    requires shape { HaveShape (domain I.Has I.IsBelow I.OpGives I.OpOneGives I.ToGives I.KeepGives I.members_of) p.now facts.now }
    requires frames { AreFrames p.now.funcs frames.now }
    requires lists { AreListsBelow (domain I.Has I.IsBelow I.OpGives I.OpOneGives I.ToGives I.KeepGives I.members_of) p.now facts.now 0 lists.old }
    ensures { OnOk result (AreLists (domain I.Has I.IsBelow I.OpGives I.OpOneGives I.ToGives I.KeepGives I.members_of) p.now facts.now lists.new) }
{
    for point in 0..flow.points.all().len() {
        pass(alloc, p, flow, frames, facts, point as u32, lists)?;
    }
    Ok(())
}

/// The accesses of each key of a program, by its number: which statements read and write it, and what is known of each by facts of the
/// program's shape. The only error is want of memory.
pub fn accesses<I: IntDomain>(
    alloc: Global,
    p: &Program,
    flow: &Flow,
    facts: &Facts<I>,
) -> Result<Vec<List<Access>>, NoMemory>
    requires normal { IsNormal p.now }
    requires few { count_of p.now ≤ 65536 }
    requires flow { flow.now ≡ flow_of p.now }
    requires shape { HaveShape (domain I.Has I.IsBelow I.OpGives I.OpOneGives I.ToGives I.KeepGives I.members_of) p.now facts.now }
    ensures { IfOk result (λ lists. AreLists (domain I.Has I.IsBelow I.OpGives I.OpOneGives I.ToGives I.KeepGives I.members_of) p.now facts.now lists.items) }
{
    let frames = frames(alloc, p.funcs.all())?;
    let mut lists = empty_lists(alloc, facts.keys.all().len())?;
    pass_all(alloc, p, flow, &frames, facts, &mut lists)?;
    Ok(lists)
}
