//! What is done for one point.

ghost use Rattle.std.specs.Prelude.{◌≡◌, ◌<◌, true, Some, length, is_some, slice_get, OnOk};
ghost use Rattle.std.specs.Option.{option_copied};
ghost use Rattle.cc_state_points.specs.CcFlow.Points.{flow_of};
ghost use Rattle.cc_state_points.specs.CcRegisters.Kept.{AreKept};
ghost use Rattle.cc_state_points.specs.CcRulesFlows.Acts.{act_of as act_of_stmt};
ghost use Rattle.cc_state_points.specs.CcRulesFlows.Nexts.{statement_of};
ghost use Rattle.cc_state_points.specs.CcRulesFlows.View.{act_view};
ghost use Rattle.cc_slots_points.specs.Frames.{AreFrames, IsFrame};
ghost use Rattle.cc_slots_points.specs.Points.{HasPurePlace, IsDone, IsPassed};
ghost use Rattle.cc_state_points.specs.CcState.Points.{IsPointOf};
ghost use Rattle.cc_state_points.specs.CcState.Shape.{HaveShape};
ghost use Rattle.cc_state_points.specs.CcStateKeys.Keys.{keys_of};
ghost use Rattle.cc_state_points.specs.CcStateOperators.Domains.{domain};
ghost use Rattle.cc_state_points.specs.CcStateValues.Contexts.{HaveSetsIn};
ghost use Rattle.cc_state_points.specs.CcSyntax.Normal.{IsNormal};
ghost use Rattle.cc_state_points.specs.CcSyntax.Sizes.{AreSized};

use crate::contexts::{context_of, end, fact_at};
use crate::frames::Frame;
use cc_program::num::{List, NoMemory, at};
use cc_program::{Func, Program, Stmt};
use cc_slots_accesses::{Access, visit};
use cc_state_points::flow::{Flow, Point};
use cc_state_points::lattice::IntDomain;
use cc_state_points::rules_flows::{Act, Body, statement_at};
use cc_state_points::state_facts::{Facts, PointFact};
use cc_state_points::state_values::Context;
use std::alloc::Global;

/// Puts the access of a statement that does this, where it is one, behind those of the keys that its place names.
fn pass_act<I: IntDomain>(
    alloc: Global,
    c: &Context<'_, I>,
    facts: &Facts<I>,
    fact: Option<&PointFact<I>>,
    point: u32,
    act: Act<'_>,
    lists: &mut [List<Access>],
) -> Result<(), NoMemory>
    requires sized { AreSized c.now.program.now.structures c.now.program.now.target }
    requires sets { is_some (option_copied fact) ≡ true → HaveSetsIn (domain I.Has I.IsBelow I.OpGives I.OpOneGives I.ToGives I.KeepGives I.members_of) c.now }
    requires pure { HasPurePlace c.now.program.now c.now.func.now (act_view act) }
    requires keys { facts.now.keys ≡ keys_of c.now.program.now }
    requires lists { length lists.old ≡ length facts.now.keys }
    ensures { OnOk result (IsDone (domain I.Has I.IsBelow I.OpGives I.OpOneGives I.ToGives I.KeepGives I.members_of) c.now facts.now (option_copied fact.entry) point (act_view act.entry) lists.old lists.new) }
{
    match act {
        Act::Reads(_, a) => visit(alloc, c, facts, fact, point, false, a, lists),
        Act::Writes(a, _) => visit(alloc, c, facts, fact, point, true, a, lists),
        _ => Ok(()),
    }
}

/// The same for a statement, where these locals of the function are registers.
fn pass_statement<I: IntDomain>(
    alloc: Global,
    c: &Context<'_, I>,
    kept: &[bool],
    facts: &Facts<I>,
    fact: Option<&PointFact<I>>,
    point: u32,
    s: &Stmt,
    lists: &mut [List<Access>],
) -> Result<(), NoMemory>
    requires sized { AreSized c.now.program.now.structures c.now.program.now.target }
    requires sets { is_some (option_copied fact) ≡ true → HaveSetsIn (domain I.Has I.IsBelow I.OpGives I.OpOneGives I.ToGives I.KeepGives I.members_of) c.now }
    requires kept { AreKept c.now.func.now kept.now }
    requires pure { HasPurePlace c.now.program.now c.now.func.now (act_of_stmt c.now.func.now s.now) }
    requires keys { facts.now.keys ≡ keys_of c.now.program.now }
    requires lists { length lists.old ≡ length facts.now.keys }
    ensures { OnOk result (IsDone (domain I.Has I.IsBelow I.OpGives I.OpOneGives I.ToGives I.KeepGives I.members_of) c.now facts.now (option_copied fact.entry) point (act_of_stmt c.now.func.now s.now) lists.old lists.new) }
{
    let body = Body { func: c.func, kept };
    let act = body.act_of(s);
    pass_act(alloc, c, facts, fact, point, act, lists)
}

/// The same for a point of a function, at which a statement stands.
fn pass_in<I: IntDomain>(
    alloc: Global,
    p: &Program,
    q: &Point,
    func: &Func,
    frame: &Frame,
    facts: &Facts<I>,
    point: u32,
    s: &Stmt,
    lists: &mut [List<Access>],
) -> Result<(), NoMemory>
    requires normal { IsNormal p.now }
    requires shape { HaveShape (domain I.Has I.IsBelow I.OpGives I.OpOneGives I.ToGives I.KeepGives I.members_of) p.now facts.now }
    requires there { IsPointOf p.now point q.now func.now }
    requires stands { statement_of func.now q.now ≡ Some s.now }
    requires frame { IsFrame func.now frame.now }
    requires lists { length lists.old ≡ length facts.now.keys }
    ensures { OnOk result (IsPassed (domain I.Has I.IsBelow I.OpGives I.OpOneGives I.ToGives I.KeepGives I.members_of) p.now facts.now point lists.old lists.new) }
{
    let fact = fact_at(facts, point);
    let c = context_of(p, q.func, func, frame, fact);
    let passed = pass_statement(alloc, &c, frame.kept.all(), facts, fact, point, s, lists);
    end(c);
    passed
}

/// The same for a point, which a statement may lack.
fn pass_function<I: IntDomain>(
    alloc: Global,
    p: &Program,
    q: &Point,
    func: &Func,
    frames: &[Frame],
    facts: &Facts<I>,
    point: u32,
    lists: &mut [List<Access>],
) -> Result<(), NoMemory>
    requires normal { IsNormal p.now }
    requires shape { HaveShape (domain I.Has I.IsBelow I.OpGives I.OpOneGives I.ToGives I.KeepGives I.members_of) p.now facts.now }
    requires there { IsPointOf p.now point q.now func.now }
    requires frames { AreFrames p.now.funcs frames.now }
    requires lists { length lists.old ≡ length facts.now.keys }
    ensures { OnOk result (IsPassed (domain I.Has I.IsBelow I.OpGives I.OpOneGives I.ToGives I.KeepGives I.members_of) p.now facts.now point lists.old lists.new) }
{
    match statement_at(func.body.all(), q.path.all()) {
        None => Ok(()),
        Some(s) => match at(frames, q.func as usize) {
            None => unreachable!(),
            Some(frame) => pass_in(alloc, p, q, func, frame, facts, point, s, lists),
        },
    }
}

/// Puts the access of a point's statement, where it is one, behind those of the keys that its place names.
pub(crate) fn pass<I: IntDomain>(
    alloc: Global,
    p: &Program,
    flow: &Flow,
    frames: &[Frame],
    facts: &Facts<I>,
    point: u32,
    lists: &mut [List<Access>],
) -> Result<(), NoMemory>
    requires normal { IsNormal p.now }
    requires flow { flow.now ≡ flow_of p.now }
    requires shape { HaveShape (domain I.Has I.IsBelow I.OpGives I.OpOneGives I.ToGives I.KeepGives I.members_of) p.now facts.now }
    requires frames { AreFrames p.now.funcs frames.now }
    requires lists { length lists.old ≡ length facts.now.keys }
    ensures { OnOk result (IsPassed (domain I.Has I.IsBelow I.OpGives I.OpOneGives I.ToGives I.KeepGives I.members_of) p.now facts.now point lists.old lists.new) }
{
    match at(flow.points.all(), point as usize) {
        None => Ok(()),
        Some(q) => match at(p.funcs.all(), q.func as usize) {
            None => Ok(()),
            Some(func) => pass_function(alloc, p, q, func, frames, facts, point, lists),
        },
    }
}
