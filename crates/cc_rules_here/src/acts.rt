//! What the statement at a point does.

ghost use Rattle.std.specs.Prelude.{◌≡◌, is_some, true, Some, slice_get};
ghost use Rattle.cc_state_points.specs.CcRegisters.Kept.{AreKept};
ghost use Rattle.cc_rules_asked.specs.CcRules.Rules.{act_at};
ghost use Rattle.cc_rules_asked.specs.Asks.{ArePureHere};
ghost use Rattle.cc_state_points.specs.CcRulesFlows.Here.{IsHere, MayDo};
ghost use Rattle.cc_state_points.specs.CcRulesFlows.Nexts.{IsPoint, statement_of};
ghost use Rattle.cc_state_points.specs.CcRulesFlows.View.{act_view};
ghost use Rattle.cc_rules_here.specs.Marks.{AreMarksOf};
ghost use Rattle.cc_state_points.specs.CcState.Shape.{HaveShape};
ghost use Rattle.cc_state_points.specs.CcStateOperators.Domains.{domain};
ghost use Rattle.cc_state_points.specs.CcSyntax.Normal.{IsNormal};

use cc_program::Func;
use cc_program::num::{List, at};
use cc_state_points::flow::Point;
use cc_state_points::lattice::IntDomain;
use cc_state_points::rules_flows::{Act, Body, Here, statement_at};

/// The marks of a function.
fn marks_at(marks: &[List<bool>], id: u32) -> &[bool]
    requires { is_some (slice_get marks.now id) ≡ true }
    ensures { slice_get marks.now id ≡ Some result.now }
{
    match at(marks, id as usize) {
        None => unreachable!(),
        Some(kept) => kept.all(),
    }
}

/// What the statement at a point of a function does, by which locals are registers.
fn act_of<'a>(func: &'a Func, kept: &'a [bool], point: &Point) -> Act<'a>
    requires { AreKept func.now kept.now }
    ensures { act_view result ≡ act_at (statement_of func.now point.now) func.now }
{
    match statement_at(func.body.all(), point.path.all()) {
        None => Act::Passes,
        Some(statement) => Body { func, kept }.act_of(statement),
    }
}

/// What the statement at a point does, by the marks of registers of all functions. At the exit of a function there is none.
pub fn act_here<'a, I: IntDomain>(marks: &'a [List<bool>], here: &Here<'a, I>) -> Act<'a>
    requires marks { AreMarksOf here.now.context.program.now marks.now }
    requires normal { IsNormal here.now.context.program.now }
    requires shape { HaveShape (domain I.Has I.IsBelow I.OpGives I.OpOneGives I.ToGives I.KeepGives I.members_of) here.now.context.program.now here.now.facts.now }
    requires here { IsHere (domain I.Has I.IsBelow I.OpGives I.OpOneGives I.ToGives I.KeepGives I.members_of) here.now }
    requires point { IsPoint here.now.context.program.now here.now.number here.now.context.id here.now.context.func.now here.now.point.now }
    ensures is { act_view result ≡ act_at (statement_of here.now.context.func.now here.now.point.now) here.now.context.func.now }
    ensures pure { ArePureHere (domain I.Has I.IsBelow I.OpGives I.OpOneGives I.ToGives I.KeepGives I.members_of) here.now (act_view result) }
    ensures may { MayDo (domain I.Has I.IsBelow I.OpGives I.OpOneGives I.ToGives I.KeepGives I.members_of) here.now (act_view result) }
{
    let kept = marks_at(marks, here.context.id);
    act_of(here.context.func, kept, here.point)
}
