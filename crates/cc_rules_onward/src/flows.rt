//! What is asked of the next points by what flows there.

ghost use Rattle.std.specs.Prelude.{All, IfOk};
ghost use Rattle.cc_rules_asked.specs.CcRules.Constraints.{Flow as FlowRule};
ghost use Rattle.cc_rules_asked.specs.Asks.{AsksHere};
ghost use Rattle.cc_rules_choices.specs.Choices.{FitsIf, FitsSwitch, AreTestsWorkedHere};
ghost use Rattle.cc_rules_choices.specs.Sided.{MayTest};
ghost use Rattle.cc_state_points.specs.CcRulesFlows.Acts.{Tests, Chooses};
ghost use Rattle.cc_state_points.specs.CcRulesFlows.Here.{IsHere, MayDo};
ghost use Rattle.cc_state_points.specs.CcRulesFlows.View.{act_view};
ghost use Rattle.cc_rules_nexts.specs.Told.{IsOnward};
ghost use Rattle.cc_rules_onward.specs.Fits.{FitTests};
ghost use Rattle.cc_state_points.specs.CcStateOperators.Domains.{domain};

use cc_program::num::NoMemory;
use cc_program::{Case, Expr, Stmt};
use cc_rules_asked::Asked;
use cc_rules_choices::{after_if, after_switch};
use cc_rules_nexts::{asked_by_flow, asked_of_told};
use cc_state_points::lattice::IntDomain;
use cc_state_points::rules_flows::{Act, Here};
use std::alloc::Global;

/// What is asked of the sides of an `if`.
fn asked_by_if<I: IntDomain>(
    alloc: Global,
    here: &Here<'_, I>,
    e: &Expr,
    these: &[Stmt],
    those: &[Stmt],
) -> Result<Vec<Asked<I>>, NoMemory>
    requires here { IsHere (domain I.Has I.IsBelow I.OpGives I.OpOneGives I.ToGives I.KeepGives I.members_of) here.now }
    requires may { MayTest (domain I.Has I.IsBelow I.OpGives I.OpOneGives I.ToGives I.KeepGives I.members_of) here.now e.now }
    requires fits { FitsIf (domain I.Has I.IsBelow I.OpGives I.OpOneGives I.ToGives I.KeepGives I.members_of) here.now these.now those.now }
    ensures asked { IfOk result (λ asked. AsksHere (domain I.Has I.IsBelow I.OpGives I.OpOneGives I.ToGives I.KeepGives I.members_of) here.now FlowRule (Tests e.now these.now those.now) asked.items) }
    ensures worked { IfOk result (λ asked. AreTestsWorkedHere (domain I.Has I.IsBelow I.OpGives I.OpOneGives I.ToGives I.KeepGives I.members_of) here.now (Tests e.now these.now those.now)) }
    ensures onward { IfOk result (λ asked. All (IsOnward (domain I.Has I.IsBelow I.OpGives I.OpOneGives I.ToGives I.KeepGives I.members_of) here.now) asked.items) }
{
    let told = after_if(alloc, here, e, these, those)?;
    asked_of_told(alloc, here, told.as_slice())
}

/// What is asked of the cases of a `switch`, and behind it.
fn asked_by_switch<I: IntDomain>(
    alloc: Global,
    here: &Here<'_, I>,
    e: &Expr,
    cases: &[Case],
) -> Result<Vec<Asked<I>>, NoMemory>
    requires here { IsHere (domain I.Has I.IsBelow I.OpGives I.OpOneGives I.ToGives I.KeepGives I.members_of) here.now }
    requires may { MayTest (domain I.Has I.IsBelow I.OpGives I.OpOneGives I.ToGives I.KeepGives I.members_of) here.now e.now }
    requires fits { FitsSwitch (domain I.Has I.IsBelow I.OpGives I.OpOneGives I.ToGives I.KeepGives I.members_of) here.now cases.now }
    ensures asked { IfOk result (λ asked. AsksHere (domain I.Has I.IsBelow I.OpGives I.OpOneGives I.ToGives I.KeepGives I.members_of) here.now FlowRule (Chooses e.now cases.now) asked.items) }
    ensures worked { IfOk result (λ asked. AreTestsWorkedHere (domain I.Has I.IsBelow I.OpGives I.OpOneGives I.ToGives I.KeepGives I.members_of) here.now (Chooses e.now cases.now)) }
    ensures onward { IfOk result (λ asked. All (IsOnward (domain I.Has I.IsBelow I.OpGives I.OpOneGives I.ToGives I.KeepGives I.members_of) here.now) asked.items) }
{
    let told = after_switch(alloc, here, e, cases)?;
    asked_of_told(alloc, here, told.as_slice())
}

/// What is asked of the next points. The only error is want of memory.
pub fn asked_by_flows<I: IntDomain>(
    alloc: Global,
    here: &Here<'_, I>,
    act: Act<'_>,
) -> Result<Vec<Asked<I>>, NoMemory>
    requires here { IsHere (domain I.Has I.IsBelow I.OpGives I.OpOneGives I.ToGives I.KeepGives I.members_of) here.now }
    requires may { MayDo (domain I.Has I.IsBelow I.OpGives I.OpOneGives I.ToGives I.KeepGives I.members_of) here.now (act_view act) }
    requires tests { FitTests (domain I.Has I.IsBelow I.OpGives I.OpOneGives I.ToGives I.KeepGives I.members_of) here.now (act_view act) }
    ensures asked { IfOk result (λ asked. AsksHere (domain I.Has I.IsBelow I.OpGives I.OpOneGives I.ToGives I.KeepGives I.members_of) here.now FlowRule (act_view act.entry) asked.items) }
    ensures worked { IfOk result (λ asked. AreTestsWorkedHere (domain I.Has I.IsBelow I.OpGives I.OpOneGives I.ToGives I.KeepGives I.members_of) here.now (act_view act.entry)) }
    ensures onward { IfOk result (λ asked. All (IsOnward (domain I.Has I.IsBelow I.OpGives I.OpOneGives I.ToGives I.KeepGives I.members_of) here.now) asked.items) }
{
    match act {
        Act::Tests(e, these, those) => asked_by_if(alloc, here, e, these, those),
        Act::Chooses(e, cases) => asked_by_switch(alloc, here, e, cases),
        _ => asked_by_flow(alloc, here, act),
    }
}
