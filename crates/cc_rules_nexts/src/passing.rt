//! What is asked of the next points where nothing is tested: to each of them the same flows.

ghost use Rattle.std.specs.Prelude.{◌≡◌, map, All, IfOk, None};
ghost use Rattle.cc_rules_asked.specs.CcRules.Constraints.{Flow as FlowRule};
ghost use Rattle.cc_rules_asked.specs.Asks.{AsksHere};
ghost use Rattle.cc_rules_asked.specs.CcRulesFlows.Flows.{tests_of};
ghost use Rattle.cc_rules_asked.specs.CcRulesFlows.Here.{IsHere, MayDo};
ghost use Rattle.cc_rules_asked.specs.CcRulesFlows.View.{act_view};
ghost use Rattle.cc_rules_nexts.specs.Told.{point_told, IsOnward};
ghost use Rattle.cc_rules_asked.specs.CcStateOperators.Domains.{domain};

use cc_program::num::NoMemory;
use cc_rules_asked::Asked;
use cc_rules_asked::lattice::IntDomain;
use cc_rules_asked::rules_flows::{Act, Here};
use cc_rules_asked::state_facts::PointFact;
use std::alloc::Global;

/// Asks of each point what is told to flow there.
fn points_told<I: IntDomain>(
    alloc: Global,
    told: Vec<(u32, PointFact<I>)>,
    registers: u32,
) -> Result<Vec<Asked<I>>, NoMemory>
    ensures { IfOk result (λ asked. asked.items ≡ map (point_told registers) told.items) }
{
    let mut asked = Vec::new(alloc);
    for (number, flow) in told {
        asked.push(Asked::Point {
            number,
            registers,
            flow,
        })?;
    }
    Ok(asked)
}

/// What is asked of the next points by what flows there, where the statement tests nothing.
pub fn asked_by_flow<I: IntDomain>(
    alloc: Global,
    here: &Here<'_, I>,
    act: Act<'_>,
) -> Result<Vec<Asked<I>>, NoMemory>
    requires here { IsHere (domain I.Has I.IsBelow I.OpGives I.OpOneGives I.ToGives I.KeepGives I.members_of) here.now }
    requires may { MayDo (domain I.Has I.IsBelow I.OpGives I.OpOneGives I.ToGives I.KeepGives I.members_of) here.now (act_view act) }
    requires tests_none { tests_of here.now.number here.now.point.now.next (act_view act) ≡ None }
    ensures asked { IfOk result (λ asked. AsksHere (domain I.Has I.IsBelow I.OpGives I.OpOneGives I.ToGives I.KeepGives I.members_of) here.now FlowRule (act_view act.entry) asked.items) }
    ensures onward { IfOk result (λ asked. All (IsOnward (domain I.Has I.IsBelow I.OpGives I.OpOneGives I.ToGives I.KeepGives I.members_of) here.now) asked.items) }
{
    let told = here.after(alloc, act)?;
    let registers = here.context.registers.len() as u32;
    points_told(alloc, told, registers)
}
