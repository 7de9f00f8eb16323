//! Whether a plan is legal.

ghost use Rattle.std.specs.Prelude.{◌≡◌, ◌≤◌, IfOk};
ghost use Rattle.cc_state_points.specs.CcFlow.Points.{flow_of};
ghost use Rattle.cc_layout.specs.Seats.{ram as ram_of};
ghost use Rattle.cc_plan.specs.Plans.{IsBreachOf};
ghost use Rattle.cc_slots.specs.Domain.{vals_domain};
ghost use Rattle.cc_state_points.specs.CcState.Covered.{IsInLimits};
ghost use Rattle.cc_state_points.specs.CcState.Shape.{HaveShape};

use cc_plan_costs::candidates;
use cc_plan_legal::kinds::Plan;
use cc_plan_legal::{Illegal, first_illegal};
use cc_program::Program;
use cc_program::num::NoMemory;
use cc_sets::Vals;
use cc_slots::slots;
use cc_state_points::flow::Flow;
use cc_state_points::state_facts::Facts;
use std::alloc::Global;

/// The first slot of a program that breaks a rule in a plan, and its least rule. None where the plan is legal. The only error is want of
/// memory.
pub fn legal(
    alloc: Global,
    p: &Program,
    flow: &Flow,
    facts: &Facts<Vals>,
    plan: &Plan,
) -> Result<Option<Illegal>, NoMemory>
    requires limits { IsInLimits vals_domain p.now facts.now }
    requires shape { HaveShape vals_domain p.now facts.now }
    requires low { ram_of p.now ≤ 65536 }
    requires flow { flow.now ≡ flow_of p.now }
    ensures { IfOk result (IsBreachOf p.now facts.now plan.now) }
{
    let slots = slots(alloc, p, flow, facts)?;
    let seen = candidates(alloc, p, &slots)?;
    first_illegal(alloc, &seen, plan)
}
