//! The plan of a program.

ghost use Rattle.std.specs.Prelude.{◌≡◌, ◌≤◌, IfOk};
ghost use Rattle.cc_state_points.specs.CcFlow.Points.{flow_of};
ghost use Rattle.cc_layout.specs.Seats.{ram as ram_of};
ghost use Rattle.cc_plan.specs.Plans.{IsLegal, IsPlanOf};
ghost use Rattle.cc_slots.specs.Domain.{vals_domain};
ghost use Rattle.cc_state_points.specs.CcState.Covered.{IsInLimits};
ghost use Rattle.cc_state_points.specs.CcState.Shape.{HaveShape};

use crate::settings::{budgets_of, weights_of};
use cc_cost::Profile;
use cc_plan_costs::{candidates, counts_of, prices};
use cc_plan_legal::kinds::Plan;
use cc_program::Program;
use cc_program::num::NoMemory;
use cc_sets::Vals;
use cc_slots::slots;
use cc_state_points::flow::Flow;
use cc_state_points::state_facts::Facts;
use std::alloc::Global;

/// The plan of a program, by facts of its shape and a profile: of the slots that have no reason those are coded that gain most for what
/// they cost, as far as the budgets reach. The only error is want of memory.
pub fn plan(
    alloc: Global,
    p: &Program,
    flow: &Flow,
    facts: &Facts<Vals>,
    profile: &Profile,
) -> Result<Plan, NoMemory>
    requires limits { IsInLimits vals_domain p.now facts.now }
    requires shape { HaveShape vals_domain p.now facts.now }
    requires low { ram_of p.now ≤ 65536 }
    requires flow { flow.now ≡ flow_of p.now }
    ensures chosen { IfOk result (IsPlanOf p.now facts.now profile.now) }
    ensures legal { IfOk result (IsLegal p.now facts.now) }
{
    let slots = slots(alloc, p, flow, facts)?;
    let seen = candidates(alloc, p, &slots)?;
    let counts = counts_of(alloc, p, profile.counts.all())?;
    let prices = prices(alloc, flow.points.all(), &counts, facts, p, &slots)?;
    let weights = weights_of(profile);
    let budgets = budgets_of(profile);
    cc_plan_offers::plan(alloc, &seen, &prices, &weights, &budgets)
}
