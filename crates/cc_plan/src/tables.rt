//! The table of a plan.

ghost use Rattle.std.specs.Prelude.{◌≡◌, ◌≤◌, IfOk};
ghost use Rattle.cc_state_points.specs.CcFlow.Points.{flow_of};
ghost use Rattle.cc_layout.specs.Seats.{ram as ram_of};
ghost use Rattle.cc_plan.specs.Plans.{IsTableOf};
ghost use Rattle.cc_slots.specs.Domain.{vals_domain};
ghost use Rattle.cc_state_points.specs.CcState.Covered.{IsInLimits};
ghost use Rattle.cc_state_points.specs.CcState.Shape.{HaveShape};

use cc_cost::Profile;
use cc_layout::ram;
use cc_plan_costs::{costs, counts_of};
use cc_plan_legal::kinds::Plan;
use cc_plan_table::Ram;
use cc_program::Program;
use cc_program::num::NoMemory;
use cc_rewrite_names::word_names;
use cc_sets::Vals;
use cc_slots::slots;
use cc_state_points::flow::Flow;
use cc_state_points::state_facts::Facts;
use std::alloc::Global;

/// The table of a plan for a program: how each of its slots is coded or why it is not, and what that saves and costs, where the program
/// takes so much RAM afterwards. The only error is want of memory.
pub fn table(
    alloc: Global,
    p: &Program,
    flow: &Flow,
    facts: &Facts<Vals>,
    plan: &Plan,
    profile: &Profile,
    after: u64,
) -> Result<Vec<u8>, NoMemory>
    requires limits { IsInLimits vals_domain p.now facts.now }
    requires shape { HaveShape vals_domain p.now facts.now }
    requires low { ram_of p.now ≤ 65536 }
    requires flow { flow.now ≡ flow_of p.now }
    ensures { IfOk result (λ text. IsTableOf p.now facts.now profile.now plan.now after text.items) }
{
    let slots = slots(alloc, p, flow, facts)?;
    let counts = counts_of(alloc, p, profile.counts.all())?;
    let costs = costs(alloc, flow.points.all(), &counts, facts, p, &slots)?;
    let words = word_names(alloc, p, plan.words.all().len())?;
    let ram = Ram {
        before: ram(p),
        after,
    };
    cc_plan_table::table(alloc, p, &words, &slots, plan, &costs, ram)
}
