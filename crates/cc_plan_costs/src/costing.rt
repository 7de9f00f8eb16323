//! What coding each slot costs.

ghost use Rattle.std.specs.Prelude.{◌≡◌, ◌≤◌, ◌^◌, true, None as NoneOf, All, IfOk, length, map};
ghost use Rattle.cc_code.specs.Members.{has_coding, members_of};
ghost use Rattle.cc_plan_costs.specs.Costs.{accesses_cost as accesses_cost_of, coding_of as coding_of_slot, cost_of as cost_of_slot, IsPriceable};

use crate::sites::sites_of;
use cc_code::kind_of;
use cc_code::kinds::Coding;
use cc_cost_ranking::{Cost, Sites, estimate};
use cc_program::Program;
use cc_program::num::NoMemory;
use cc_rules_flows::flow::Point;
use cc_rules_flows::places::Abs;
use cc_rules_flows::state_facts::Facts;
use cc_sets::Vals;
use cc_slots_types::Slot;
use std::alloc::Global;

pub(crate) fn coding_of(slot: &Slot) -> Coding
    ensures { result ≡ coding_of_slot slot.now }
{
    kind_of(&slot.values, slot.bits)
}

/// How many members are told one by one.
#[tactic(auto, using(crate::proofs::Bounds::few_members))]
pub(crate) fn member_count(values: &Abs<Vals>) -> u32
    requires { has_coding values.now ≡ true }
    ensures value { result ≡ length (members_of values.now) }
    ensures most { result ≤ 64 }
{
    match values {
        Abs::Ints(Vals::Few(few)) => few.members().len() as u32,
        Abs::Ints(Vals::Many(_)) => 0,
        Abs::Addrs(places) => places.members.all().len() as u32,
    }
}

/// What the accesses of a slot cost together.
pub(crate) fn accesses_cost<I>(
    points: &[Point],
    counts: &[u64],
    facts: &Facts<I>,
    p: &Program,
    slot: &Slot,
) -> Cost
    requires counts { All (λ c. c ≤ 2 ^ 30) counts.now }
    requires slot { IsPriceable slot.now }
    requires free { slot.now.reason ≡ NoneOf }
    ensures value { result ≡ accesses_cost_of points.now counts.now facts.now p.now slot.now }
    ensures code { result.code ≤ 2 ^ 57 }
{
    let coding = coding_of(slot);
    let members = member_count(&slot.values);
    let plain = sites_of(points, &[], facts, p, slot);
    let weighted = sites_of(points, counts, facts, p, slot);
    Cost {
        code: estimate(&plain, &coding, members).code,
        time: estimate(&weighted, &coding, members).time,
    }
}

/// What coding a slot costs, without the bytes of its table.
#[tactic(auto, unfolding(crate::specs::Costs::cost_of))]
fn cost_of<I>(points: &[Point], counts: &[u64], facts: &Facts<I>, p: &Program, slot: &Slot) -> Cost
    requires counts { All (λ c. c ≤ 2 ^ 30) counts.now }
    requires slot { IsPriceable slot.now }
    ensures { result ≡ cost_of_slot points.now counts.now facts.now p.now slot.now }
{
    match slot.reason {
        None => accesses_cost(points, counts, facts, p, slot),
        Some(_) => Cost { code: 0, time: 0 },
    }
}

/// What coding each slot of a program costs in code and in time, without the bytes of tables: code by how many accesses it has, and time
/// by how often they are made, where functions run so often. A slot with a reason costs nothing. The only error is want of memory.
pub fn costs<I>(
    alloc: Global,
    points: &[Point],
    counts: &[u64],
    facts: &Facts<I>,
    p: &Program,
    slots: &[Slot],
) -> Result<Vec<Cost>, NoMemory>
    requires counts { All (λ c. c ≤ 2 ^ 30) counts.now }
    requires slots { All IsPriceable slots.now }
    ensures { IfOk result (λ costs. costs.items ≡ map (cost_of_slot points.now counts.now facts.now p.now) slots.now) }
{
    let mut costs = Vec::new(alloc);
    for slot in slots {
        costs.push(cost_of(points, counts, facts, p, slot))?;
    }
    Ok(costs)
}
