//! What coding each slot costs as it is ranked: with the bytes of its table.

ghost use Rattle.std.specs.Prelude.{◌≡◌, ◌≤◌, ◌^◌, true, None as NoneOf, All, IfOk, map};
ghost use Rattle.cc_code.specs.Members.{has_coding};
ghost use Rattle.cc_plan_costs.specs.Costs.{price_of as price_of_slot, table_bytes as table_bytes_of, IsPriceable};

use crate::costing::{accesses_cost, coding_of, member_count};
use cc_code::kinds::Coding;
use cc_cost_ranking::Cost;
use cc_program::Program;
use cc_program::num::NoMemory;
use cc_rules_flows::flow::Point;
use cc_rules_flows::state_facts::Facts;
use cc_slots_types::Slot;
use std::alloc::Global;

/// The bytes of a slot's table: a scalar for each member.
fn table_bytes(slot: &Slot) -> u64
    requires { has_coding slot.now.values ≡ true }
    ensures bytes { result ≡ table_bytes_of slot.now }
    ensures most { result ≤ 2 ^ 38 }
{
    match coding_of(slot) {
        Coding::Const | Coding::Direct | Coding::Biased(_) => 0,
        Coding::Table => u64::from(member_count(&slot.values)) * u64::from(slot.bytes),
    }
}

/// What coding a slot costs, with the bytes of its table.
#[tactic(auto, unfolding(crate::specs::Costs::price_of))]
fn price_of<I>(points: &[Point], counts: &[u64], facts: &Facts<I>, p: &Program, slot: &Slot) -> Cost
    requires counts { All (λ c. c ≤ 2 ^ 30) counts.now }
    requires slot { IsPriceable slot.now }
    ensures { result ≡ price_of_slot points.now counts.now facts.now p.now slot.now }
{
    match slot.reason {
        None => {
            let cost = accesses_cost(points, counts, facts, p, slot);
            Cost {
                code: cost.code + table_bytes(slot),
                time: cost.time,
            }
        }
        Some(_) => Cost { code: 0, time: 0 },
    }
}

/// What coding each slot of a program costs as it is ranked: what its accesses cost, and the bytes of its table as code. The only error is
/// want of memory.
pub fn prices<I>(
    alloc: Global,
    points: &[Point],
    counts: &[u64],
    facts: &Facts<I>,
    p: &Program,
    slots: &[Slot],
) -> Result<Vec<Cost>, NoMemory>
    requires counts { All (λ c. c ≤ 2 ^ 30) counts.now }
    requires slots { All IsPriceable slots.now }
    ensures { IfOk result (λ prices. prices.items ≡ map (price_of_slot points.now counts.now facts.now p.now) slots.now) }
{
    let mut prices = Vec::new(alloc);
    for slot in slots {
        prices.push(price_of(points, counts, facts, p, slot))?;
    }
    Ok(prices)
}
