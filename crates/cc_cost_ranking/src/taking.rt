//! Which slots are taken.

ghost use Rattle.std.specs.Prelude.{◌≡◌, ◌≤◌, ◌+◌, ◌^◌, ◌&&◌, All, IfOk};
ghost use Rattle.cc_cost_ranking.specs.Ranking.{is_within as is_within_budget, taken_of, AreApart, AreWeights, IsRanking};

use crate::order::in_order;
use crate::types::{Budgets, Costed, Weights};
use cc_program::num::NoMemory;
use std::alloc::Global;

/// Whether a sum is within a budget.
fn is_within(budget: Option<u64>, sum: u128) -> bool
    ensures { result ≡ is_within_budget budget sum }
{
    match budget {
        None => true,
        Some(most) => sum <= u128::from(most),
    }
}

/// Whether two sums are within both budgets.
fn are_within(budgets: &Budgets, code: u128, time: u128) -> bool
    ensures { result ≡ (is_within_budget budgets.now.code code && is_within_budget budgets.now.time time) }
{
    is_within(budgets.code, code) && is_within(budgets.time, time)
}

/// A sum with one cost more.
fn with_cost(sum: u128, cost: u64) -> u128
    requires { sum + 2 ^ 64 ≤ 2 ^ 128 }
    ensures value { result ≡ sum + cost }
    ensures most { result ≤ sum + 2 ^ 64 }
{
    sum + u128::from(cost)
}

/// What is taken of slots in rank order.
fn take(alloc: Global, budgets: &Budgets, order: &[Costed]) -> Result<Vec<u32>, NoMemory>
    ensures { IfOk result (λ slots. slots.items ≡ (taken_of budgets.now order.now).slots) }
{
    let mut slots = Vec::new(alloc);
    let mut code: u128 = 0;
    let mut time: u128 = 0;
    for costed in order {
        let code_with = with_cost(code, costed.code);
        let time_with = with_cost(time, costed.time);
        if are_within(budgets, code_with, time_with) {
            slots.push(costed.slot)?;
            code = code_with;
            time = time_with;
        }
    }
    Ok(slots)
}

/// The slots that are coded, in rank order: those that gain more for their price come first, by cross products, and of those
/// that gain as much the one with the lesser number. Each is taken where what is taken stays within both budgets with it; where
/// it does not, it is left, and those behind it are tried.
pub fn rank(
    alloc: Global,
    list: &[Costed],
    weights: &Weights,
    budgets: &Budgets,
) -> Result<Vec<u32>, NoMemory>
    requires weights { AreWeights weights.now }
    requires slots { AreApart list.now }
    requires gains { All (λ c. c.gain ≤ 2 ^ 40) list.now }
    ensures { IfOk result (λ slots. IsRanking weights.now budgets.now list.now slots.items) }
{
    let order = in_order(alloc, weights, list)?;
    take(alloc, budgets, &order)
}
