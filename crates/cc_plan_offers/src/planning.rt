//! The plan.

ghost use Rattle.std.specs.Prelude.{◌≡◌, ◌≤◌, ◌*◌, ◌^◌, None as NoneOf, All, IfOk, length};
ghost use Rattle.cc_cost_ranking.specs.Ranking.{AreWeights};
ghost use Rattle.cc_plan_choice.specs.Choice.{IsChoice};
ghost use Rattle.cc_plan_legal.specs.Legality.{first_illegal};
ghost use Rattle.cc_plan_legal.specs.Short.{AreShort};
ghost use Rattle.cc_plan_offers.specs.Offers.{offers_from};

use crate::offered::offers;
use cc_cost_ranking::{Budgets, Cost, Weights};
use cc_plan_choice::choose;
use cc_plan_legal::Candidate;
use cc_plan_legal::kinds::Plan;
use cc_program::num::NoMemory;
use std::alloc::Global;

/// The plan of slots, where it is known what coding each costs: those without a reason are ranked by what they gain for their price, and
/// those that budgets reach for are coded.
pub fn plan(
    alloc: Global,
    slots: &[Candidate],
    costs: &[Cost],
    weights: &Weights,
    budgets: &Budgets,
) -> Result<Plan, NoMemory>
    requires few { length slots.now ≤ 2 ^ 32 }
    requires costs { length slots.now ≡ length costs.now }
    requires weights { AreWeights weights.now }
    requires short { AreShort slots.now }
    requires bytes { All (λ c. c.count * c.bytes ≤ 2 ^ 35) slots.now }
    ensures choice { IfOk result (IsChoice slots.now (offers_from costs.now 0 slots.now) weights.now budgets.now) }
    ensures legal { IfOk result (λ plan. first_illegal slots.now plan ≡ NoneOf) }
{
    let offered = offers(alloc, slots, costs)?;
    choose(alloc, slots, &offered, weights, budgets)
}
