//! The choice.

ghost use Rattle.std.specs.Prelude.{◌≡◌, ◌≤◌, ◌^◌, None as NoneOf, All, IfOk, IsPermutation, IsSorted, length, true};
ghost use Rattle.std.specs.Ordering.{nat_cmp};
ghost use Rattle.cc_cost_ranking.specs.Ranking.{AreWeights};
ghost use Rattle.cc_plan_choice.specs.declared.fate.Fate.TheVariants as fate;
ghost use Rattle.cc_plan_choice.specs.Choice.{AreOffers, IsChoice};
ghost use Rattle.cc_plan_choice.specs.Fates.{slots_with as slots_with_of, wants_from};
ghost use Rattle.cc_plan_legal.specs.Legality.{first_illegal};
ghost use Rattle.cc_plan_legal.specs.Plans.{slots_of as slots_of_fields};
ghost use Rattle.cc_plan_legal.specs.Short.{AreShort};

use crate::fate::Fate;
use crate::lists::{slots_with, wants};
use crate::order::{by_slot, in_order, slots_of};
use cc_bins::{Bins, place};
use cc_cost_ranking::{Budgets, Costed, Weights, rank};
use cc_plan_legal::kinds::Plan;
use cc_plan_legal::{Candidate, Parts};
use cc_program::num::{List, NoMemory};
use std::alloc::Global;

/// The lists of the plan that takes these slots, which are in order, and places them so.
fn parts_of(
    alloc: Global,
    slots: &[Candidate],
    taken: &[u32],
    bins: Bins,
) -> Result<Parts, NoMemory>
    requires few { length slots.now ≤ 2 ^ 32 }
    requires taken { IsSorted nat_cmp taken.now }
    ensures words { IfOk result (λ p. p.words ≡ bins.words) }
    ensures permuted { IfOk result (λ p. IsPermutation bins.fields p.fields) }
    ensures sorted { IfOk result (λ p. IsSorted (λ x y. nat_cmp x.slot y.slot) p.fields) }
    ensures consts { IfOk result (λ p. p.consts ≡ slots_with_of taken.now (slots_of_fields p.fields) fate.Const slots.now) }
    ensures arrays { IfOk result (λ p. p.arrays ≡ slots_with_of taken.now (slots_of_fields p.fields) fate.Array slots.now) }
    ensures budget { IfOk result (λ p. p.budget ≡ slots_with_of taken.now (slots_of_fields p.fields) fate.Left slots.now) }
    ensures dissolved { IfOk result (λ p. p.dissolved ≡ slots_with_of taken.now (slots_of_fields p.fields) fate.Dissolved slots.now) }
{
    let fields = by_slot(alloc, bins.fields.all())?;
    let fielded = slots_of(alloc, &fields)?;
    let consts = slots_with(alloc, slots, taken, &fielded, Fate::Const)?;
    let arrays = slots_with(alloc, slots, taken, &fielded, Fate::Array)?;
    let budget = slots_with(alloc, slots, taken, &fielded, Fate::Left)?;
    let dissolved = slots_with(alloc, slots, taken, &fielded, Fate::Dissolved)?;
    Ok(Parts {
        fields: List::of(fields),
        consts: List::of(consts),
        arrays: List::of(arrays),
        words: bins.words,
        budget: List::of(budget),
        dissolved: List::of(dissolved),
    })
}

/// The plan of the slots that have no reason, which are offered. Those that the ranking takes are coded, and the others are left,
/// since budgets do not reach for them. Taken slots that are no constants and no arrays are placed in words; those of words that would save nothing are left too.
pub fn choose(
    alloc: Global,
    slots: &[Candidate],
    offers: &[Costed],
    weights: &Weights,
    budgets: &Budgets,
) -> Result<Plan, NoMemory>
    requires few { length slots.now ≤ 2 ^ 32 }
    requires weights { AreWeights weights.now }
    requires short { AreShort slots.now }
    requires offered { AreOffers slots.now offers.now }
    requires gains { All (λ o. o.gain ≤ 2 ^ 40) offers.now }
    ensures choice { IfOk result (IsChoice slots.now offers.now weights.now budgets.now) }
    ensures legal { IfOk result (λ plan. first_illegal slots.now plan ≡ NoneOf) }
{
    let ranked = rank(alloc, offers, weights, budgets)?;
    let taken = in_order(alloc, &ranked)?;
    let wanted = wants(alloc, slots, &taken)?;
    let bins = place(alloc, &wanted)?;
    let parts = parts_of(alloc, slots, &taken, bins)?;
    match parts.into_plan() {
        Some(plan) => Ok(plan),
        None => unreachable!(),
    }
}
