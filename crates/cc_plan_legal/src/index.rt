//! What is looked up of a plan.

ghost use Rattle.std.specs.Prelude.{◌≡◌, ◌<◌, true, false, Some as SomeOf, IfOk, MatchResult, length, slice_get};
ghost use Rattle.cc_plan_legal.specs.Index.{IsIndex};
ghost use Rattle.cc_plan_legal.specs.Legality.{field_of as field_of_slot, is_among as is_among_of};
ghost use Rattle.cc_plan_legal.specs.Lookup.{in_word};
ghost use Rattle.cc_plan_legal.specs.Plans.{ascends, slots_of as slots_of_fields};

use crate::groups::{Group, by_word};
use crate::kinds::Plan;
use cc_bins::Field;
use cc_program::num::{List, NoMemory, at};
use std::alloc::Global;

/// The slots of a plan's fields, and for each word its fields.
#[derive(Drop)]
pub struct Index {
    pub(crate) slots: List<u32>,
    pub(crate) groups: List<Group>,
}

/// The slots of fields.
#[tactic(auto, using(crate::proofs::Joins::joins))]
fn slots_of(alloc: Global, fields: &[Field]) -> Result<Vec<u32>, NoMemory>
    ensures { IfOk result (λ slots. slots.items ≡ slots_of_fields fields.now) }
{
    let mut slots = Vec::new(alloc);
    let mut left = fields;
    while let [field, rest @ ..] = left {
        slots.push(field.slot)?;
        left = rest;
    }
    Ok(slots)
}

/// The index of a plan.
pub fn index_of(alloc: Global, plan: &Plan) -> Result<Index, NoMemory>
    ensures { IfOk result (IsIndex plan.now) }
{
    let slots = slots_of(alloc, plan.fields.all())?;
    let groups = by_word(alloc, plan.words.all(), plan.fields.all())?;
    Ok(Index {
        slots: List::of(slots),
        groups: List::of(groups),
    })
}

/// Where a slot stands among ascending ones.
fn search(slots: &[u32], slot: u32) -> Result<usize, usize>
    requires { ascends slots.now ≡ true }
    ensures { MatchResult result (λ place. slice_get slots.now place ≡ SomeOf slot) (λ _. is_among_of slots.now slot ≡ false) }
{
    slots.binary_search(&slot)
}

/// Whether a slot is among ascending ones.
pub fn is_among(slots: &[u32], slot: u32) -> bool
    requires { ascends slots.now ≡ true }
    ensures { result ≡ is_among_of slots.now slot }
{
    match search(slots, slot) {
        Ok(_) => true,
        Err(_) => false,
    }
}

/// The field of a slot.
pub fn field_of(plan: &Plan, index: &Index, slot: u32) -> Option<Field>
    requires { IsIndex plan.now index.now }
    ensures { result ≡ field_of_slot plan.now.fields slot }
{
    match search(index.slots.all(), slot) {
        Err(_) => None,
        Ok(place) => match at(plan.fields.all(), place) {
            None => None,
            Some(field) => Some(*field),
        },
    }
}

/// The fields of a word.
pub(crate) fn fields_in<'a>(plan: &Plan, index: &'a Index, word: u32) -> &'a [Field]
    requires { IsIndex plan.now index.now }
    ensures { word < length plan.now.words → result.now ≡ in_word word plan.now.fields }
{
    match at(index.groups.all(), word as usize) {
        Some(group) => group.fields.all(),
        None => &[],
    }
}
