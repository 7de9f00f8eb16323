//! What the coded slots take together.

ghost use Rattle.std.specs.Prelude.{◌≡◌, ◌≤◌, ◌<◌, ◌^◌, ◌+◌, ◌*◌, length};
ghost use Rattle.cc_code.specs.Members.{members_of};
ghost use Rattle.cc_plan_legal.specs.Index.{IsIndex};
ghost use Rattle.cc_plan_table.specs.Totals.{cost_at as cost_at_number, nothing, table_bytes as table_bytes_of, totals_of, with_number as with_number_of, with_slot as with_slot_of};

use crate::columns::coding_of;
use crate::standing::standing_in;
use cc_code::kinds::Coding;
use cc_cost_ranking::Cost;
use cc_places::Abs;
use cc_plan_legal::Index;
use cc_plan_legal::kinds::Plan;
use cc_program::num::at;
use cc_sets::Vals;
use cc_slots_types::Slot;

/// The bytes of the tables of the coded slots, what they cost in code and time, and how many they are.
#[derive(Clone, Copy)]
pub(crate) struct Totals {
    pub rom: u128,
    pub code: u128,
    pub time: u128,
    pub coded: u128,
}

/// How many members are told one by one.
fn member_count(values: &Abs<Vals>) -> usize
    ensures { result ≡ length (members_of values.now) }
{
    match values {
        Abs::Ints(Vals::Few(few)) => few.members().len(),
        Abs::Ints(Vals::Many(_)) => 0,
        Abs::Addrs(places) => places.members.all().len(),
    }
}

/// The bytes of so many scalars.
#[tactic(auto, using(crate::proofs::Sums::product_small))]
fn bytes_of(count: usize, bytes: u32) -> u128
    ensures product { result ≡ count * bytes }
    ensures most { result < 2 ^ 96 }
{
    count as u128 * u128::from(bytes)
}

/// The bytes of a slot's table.
#[tactic(auto, unfolding(crate::specs::Totals::table_bytes))]
fn table_bytes(slot: &Slot) -> u128
    ensures bytes { result ≡ table_bytes_of slot.now }
    ensures most { result < 2 ^ 96 }
{
    match coding_of(slot) {
        Coding::Table => bytes_of(member_count(&slot.values), slot.bytes),
        _ => 0,
    }
}

/// What a slot costs.
fn cost_at(costs: &[Cost], number: usize) -> Cost
    ensures { result ≡ cost_at_number costs.now number }
{
    match at(costs, number) {
        Some(cost) => *cost,
        None => Cost { code: 0, time: 0 },
    }
}

impl Totals {
    fn nothing() -> Totals
        ensures { result ≡ nothing }
    {
        Totals {
            rom: 0,
            code: 0,
            time: 0,
            coded: 0,
        }
    }

    /// With a coded slot more.
    fn with_slot(self, slot: &Slot, cost: Cost) -> Totals
        requires rom { self.rom + 2 ^ 96 ≤ 2 ^ 128 }
        requires code { self.code + 2 ^ 96 ≤ 2 ^ 128 }
        requires time { self.time + 2 ^ 96 ≤ 2 ^ 128 }
        requires coded { self.coded + 2 ^ 96 ≤ 2 ^ 128 }
        ensures totals { result ≡ with_slot_of self slot.now cost }
        ensures rom { result.rom ≤ self.rom + 2 ^ 96 }
        ensures code { result.code ≤ self.code + 2 ^ 96 }
        ensures time { result.time ≤ self.time + 2 ^ 96 }
        ensures coded { result.coded ≤ self.coded + 2 ^ 96 }
    {
        Totals {
            rom: self.rom + table_bytes(slot),
            code: self.code + u128::from(cost.code),
            time: self.time + u128::from(cost.time),
            coded: self.coded + 1,
        }
    }

    /// With the slot of a number, where it is coded.
    fn with_number(
        self,
        plan: &Plan,
        index: &Index,
        costs: &[Cost],
        number: u32,
        slot: &Slot,
    ) -> Totals
        requires rom { self.rom + 2 ^ 96 ≤ 2 ^ 128 }
        requires code { self.code + 2 ^ 96 ≤ 2 ^ 128 }
        requires time { self.time + 2 ^ 96 ≤ 2 ^ 128 }
        requires coded { self.coded + 2 ^ 96 ≤ 2 ^ 128 }
        requires index { IsIndex plan.now index.now }
        ensures totals { result ≡ with_number_of plan.now costs.now self number slot.now }
        ensures rom { result.rom ≤ self.rom + 2 ^ 96 }
        ensures code { result.code ≤ self.code + 2 ^ 96 }
        ensures time { result.time ≤ self.time + 2 ^ 96 }
        ensures coded { result.coded ≤ self.coded + 2 ^ 96 }
    {
        if standing_in(plan, index, number).is_coded() {
            self.with_slot(slot, cost_at(costs, number as usize))
        } else {
            self
        }
    }
}

/// What the coded slots take together.
pub(crate) fn totals_in(plan: &Plan, index: &Index, slots: &[Slot], costs: &[Cost]) -> Totals
    requires few { length slots.now ≤ 2 ^ 32 }
    requires index { IsIndex plan.now index.now }
    ensures { result ≡ totals_of plan.now costs.now slots.now }
{
    let mut totals = Totals::nothing();
    let mut number: u64 = 0;
    let mut left = slots;
    while let [slot, rest @ ..] = left {
        totals = totals.with_number(plan, index, costs, number as u32, slot);
        number += 1;
        left = rest;
    }
    totals
}
