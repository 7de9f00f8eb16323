//! The slots of a program, by facts about it.

ghost use Rattle.std.specs.Prelude.{◌≡◌, ◌≤◌, ◌<◌, ℕ, Some, length, slice_get, IfOk};
ghost use Rattle.std.specs.List.{Contains};
ghost use Rattle.cc_state_points.specs.CcFlow.Points.{count_of, flow_of};
ghost use Rattle.cc_layout.specs.Seats.{ram as ram_of};
ghost use Rattle.cc_slots.specs.Domain.{vals_domain};
ghost use Rattle.cc_slots.specs.Keys.{slot_keys as slot_keys_of};
ghost use Rattle.cc_slots.specs.Made.{IsMadeSlot};
ghost use Rattle.cc_slots.specs.Marks.{AreMarks};
ghost use Rattle.cc_slots.specs.Slots.{AreSlots, AreSlotsOf, IsSlotOf};
ghost use Rattle.cc_slots_accesses.specs.Puts.{of_number};
ghost use Rattle.cc_slots_points.specs.Lists.{AreLists};
ghost use Rattle.cc_slots_structures.specs.Standings.{AreStandings};
ghost use Rattle.cc_state_points.specs.CcState.Shape.{HaveShape, IsSlot};
ghost use Rattle.cc_state_points.specs.CcStateKeys.Addressed.{taken_keys as taken_keys_of};
ghost use Rattle.cc_state_points.specs.CcStateKeys.Keys.{key_number as key_number_of, keys_of};
ghost use Rattle.cc_state_points.specs.CcSyntax.Normal.{IsNormal};

use crate::addressed::{addressed, mark_of};
use crate::codes::code_of;
use crate::counts::{scalar_bytes, scalar_count, slot_name};
use crate::findings::findings_of;
use crate::first::first_reason;
use crate::judged::{class_of, reads, writes};
use crate::keys::slot_keys;
use cc_program::Program;
use cc_program::num::{List, NoMemory, at};
use cc_sets::Vals;
use cc_slots_accesses::Access;
use cc_slots_points::accesses;
use cc_slots_structures::{Standing, standings};
use cc_slots_types::Slot;
use cc_state_points::flow::Flow;
use cc_state_points::lattice::copied;
use cc_state_points::places::Abs;
use cc_state_points::state_facts::{Facts, Key};
use cc_state_points::state_keys::key_number;
use std::alloc::Global;

/// A slot, of which all accesses, whether its address is taken, and its values in the whole run are given.
fn made_slot(
    alloc: Global,
    p: &Program,
    standings: &[Standing],
    key: Key,
    accesses: &[Access],
    is_addressed: bool,
    values: &Abs<Vals>,
) -> Result<Slot, NoMemory>
    requires standings { AreStandings p.now standings.now }
    requires slot { IsSlot p.now key }
    ensures { IfOk result (IsMadeSlot p.now key accesses.now is_addressed values.now) }
{
    let bytes = scalar_bytes(p, key);
    let code = code_of(key, values, bytes);
    let count = scalar_count(p, standings, key);
    let class = class_of(accesses);
    let findings = findings_of(
        p,
        standings,
        key,
        accesses,
        is_addressed,
        class,
        code,
        count,
        bytes,
    );
    Ok(Slot {
        name: slot_name(alloc, p, key)?,
        key,
        class,
        values: copied(alloc, values)?,
        count,
        bytes,
        bits: code.bits,
        reads: reads(alloc, accesses)?,
        writes: writes(alloc, accesses)?,
        reason: first_reason(findings),
    })
}

/// The number of a key that the program has.
fn number_of(p: &Program, keys: &[Key], key: Key) -> usize
    requires keys { keys.now ≡ keys_of p.now }
    requires there { (n : ℕ) × (key_number_of p.now key ≡ Some n) }
    ensures { key_number_of p.now key ≡ Some result }
{
    match key_number(keys, key) {
        None => unreachable!(),
        Some(number) => number,
    }
}

/// The accesses of a key, by its number.
fn accesses_of(lists: &[List<Access>], number: usize) -> &[Access]
    ensures { result.now ≡ of_number lists.now number }
{
    match at(lists, number) {
        None => &[],
        Some(list) => list.all(),
    }
}

/// The values of a key in the whole run, by its number.
fn values_of(facts: &Facts<Vals>, number: usize) -> &Abs<Vals>
    requires { number < length facts.now.whole }
    ensures { slice_get facts.now.whole number ≡ Some result.now }
{
    match at(facts.whole.all(), number) {
        None => unreachable!(),
        Some(values) => values,
    }
}

/// The slot of a key, of which the accesses are given by its number, and whether its address is taken.
fn slot_of(
    alloc: Global,
    p: &Program,
    facts: &Facts<Vals>,
    standings: &[Standing],
    marks: &[bool],
    lists: &[List<Access>],
    key: Key,
) -> Result<Slot, NoMemory>
    requires low { ram_of p.now ≤ 65536 }
    requires shape { HaveShape vals_domain p.now facts.now }
    requires standings { AreStandings p.now standings.now }
    requires marks { AreMarks p.now (taken_keys_of p.now) marks.now }
    requires lists { AreLists vals_domain p.now facts.now lists.now }
    requires slot { Contains (slot_keys_of p.now) key }
    ensures key { IfOk result (λ slot. slot.key ≡ key) }
    ensures slot { IfOk result (IsSlotOf p.now vals_domain facts.now) }
{
    let number = number_of(p, facts.keys.all(), key);
    made_slot(
        alloc,
        p,
        standings,
        key,
        accesses_of(lists, number),
        mark_of(marks, number),
        values_of(facts, number),
    )
}

/// The slots of the keys of a program's slots.
fn slots_of(
    alloc: Global,
    p: &Program,
    facts: &Facts<Vals>,
    standings: &[Standing],
    marks: &[bool],
    lists: &[List<Access>],
    keys: &[Key],
) -> Result<Vec<Slot>, NoMemory>
    requires low { ram_of p.now ≤ 65536 }
    requires shape { HaveShape vals_domain p.now facts.now }
    requires standings { AreStandings p.now standings.now }
    requires marks { AreMarks p.now (taken_keys_of p.now) marks.now }
    requires lists { AreLists vals_domain p.now facts.now lists.now }
    requires keys { keys.now ≡ slot_keys_of p.now }
    ensures { IfOk result (λ slots. AreSlotsOf p.now vals_domain facts.now keys.now slots.items) }
{
    let mut slots = Vec::new(alloc);
    for key in keys {
        slots.push(slot_of(alloc, p, facts, standings, marks, lists, *key)?)?;
    }
    Ok(slots)
}

/// The slots of a program, in their order: which functions access each, the values that it may have, how long their code is, and why it is
/// not coded; by facts of the program's shape. The only error is want of memory.
pub fn slots(
    alloc: Global,
    p: &Program,
    flow: &Flow,
    facts: &Facts<Vals>,
) -> Result<Vec<Slot>, NoMemory>
    requires normal { IsNormal p.now }
    requires few { count_of p.now ≤ 65536 }
    requires low { ram_of p.now ≤ 65536 }
    requires flow { flow.now ≡ flow_of p.now }
    requires shape { HaveShape vals_domain p.now facts.now }
    ensures { IfOk result (λ slots. AreSlots p.now vals_domain facts.now slots.items) }
{
    let lists = accesses(alloc, p, flow, facts)?;
    let standings = standings(alloc, p)?;
    let marks = addressed(alloc, p, facts.keys.all())?;
    let keys = slot_keys(alloc, p)?;
    slots_of(alloc, p, facts, &standings, &marks, &lists, &keys)
}
