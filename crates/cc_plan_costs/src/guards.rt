//! Which accesses of a slot are guarded.

ghost use Rattle.std.specs.Prelude.{◌≡◌};
ghost use Rattle.std.specs.Option.{option_copied};
ghost use Rattle.cc_plan_costs.specs.Guards.{against_access as against_access_of, against_change as against_change_of, against_write as against_write_of, from_at as from_at_of, is_entered as is_entered_of, is_shared as is_shared_of, is_written as is_written_of, keeps_bits as keeps_bits_of, levels_to as levels_to_of, running_at as running_at_of, word_bytes as word_bytes_of};
ghost use Rattle.cc_plan_legal.specs.Short.{element_bits as element_bits_of};
ghost use Rattle.cc_slots_accesses.specs.Arrays.{is_array as is_array_of};
ghost use Rattle.cc_slots_accesses.specs.Known.{may_be_on as may_be_on_of};
ghost use Rattle.cc_rules_flows.specs.CcStateFacts.Facts.{fact_at as fact_at_of, levels_of as levels_of_number};

use crate::weights::func_of;
use cc_program::Program;
use cc_program::num::at;
use cc_rules_flows::flow::Point;
use cc_rules_flows::state_facts::{Facts, Key, PointFact, levels_of_both, one_may_enter};
use cc_slots_accesses::array_length;
use cc_slots_types::{Class, Slot};

/// What is known at a point.
fn fact_at<I>(facts: &Facts<I>, n: u32) -> Option<&PointFact<I>>
    ensures { option_copied result ≡ fact_at_of facts.now n }
{
    at(facts.at.all(), n as usize)?.as_ref()
}

/// Whether the flag may be on at a point.
fn may_be_on<I>(facts: &Facts<I>, n: u32) -> bool
    ensures { result ≡ may_be_on_of (fact_at_of facts.now n) }
{
    match fact_at(facts, n) {
        None => false,
        Some(fact) => fact.on,
    }
}

fn levels_of(sets: &[u8], id: u32) -> u8
    ensures { result ≡ levels_of_number sets.now id }
{
    match at(sets, id as usize) {
        None => 0,
        Some(levels) => *levels,
    }
}

/// The levels at which a point's function may run.
fn running_at<I>(points: &[Point], facts: &Facts<I>, n: u32) -> u8
    ensures { result ≡ running_at_of points.now facts.now n }
{
    levels_of(facts.levels.all(), func_of(points, n))
}

/// Those of the innermost handlers from which it may be reached.
fn from_at<I>(points: &[Point], facts: &Facts<I>, n: u32) -> u8
    ensures { result ≡ from_at_of points.now facts.now n }
{
    levels_of(facts.from.all(), func_of(points, n))
}

/// The levels of the handlers from which one of some points is reached.
fn levels_to<I>(points: &[Point], facts: &Facts<I>, these: &[u32]) -> u8
    ensures { result ≡ levels_to_of points.now facts.now these.now }
{
    let mut levels: u8 = 0;
    for n in these {
        levels = levels_of_both(levels, from_at(points, facts, *n));
    }
    levels
}

/// Whether a handler of one of some levels may enter at a point.
pub(crate) fn is_entered<I>(points: &[Point], facts: &Facts<I>, levels: u8, n: u32) -> bool
    ensures { result ≡ is_entered_of points.now facts.now levels n }
{
    may_be_on(facts, n) && one_may_enter(running_at(points, facts, n), levels)
}

fn is_shared(class: Class) -> bool
    ensures { result ≡ is_shared_of class }
{
    match class {
        Class::Lone => false,
        Class::Read | Class::Written => true,
    }
}

fn is_written(class: Class) -> bool
    ensures { result ≡ is_written_of class }
{
    match class {
        Class::Lone | Class::Read => false,
        Class::Written => true,
    }
}

fn word_bytes(bits: u32) -> u8
    ensures { result ≡ word_bytes_of bits }
{
    if 8 < bits { 2 } else { 1 }
}

fn element_bits(bits: u32) -> u32
    ensures { result ≡ element_bits_of bits }
{
    match bits {
        0..=2 => bits,
        3 | 4 => 4,
        5..=8 => 8,
        _ => 16,
    }
}

/// Whether a write has to keep other bits.
fn keeps_bits(is_array: bool, bits: u32) -> bool
    ensures { result ≡ keeps_bits_of is_array bits }
{
    !is_array || element_bits(bits) < 8
}

pub(crate) fn is_array(p: &Program, key: Key) -> bool
    ensures { result ≡ is_array_of p.now key }
{
    array_length(p, key).is_some()
}

/// The levels of the handlers that access a slot, where an interrupt divides an access to its word.
pub(crate) fn against_access<I>(points: &[Point], facts: &Facts<I>, p: &Program, slot: &Slot) -> u8
    ensures { result ≡ against_access_of points.now facts.now p.now slot.now }
{
    if p.target.atomic_bytes < word_bytes(slot.bits) && is_shared(slot.class) {
        let reading = levels_to(points, facts, slot.reads.all());
        levels_of_both(reading, levels_to(points, facts, slot.writes.all()))
    } else {
        0
    }
}

/// The levels of the handlers that write a slot, where a write reads and changes its word.
fn against_change<I>(points: &[Point], facts: &Facts<I>, p: &Program, slot: &Slot) -> u8
    ensures { result ≡ against_change_of points.now facts.now p.now slot.now }
{
    if keeps_bits(is_array(p, slot.key), slot.bits) && is_written(slot.class) {
        levels_to(points, facts, slot.writes.all())
    } else {
        0
    }
}

/// The levels of the handlers against which a write is guarded.
pub(crate) fn against_write<I>(points: &[Point], facts: &Facts<I>, p: &Program, slot: &Slot) -> u8
    ensures { result ≡ against_write_of points.now facts.now p.now slot.now }
{
    levels_of_both(
        against_access(points, facts, p, slot),
        against_change(points, facts, p, slot),
    )
}
