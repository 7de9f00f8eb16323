//! The first register and tracked cell that are equal at a point, and not where control comes from.

ghost use Rattle.std.specs.Prelude.{◌≡◌, ◌↔◌, ℕ, true, false, MatchOption, map, Some, None};
ghost use Rattle.std.specs.List.{flat_map, list_all};
ghost use Rattle.std.specs.Option.{option_copied};
ghost use Rattle.cc_rules_lacking.specs.First.{IsFirst, LacksFirst};
ghost use Rattle.cc_rules_asked.specs.CcRulesNeeds.Flowing.{each_pair, need_apart, numbers};
ghost use Rattle.cc_rules_asked.specs.CcRulesNeeds.Needs.{Has, HasAll};
ghost use Rattle.cc_rules_asked.specs.CcStateFacts.Facts.{fact_at, has_pair};
ghost use Rattle.cc_rules_asked.specs.CcStateFacts.Orders.{is_same};

use cc_program::num::at;
use cc_rules_asked::lattice::IntDomain;
use cc_rules_asked::rules_needs::{Need, Part, Slot, has};
use cc_rules_asked::state_facts::{Facts, PointFact, is_pair};

/// Whether a register and a tracked cell are to be apart, and are not.
fn lacks_apart<I: IntDomain>(
    facts: &Facts<I>,
    point: u32,
    flow: &PointFact<I>,
    register: u32,
    cell: u32,
) -> bool
    ensures lacks { result ≡ true → (has_pair flow.now register cell ≡ false) × (Has I.IsBelow facts.now (Slot.Apart point register cell, Part.Mark true) → ⊥) }
    ensures has { result ≡ false → HasAll I.IsBelow (need_apart point (has_pair flow.now) (register, cell)) facts.now }
{
    if is_pair(flow, register, cell) {
        return false;
    }
    let need: Need<I> = (Slot::Apart(point, register, cell), Part::Mark(true));
    !has(facts, &need)
}

/// The first tracked cell from which a register is not apart.
fn first_cell<I: IntDomain>(
    facts: &Facts<I>,
    point: u32,
    flow: &PointFact<I>,
    register: u32,
    cells: u32,
) -> Option<u32>
    ensures { MatchOption result (HasAll I.IsBelow (flat_map (need_apart point (has_pair flow.now)) (map (λ j. (register, j)) (numbers 0 cells))) facts.now)
        (λ j. IsFirst I.IsBelow (flat_map (need_apart point (has_pair flow.now)) (map (λ j. (register, j)) (numbers 0 cells))) facts.now (Slot.Apart point register j, Part.Mark true)) }
{
    for cell in 0..cells {
        if lacks_apart(facts, point, flow, register, cell) {
            return Some(cell);
        }
    }
    None
}

/// What a point lacks first of what is to be apart there, register by register.
fn first_apart<I: IntDomain>(
    facts: &Facts<I>,
    point: u32,
    flow: &PointFact<I>,
    registers: u32,
    cells: u32,
) -> Option<Need<I>>
    ensures { LacksFirst I.IsBelow (flat_map (need_apart point (has_pair flow.now)) (each_pair registers cells)) facts.now result }
{
    for register in 0..registers {
        match first_cell(facts, point, flow, register, cells) {
            None => {}
            Some(cell) => return Some((Slot::Apart(point, register, cell), Part::Mark(true))),
        }
    }
    None
}

/// Whether some pairs all flow to a point.
fn are_pairs<I>(flow: &PointFact<I>, pairs: &[(u32, u32)]) -> bool
    ensures { result ≡ list_all (is_same flow.now) pairs.now }
{
    for pair in pairs {
        if !is_pair(flow, pair.0, pair.1) {
            return false;
        }
    }
    true
}

/// What is known at a point.
fn fact<I>(facts: &Facts<I>, point: u32) -> Option<&PointFact<I>>
    ensures { option_copied result ≡ fact_at facts.now point }
{
    at(facts.at.all(), point as usize)?.as_ref()
}

/// Whether a point is reached, and has no pairs but those that flow there.
fn has_all_apart<I: IntDomain>(facts: &Facts<I>, point: u32, flow: &PointFact<I>) -> bool
    ensures { result ≡ true → (r j : ℕ) → has_pair flow.now r j ≡ false → Has I.IsBelow facts.now (Slot.Apart point r j, Part.Mark true) }
{
    match fact(facts, point) {
        None => false,
        Some(known) => are_pairs(flow, known.same.all()),
    }
}

/// What a point lacks first of what is to be apart there.
pub(crate) fn lacking_apart<I: IntDomain>(
    facts: &Facts<I>,
    point: u32,
    flow: &PointFact<I>,
    registers: u32,
    cells: u32,
) -> Option<Need<I>>
    ensures { LacksFirst I.IsBelow (flat_map (need_apart point (has_pair flow.now)) (each_pair registers cells)) facts.now result }
{
    if has_all_apart(facts, point, flow) {
        None
    } else {
        first_apart(facts, point, flow, registers, cells)
    }
}
