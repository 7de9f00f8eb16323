//! The first register, and the first tracked cell, of which a point lacks values.

ghost use Rattle.std.specs.Prelude.{◌≡◌, ◌↔◌, IsTrue, IfOk, MatchOption, map};
ghost use Rattle.std.specs.Option.{option_copied};
ghost use Rattle.cc_rules_lacking.specs.First.{IsFirst, LacksFirst};
ghost use Rattle.cc_rules_asked.specs.CcRulesNeeds.Flowing.{of_fact, need_local, need_cell, numbers};
ghost use Rattle.cc_rules_asked.specs.CcRulesNeeds.Needs.{Has, HasAll};
ghost use Rattle.cc_rules_asked.specs.CcStateFacts.Facts.{local_of as local_of_fact};

use crate::values::{copied_values, has_values};
use cc_program::num::{NoMemory, at};
use cc_rules_asked::lattice::IntDomain;
use cc_rules_asked::places::Abs;
use cc_rules_asked::rules_needs::{Need, Part, Slot};
use cc_rules_asked::state_facts::{Facts, PointFact};
use std::alloc::Global;

/// The set of a register.
fn local_of<I>(flow: &PointFact<I>, register: u32) -> Option<&Abs<I>>
    ensures { option_copied result ≡ local_of_fact flow.now register }
{
    let set = at(flow.locals.all(), register as usize)?;
    Some(set.get())
}

/// Whether a point has what flows to it of a register.
fn has_local<I: IntDomain>(facts: &Facts<I>, point: u32, flow: &PointFact<I>, register: u32) -> bool
    ensures { IsTrue result ↔ Has I.IsBelow facts.now (need_local point (of_fact flow.now) register) }
{
    has_values(local_of(flow, register), facts.local(point, register))
}

/// Whether a point has what flows to it of a tracked cell.
fn has_cell<I: IntDomain>(facts: &Facts<I>, point: u32, flow: &PointFact<I>, cell: u32) -> bool
    ensures { IsTrue result ↔ Has I.IsBelow facts.now (need_cell point (of_fact flow.now) cell) }
{
    has_values(flow.cell(cell), facts.cell(point, cell))
}

/// The first register of which it has not.
fn first_local<I: IntDomain>(
    facts: &Facts<I>,
    point: u32,
    flow: &PointFact<I>,
    registers: u32,
) -> Option<u32>
    ensures { MatchOption result (HasAll I.IsBelow (map (need_local point (of_fact flow.now)) (numbers 0 registers)) facts.now) (λ r. IsFirst I.IsBelow (map (need_local point (of_fact flow.now)) (numbers 0 registers)) facts.now (need_local point (of_fact flow.now) r)) }
{
    for register in 0..registers {
        if !has_local(facts, point, flow, register) {
            return Some(register);
        }
    }
    None
}

/// The first tracked cell of which it has not.
fn first_cell<I: IntDomain>(
    facts: &Facts<I>,
    point: u32,
    flow: &PointFact<I>,
    cells: u32,
) -> Option<u32>
    ensures { MatchOption result (HasAll I.IsBelow (map (need_cell point (of_fact flow.now)) (numbers 0 cells)) facts.now) (λ j. IsFirst I.IsBelow (map (need_cell point (of_fact flow.now)) (numbers 0 cells)) facts.now (need_cell point (of_fact flow.now) j)) }
{
    for cell in 0..cells {
        if !has_cell(facts, point, flow, cell) {
            return Some(cell);
        }
    }
    None
}

/// What a point lacks first of what flows to it of registers.
pub(crate) fn lacking_local<I: IntDomain>(
    alloc: Global,
    facts: &Facts<I>,
    point: u32,
    flow: &PointFact<I>,
    registers: u32,
) -> Result<Option<Need<I>>, NoMemory>
    ensures { IfOk result (λ lacking. LacksFirst I.IsBelow (map (need_local point (of_fact flow.now)) (numbers 0 registers)) facts.now lacking) }
{
    match first_local(facts, point, flow, registers) {
        None => Ok(None),
        Some(register) => {
            let values = copied_values(alloc, local_of(flow, register))?;
            Ok(Some((Slot::LocalAt(point, register), Part::Values(values))))
        }
    }
}

/// What it lacks first of what flows to it of tracked cells.
pub(crate) fn lacking_cell<I: IntDomain>(
    alloc: Global,
    facts: &Facts<I>,
    point: u32,
    flow: &PointFact<I>,
    cells: u32,
) -> Result<Option<Need<I>>, NoMemory>
    ensures { IfOk result (λ lacking. LacksFirst I.IsBelow (map (need_cell point (of_fact flow.now)) (numbers 0 cells)) facts.now lacking) }
{
    match first_cell(facts, point, flow, cells) {
        None => Ok(None),
        Some(cell) => {
            let values = copied_values(alloc, flow.cell(cell))?;
            Ok(Some((Slot::CellAt(point, cell), Part::Values(values))))
        }
    }
}
