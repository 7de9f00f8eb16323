//! What a point lacks first of what flows there.

ghost use Rattle.std.specs.Prelude.{◌≡◌, ◌↔◌, ◌++◌, IsTrue, map, IfOk};
ghost use Rattle.std.specs.List.{flat_map};
ghost use Rattle.cc_rules_lacking.specs.First.{LacksFirst};
ghost use Rattle.cc_rules_asked.specs.CcRulesNeeds.Flowing.{of_fact, each_pair, need_apart, need_cell, need_local, needs_at, numbers};
ghost use Rattle.cc_rules_asked.specs.CcRulesNeeds.Needs.{Has};
ghost use Rattle.cc_rules_asked.specs.CcStateFacts.Facts.{has_pair};

use crate::apart::lacking_apart;
use crate::sets::{lacking_cell, lacking_local};
use cc_program::num::NoMemory;
use cc_rules_asked::lattice::IntDomain;
use cc_rules_asked::rules_needs::{Need, Part, Slot, has};
use cc_rules_asked::state_facts::{Facts, PointFact};
use std::alloc::Global;

/// Of tracked cells, and of pairs.
fn lacking_of_cells<I: IntDomain>(
    alloc: Global,
    facts: &Facts<I>,
    point: u32,
    flow: &PointFact<I>,
    registers: u32,
    cells: u32,
) -> Result<Option<Need<I>>, NoMemory>
    ensures { IfOk result (λ lacking. LacksFirst I.IsBelow (map (need_cell point (of_fact flow.now)) (numbers 0 cells) ++ flat_map (need_apart point (has_pair flow.now)) (each_pair registers cells)) facts.now lacking) }
{
    let first = lacking_cell(alloc, facts, point, flow, cells)?;
    match first {
        Some(need) => Ok(Some(need)),
        None => Ok(lacking_apart(facts, point, flow, registers, cells)),
    }
}

/// Of registers, and of those.
fn lacking_of_sets<I: IntDomain>(
    alloc: Global,
    facts: &Facts<I>,
    point: u32,
    flow: &PointFact<I>,
    registers: u32,
    cells: u32,
) -> Result<Option<Need<I>>, NoMemory>
    ensures { IfOk result (λ lacking. LacksFirst I.IsBelow
        (map (need_local point (of_fact flow.now)) (numbers 0 registers) ++ (map (need_cell point (of_fact flow.now)) (numbers 0 cells) ++ flat_map (need_apart point (has_pair flow.now)) (each_pair registers cells)))
        facts.now lacking) }
{
    let first = lacking_local(alloc, facts, point, flow, registers)?;
    match first {
        Some(need) => Ok(Some(need)),
        None => lacking_of_cells(alloc, facts, point, flow, registers, cells),
    }
}

/// Whether it has the flag as it flows there.
fn has_flag<I: IntDomain>(facts: &Facts<I>, point: u32, flow: &PointFact<I>) -> bool
    ensures { IsTrue result ↔ Has I.IsBelow facts.now (Slot.Flag point, Part.Flags flow.now.off flow.now.on) }
{
    let need: Need<I> = (Slot::Flag(point), Part::Flags(flow.off, flow.on));
    has(facts, &need)
}

/// Of all that flows there.
pub(crate) fn lacking_at<I: IntDomain>(
    alloc: Global,
    facts: &Facts<I>,
    point: u32,
    flow: &PointFact<I>,
    registers: u32,
    cells: u32,
) -> Result<Option<Need<I>>, NoMemory>
    ensures { IfOk result (λ lacking. LacksFirst I.IsBelow (needs_at point registers cells (of_fact flow.now)) facts.now lacking) }
{
    if has_flag(facts, point, flow) {
        lacking_of_sets(alloc, facts, point, flow, registers, cells)
    } else {
        Ok(Some((Slot::Flag(point), Part::Flags(flow.off, flow.on))))
    }
}
