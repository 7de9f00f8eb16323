//! What facts lack first of all that is asked of them.

ghost use Rattle.std.specs.Prelude.{◌≡◌, [], ◌∷◌, length, IfOk};
ghost use Rattle.cc_program.specs.declared.program.Program.{Program};
ghost use Rattle.cc_rules_asked.specs.Asked.{all_needs, needs_of};
ghost use Rattle.cc_rules_lacking.specs.First.{LacksFirst};
ghost use Rattle.cc_rules_asked.specs.CcStateKeys.Tracked.{tracked};

use crate::points::lacking_at;
use crate::values::copied_part;
use cc_program::num::NoMemory;
use cc_rules_asked::Asked;
use cc_rules_asked::lattice::IntDomain;
use cc_rules_asked::rules_needs::{Need, Part, Slot, has};
use cc_rules_asked::state_facts::Facts;
use std::alloc::Global;

/// Of a part of a slot.
fn lacking_part<I: IntDomain>(
    alloc: Global,
    facts: &Facts<I>,
    slot: Slot,
    part: &Part<I>,
) -> Result<Option<Need<I>>, NoMemory>
    ensures { IfOk result (λ lacking. LacksFirst I.IsBelow ((slot, part.now) ∷ []) facts.now lacking) }
{
    let copy = copied_part(alloc, part)?;
    let need: Need<I> = (slot, copy);
    if has(facts, &need) {
        Ok(None)
    } else {
        Ok(Some(need))
    }
}

/// Of one thing that is asked, of facts about a program with so many tracked cells.
fn lacking_of<I: IntDomain>(
    alloc: Global,
    facts: &Facts<I>,
    cells: u32,
    asked: &Asked<I>,
) -> Result<Option<Need<I>>, NoMemory>
    ensures { IfOk result (λ lacking. (p : Program) → length (tracked p) ≡ cells → LacksFirst I.IsBelow (needs_of p asked.now) facts.now lacking) }
{
    match asked {
        Asked::Part(slot, part) => lacking_part(alloc, facts, *slot, part),
        Asked::Point {
            number,
            registers,
            flow,
        } => lacking_at(alloc, facts, *number, flow, *registers, cells),
    }
}

/// What facts lack first of what is asked of them, slot by slot, where the program has so many tracked cells. None where they have
/// all. The only error is want of memory.
pub fn first_lacking_asked<I: IntDomain>(
    alloc: Global,
    facts: &Facts<I>,
    cells: u32,
    asked: &[Asked<I>],
) -> Result<Option<Need<I>>, NoMemory>
    ensures { IfOk result (λ lacking. (p : Program) → length (tracked p) ≡ cells → LacksFirst I.IsBelow (all_needs p asked.now) facts.now lacking) }
{
    for one in asked {
        let lacking = lacking_of(alloc, facts, cells, one)?;
        match lacking {
            None => {}
            Some(need) => return Ok(Some(need)),
        }
    }
    Ok(None)
}
