//! What is asked of facts.

ghost use Rattle.std.specs.Prelude.{◌≡◌, [], ◌∷◌, IfOk};

use cc_program::num::NoMemory;
use cc_rules::lattice::IntDomain;
use cc_rules::rules_needs::{Part, Slot};
use cc_rules::state_facts::PointFact;
use std::alloc::Global;

/// What is asked of facts, slot by slot or for a point as a whole.
#[derive(Drop)]
pub enum Asked<I> {
    /// That a slot has at least a part.
    Part(Slot, Part<I>),
    /// That a point has all that flows there.
    Point {
        /// Its number.
        number: u32,
        /// How many registers its function has. What flows there may tell less of them: nothing is needed of the others.
        registers: u32,
        flow: PointFact<I>,
    },
}

/// One part alone.
pub fn only_part<I: IntDomain>(
    alloc: Global,
    slot: Slot,
    part: Part<I>,
) -> Result<Vec<Asked<I>>, NoMemory>
    ensures { IfOk result (λ asked. asked.items ≡ Asked.Part slot part ∷ []) }
{
    let mut asked = Vec::new(alloc);
    asked.push(Asked::Part(slot, part))?;
    Ok(asked)
}
