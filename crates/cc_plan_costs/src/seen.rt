//! The slots of a program as plans see them.

ghost use Rattle.std.specs.Prelude.{◌≡◌, IfOk, map};
ghost use Rattle.cc_plan_legal.specs.Candidates.{candidate_of as candidate_of_slot};
ghost use Rattle.cc_slots_accesses.specs.Arrays.{is_array as is_array_of};

use crate::guards::is_array;
use cc_plan_legal::{Candidate, candidate_of};
use cc_program::Program;
use cc_program::num::NoMemory;
use cc_slots_types::Slot;
use std::alloc::Global;

/// The slots of a program as plans see them, in their order. The only error is want of memory.
pub fn candidates(alloc: Global, p: &Program, slots: &[Slot]) -> Result<Vec<Candidate>, NoMemory>
    ensures { IfOk result (λ seen. seen.items ≡ map (λ slot. candidate_of_slot slot (is_array_of p.now slot.key)) slots.now) }
{
    let mut seen = Vec::new(alloc);
    for slot in slots {
        seen.push(candidate_of(slot, is_array(p, slot.key)))?;
    }
    Ok(seen)
}
