//! The slots of one fate, and the slots that are to have fields.

ghost use Rattle.std.specs.Prelude.{◌≡◌, ◌≤◌, ◌^◌, All, IfOk, IsSorted, length};
ghost use Rattle.std.specs.Ordering.{nat_cmp};
ghost use Rattle.cc_plan_choice.specs.Fates.{has_fate as has_fate_of, slots_with as slots_with_of, want_of as want_of_slot, wants_from};

use crate::fate::{Fate, fate_of, is_wanted};
use cc_bins::Want;
use cc_plan_legal::Candidate;
use cc_program::num::NoMemory;
use std::alloc::Global;

fn has_fate(taken: &[u32], fielded: &[u32], fate: Fate, slot: u32, candidate: &Candidate) -> bool
    requires taken { IsSorted nat_cmp taken.now }
    requires fielded { IsSorted nat_cmp fielded.now }
    ensures { result ≡ has_fate_of taken.now fielded.now fate slot candidate.now }
{
    fate_of(taken, fielded, slot, candidate).number() == fate.number()
}

/// The slots of one fate.
pub(crate) fn slots_with(
    alloc: Global,
    slots: &[Candidate],
    taken: &[u32],
    fielded: &[u32],
    fate: Fate,
) -> Result<Vec<u32>, NoMemory>
    requires few { length slots.now ≤ 2 ^ 32 }
    requires taken { IsSorted nat_cmp taken.now }
    requires fielded { IsSorted nat_cmp fielded.now }
    ensures { IfOk result (λ r. r.items ≡ slots_with_of taken.now fielded.now fate slots.now) }
{
    let mut chosen = Vec::new(alloc);
    let mut number: u64 = 0;
    let mut left = slots;
    while let [candidate, rest @ ..] = left {
        if has_fate(taken, fielded, fate, number as u32, candidate) {
            chosen.push(number as u32)?;
        }
        number += 1;
        left = rest;
    }
    Ok(chosen)
}

/// How a slot is to be placed.
fn want_of(slot: u32, candidate: &Candidate) -> Want
    requires { candidate.now.bits ≤ 16 }
    ensures { result ≡ want_of_slot slot candidate.now }
{
    Want {
        group: candidate.group,
        slot,
        bits: candidate.bits as u8,
        bytes: candidate.bytes,
    }
}

/// The slots that are to have fields.
pub(crate) fn wants(
    alloc: Global,
    slots: &[Candidate],
    taken: &[u32],
) -> Result<Vec<Want>, NoMemory>
    requires few { length slots.now ≤ 2 ^ 32 }
    requires taken { IsSorted nat_cmp taken.now }
    requires bits { All (λ x. x.bits ≤ 16) (wants_from taken.now 0 slots.now) }
    ensures { IfOk result (λ r. r.items ≡ wants_from taken.now 0 slots.now) }
{
    let mut wanted = Vec::new(alloc);
    let mut number: u64 = 0;
    let mut left = slots;
    while let [candidate, rest @ ..] = left {
        if is_wanted(taken, number as u32, candidate) {
            wanted.push(want_of(number as u32, candidate))?;
        }
        number += 1;
        left = rest;
    }
    Ok(wanted)
}
