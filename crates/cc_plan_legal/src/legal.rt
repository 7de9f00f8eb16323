//! Whether a plan is legal.

ghost use Rattle.std.specs.Prelude.{◌≡◌, ◌≤◌, ◌^◌, IfOk, length};
ghost use Rattle.cc_plan_legal.specs.Index.{IsIndex};
ghost use Rattle.cc_plan_legal.specs.Legality.{first_illegal as first_illegal_of};

use crate::candidate::Candidate;
use crate::index::{Index, index_of};
use crate::kinds::Plan;
use crate::rules::breaks;
use cc_program::num::NoMemory;
use std::alloc::Global;

/// A slot that breaks a rule, and the least rule that it breaks: what it has, and what it would need.
#[derive(Clone, Copy)]
pub struct Illegal {
    pub slot: u32,
    pub rule: u8,
    pub have: u64,
    pub need: u64,
}

/// The first slot that breaks a rule, where the index is the plan's.
fn first_breach(slots: &[Candidate], plan: &Plan, index: &Index) -> Option<Illegal>
    requires few { length slots.now ≤ 2 ^ 32 }
    requires index { IsIndex plan.now index.now }
    ensures { result ≡ first_illegal_of slots.now plan.now }
{
    let mut number: u64 = 0;
    let mut left = slots;
    while let [candidate, rest @ ..] = left {
        let breach = breaks(slots, plan, index, number as u32, candidate);
        if breach.is_some() {
            return breach;
        }
        number += 1;
        left = rest;
    }
    None
}

/// The first slot of a plan that breaks a rule, and the least rule that it breaks. None where the plan is legal.
pub fn first_illegal(
    alloc: Global,
    slots: &[Candidate],
    plan: &Plan,
) -> Result<Option<Illegal>, NoMemory>
    requires { length slots.now ≤ 2 ^ 32 }
    ensures { IfOk result (λ breach. breach ≡ first_illegal_of slots.now plan.now) }
{
    let index = index_of(alloc, plan)?;
    Ok(first_breach(slots, plan, &index))
}
