//! Pairs of registers and tracked cells that are equal.

ghost use Rattle.std.specs.Prelude.{◌≡◌, IfOk};
ghost use Rattle.std.specs.List.{filter, list_all};
ghost use Rattle.cc_state_facts.specs.Orders.{is_same};
ghost use Rattle.cc_state_facts.specs.Facts.{has_pair};

use crate::facts::PointFact;
use cc_program::num::NoMemory;
use std::alloc::Global;

/// Whether a register and a tracked cell are a pair.
pub fn is_pair<I>(fact: &PointFact<I>, register: u32, cell: u32) -> bool
    ensures { result ≡ has_pair fact.now register cell }
{
    for pair in fact.same.all() {
        if pair.0 == register && pair.1 == cell {
            return true;
        }
    }
    false
}

/// Whether some pairs are all a fact's.
pub(crate) fn are_pairs<I>(fact: &PointFact<I>, pairs: &[(u32, u32)]) -> bool
    ensures { result ≡ list_all (is_same fact.now) pairs.now }
{
    for pair in pairs {
        if !is_pair(fact, pair.0, pair.1) {
            return false;
        }
    }
    true
}

/// Those of some pairs that are a fact's, in order.
pub(crate) fn common_pairs<I>(
    alloc: Global,
    pairs: &[(u32, u32)],
    fact: &PointFact<I>,
) -> Result<Vec<(u32, u32)>, NoMemory>
    ensures { IfOk result (λ common. common.items ≡ filter (is_same fact.now) pairs.now) }
{
    let mut common = Vec::new(alloc);
    for pair in pairs {
        if is_pair(fact, pair.0, pair.1) {
            common.push(*pair)?;
        }
    }
    Ok(common)
}
