//! The flag as a set of numbers.

ghost use Rattle.cc_rules_flows.specs.Flag.{IsFlagOf};
ghost use Rattle.std.specs.Prelude.{IfOk};
ghost use Rattle.cc_state_reads.specs.CcStateOperators.Domains.{domain, IsHull};

use cc_program::num::NoMemory;
use cc_state_reads::lattice::{IntDomain, Lattice};
use std::alloc::Global;

/// 0 where the flag may be off, and 1 where it may be on.
pub(crate) fn flag_set<I: IntDomain>(alloc: Global, off: bool, on: bool) -> Result<I, NoMemory>
    ensures { IfOk result (λ x. IsHull (domain I.Has I.IsBelow I.OpGives I.OpOneGives I.ToGives I.KeepGives I.members_of) (IsFlagOf off on) x) }
{
    if off {
        if on {
            let cleared = I::one(alloc, 0);
            let set = I::one(alloc, 1);
            cleared.join(alloc, &set)
        } else {
            Ok(I::one(alloc, 0))
        }
    } else if on {
        Ok(I::one(alloc, 1))
    } else {
        Ok(I::none(alloc))
    }
}
