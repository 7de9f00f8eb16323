//! Sets of values.

ghost use Rattle.std.specs.Prelude.{◌≡◌, IfOk};

use cc_program::num::NoMemory;
use cc_rules::lattice::{IntDomain, copied};
use cc_rules::places::Abs;
use std::alloc::Global;

/// A copy.
pub fn copied_set<I: IntDomain>(alloc: Global, set: &Abs<I>) -> Result<Abs<I>, NoMemory>
    ensures { IfOk result (λ copy. copy ≡ set.now) }
{
    copied(alloc, set)
}
