ghost use Rattle.std.specs.Prelude.{◌≡◌, IfOk};

use crate::Lattice;
use cc_num::NoMemory;
use std::alloc::Global;

/// A copy of a value: its join with itself.
pub fn copied<L: Lattice>(alloc: Global, value: &L) -> Result<L, NoMemory>
    requires { L.AreAlike value.now value.now }
    ensures { IfOk result (λ copy. copy ≡ value.now) }
{
    value.join(alloc, value)
}
