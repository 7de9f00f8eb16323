//! Sets in order, one by one: whether each is below another one, and what each two are together.

ghost use Rattle.std.specs.Prelude.{◌≡◌, ◌↔◌, IsTrue, IfOk};
ghost use Rattle.std.specs.List.{AllZip};
ghost use Rattle.cc_lattice.specs.Orders.{IsLeastUpperBound};
ghost use Rattle.cc_lattice.specs.Tables.{AreJoins};

use cc_lattice::Lattice;
use cc_program::num::NoMemory;
use std::alloc::Global;

/// Whether each set is below the other one at its place.
pub(crate) fn are_below<L: Lattice>(sets: &[L], others: &[L]) -> bool
    requires { AllZip L.AreAlike sets.now others.now }
    ensures { IsTrue result ↔ AllZip L.IsBelow sets.now others.now }
{
    for (at, set) in sets.iter().enumerate() {
        if !set.below(&others[at]) {
            return false;
        }
    }
    true
}

/// The join of each set with the other one at its place.
pub(crate) fn joins<L: Lattice>(alloc: Global, sets: &[L], others: &[L]) -> Result<Vec<L>, NoMemory>
    requires { AllZip L.AreAlike sets.now others.now }
    ensures { IfOk result (λ both. AreJoins (IsLeastUpperBound L.AreAlike L.IsBelow) sets.now others.now both.items) }
{
    let mut both = Vec::new(alloc);
    for (at, set) in sets.iter().enumerate() {
        both.push(set.join(alloc, &others[at])?)?;
    }
    Ok(both)
}
