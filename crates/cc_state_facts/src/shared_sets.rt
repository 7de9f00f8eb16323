//! Sets that points share, in order, one by one: whether each is below another one, and what each two are together.

ghost use Rattle.std.specs.Prelude.{◌≡◌, ◌↔◌, IsTrue, IfOk};
ghost use Rattle.std.specs.List.{AllZip};
ghost use Rattle.cc_lattice.specs.Orders.{IsLeastUpperBound};
ghost use Rattle.cc_lattice.specs.Tables.{AreJoins};

use cc_lattice::Lattice;
use cc_program::num::NoMemory;
use cc_state_shared::Shared;
use std::alloc::Global;

/// Whether a set is below another one.
fn is_shared_below<L: Lattice>(set: &Shared<L>, other: &Shared<L>) -> bool
    requires { L.AreAlike set.now other.now }
    ensures { IsTrue result ↔ L.IsBelow set.now other.now }
{
    set.get().below(other.get())
}

/// Whether each set is below the other one at its place.
pub(crate) fn are_shared_below<L: Lattice>(sets: &[Shared<L>], others: &[Shared<L>]) -> bool
    requires { AllZip L.AreAlike sets.now others.now }
    ensures { IsTrue result ↔ AllZip L.IsBelow sets.now others.now }
{
    for (at, set) in sets.iter().enumerate() {
        if !is_shared_below(set, &others[at]) {
            return false;
        }
    }
    true
}

/// The join of a set with another one. It shares the one that the other is below of.
fn shared_join<L: Lattice>(
    alloc: Global,
    set: &Shared<L>,
    other: &Shared<L>,
) -> Result<Shared<L>, NoMemory>
    requires { L.AreAlike set.now other.now }
    ensures { IfOk result (λ both. IsLeastUpperBound L.AreAlike L.IsBelow set.now other.now both) }
{
    if is_shared_below(other, set) {
        return set.share();
    }
    if is_shared_below(set, other) {
        return other.share();
    }
    Shared::new(alloc, set.get().join(alloc, other.get())?)
}

/// The join of each set with the other one at its place.
pub(crate) fn shared_joins<L: Lattice>(
    alloc: Global,
    sets: &[Shared<L>],
    others: &[Shared<L>],
) -> Result<Vec<Shared<L>>, NoMemory>
    requires { AllZip L.AreAlike sets.now others.now }
    ensures { IfOk result (λ both. AreJoins (IsLeastUpperBound L.AreAlike L.IsBelow) sets.now others.now both.items) }
{
    let mut both = Vec::new(alloc);
    for (at, set) in sets.iter().enumerate() {
        both.push(shared_join(alloc, set, &others[at])?)?;
    }
    Ok(both)
}
