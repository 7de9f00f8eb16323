ghost use Rattle.std.specs.Prelude.{◌≡◌, ◌↔◌, IsTrue, IfOk, length};
ghost use Rattle.std.specs.List.{AllZip};
ghost use Rattle.cc_lattice.specs.Orders.{IsLeastUpperBound};
ghost use Rattle.cc_lattice.specs.Tables.{HaveOneShape, AreJoins};
ghost use Rattle.cc_lattice.specs.TableLaws.{alike_with_itself, alike_both_ways, below_with_itself, below_in_turn, tables_same};

use crate::Lattice;
use cc_num::{List, NoMemory};
use std::alloc::Global;

/// A value of a lattice for each key. One table is below another where they have the same keys and
/// each part is below the part of the same key.
#[derive(Debug, Drop)]
pub struct Table<K, L> {
    /// The keys, in order.
    pub keys: List<K>,
    /// The part of each key, in the order of the keys.
    pub parts: List<L>,
}

impl<K: Copy, L: Lattice> Lattice for Table<K, L> {
    ghost AreAlike = { λ x y. HaveOneShape L.AreAlike x y };

    ghost IsBelow = { λ x y. (x.keys ≡ y.keys) × AllZip L.IsBelow x.parts y.parts };

    fn below(&self, other: &Table<K, L>) -> bool {
        all_below(self.parts.all(), other.parts.all())
    }

    fn join(&self, alloc: Global, other: &Table<K, L>) -> Result<Table<K, L>, NoMemory> {
        let keys = copied(alloc, self.keys.all())?;
        let parts = joins(alloc, self.parts.all(), other.parts.all())?;
        Ok(Table {
            keys: List::of(keys),
            parts: List::of(parts),
        })
    }

    ghost alike_itself = { alike_with_itself L.alike_itself };

    ghost alike_back = { alike_both_ways L.alike_back };

    ghost below_itself = { below_with_itself L.AreAlike L.IsBelow L.below_itself };

    ghost below_through = { below_in_turn L.AreAlike L.IsBelow L.below_through };

    ghost below_both_ways = { tables_same L.AreAlike L.IsBelow L.below_both_ways };
}

/// A copy of the keys.
fn copied<K: Copy>(alloc: Global, keys: &[K]) -> Result<Vec<K>, NoMemory>
    ensures { IfOk result (λ copies. copies.items ≡ keys.now) }
{
    Ok(keys.iter().copied().collect(alloc)?)
}

/// Whether each part is below the other one at its place.
fn all_below<L: Lattice>(parts: &[L], others: &[L]) -> bool
    requires { AllZip L.AreAlike parts.now others.now }
    ensures { IsTrue result ↔ AllZip L.IsBelow parts.now others.now }
{
    for (at, part) in parts.iter().enumerate() {
        if !part.below(&others[at]) {
            return false;
        }
    }
    true
}

/// The join of each part with the other one at its place.
fn joins<L: Lattice>(alloc: Global, parts: &[L], others: &[L]) -> Result<Vec<L>, NoMemory>
    requires { AllZip L.AreAlike parts.now others.now }
    ensures { IfOk result (λ both. AreJoins (IsLeastUpperBound L.AreAlike L.IsBelow) parts.now others.now both.items) }
{
    let mut both = Vec::new(alloc);
    for (at, part) in parts.iter().enumerate() {
        both.push(part.join(alloc, &others[at])?)?;
    }
    Ok(both)
}
