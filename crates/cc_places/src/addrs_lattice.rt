//! Sets of addresses are ordered by what they have.

ghost use Rattle.std.specs.Prelude.{◌↔◌, IsTrue};
ghost use Rattle.std.specs.List.{Contains};
ghost use Rattle.cc_program.specs.declared.value.Address.{Address};
ghost use Rattle.cc_places.specs.Sets.{HasAddress, IsWithin};
ghost use Rattle.cc_places.specs.laws.SetLaws.{within_itself, within_through, sets_same};

use crate::addrs::Addrs;
use crate::grow::{copy, union};
use cc_lattice::Lattice;
use cc_program::Address;
use cc_program::num::NoMemory;
use std::alloc::Global;

impl Lattice for Addrs {
    ghost AreAlike = { λ _ _. Unit {0} };

    ghost IsBelow = { IsWithin };

    fn below(&self, other: &Addrs) -> bool {
        (self.is_exact || !other.is_exact) && are_in(self.members.all(), other)
    }

    fn join(&self, alloc: Global, other: &Addrs) -> Result<Addrs, NoMemory> {
        if other.below(self) {
            copy(alloc, self)
        } else if self.below(other) {
            copy(alloc, other)
        } else if self.is_exact {
            union(alloc, other, self)
        } else {
            union(alloc, self, other)
        }
    }

    ghost alike_itself = { λ _ _ _. tt };

    ghost alike_back = { λ _ _ _. tt };

    ghost below_itself = { λ x _. within_itself x };

    ghost below_through = { λ x y z _ _ _ a b. within_through x y z a b };

    ghost below_both_ways = { λ x y _ a b. sets_same x y a b };
}

/// Whether a set has each address of a list.
fn are_in(members: &[Address], set: &Addrs) -> bool
    ensures { IsTrue result ↔ ((m : Address) → Contains members.now m → HasAddress set.now m) }
{
    for member in members {
        if !set.has(member) {
            return false;
        }
    }
    true
}
