//! How a set of addresses is made, and what it has.

ghost use Rattle.std.specs.Prelude.{◌≡◌, ◌↔◌, ◌≤◌, ◌^◌, false, true, [], ◌∷◌, None, IsTrue, IfOk, IfSome, All, length, if◌then◌else◌, Some};
ghost use Rattle.std.specs.Option.{option_copied};
ghost use Rattle.cc_places.specs.Kept.{kept};
ghost use Rattle.cc_places.specs.Members.{are_members};
ghost use Rattle.cc_places.specs.Sets.{HasAddress, room_left};

use crate::address::member_for;
use crate::addrs::{Addrs, MOST_EXACT};
use crate::members::contains;
use cc_program::Address;
use cc_program::num::{List, NoMemory};
use std::alloc::Global;

impl Addrs {
    /// The empty set.
    pub fn none(alloc: Global) -> Addrs
        ensures exact { result.is_exact ≡ true }
        ensures members { result.members ≡ [] }
    {
        Addrs {
            is_exact: true,
            members: List::of(Vec::new(alloc)),
        }
    }

    /// The exact set of an address.
    pub fn one(alloc: Global, a: &Address) -> Result<Addrs, NoMemory>
        ensures exact { IfOk result (λ s. s.is_exact ≡ true) }
        ensures members { IfOk result (λ s. s.members ≡ kept a.now ∷ []) }
    {
        let mut members = Vec::new(alloc);
        members.push(member_for(alloc, true, a)?)?;
        Ok(Addrs {
            is_exact: true,
            members: List::of(members),
        })
    }

    /// The exact set of its members.
    pub fn of_exact(members: Vec<Address>) -> Addrs
        requires { IsTrue (are_members true members.items) }
        ensures exact { result.is_exact ≡ true }
        ensures members { result.members ≡ members.items }
    {
        Addrs {
            is_exact: true,
            members: List::of(members),
        }
    }

    /// The set of its members, in which an object's address stands for all of its place.
    pub fn of_starred(members: Vec<Address>) -> Addrs
        requires { IsTrue (are_members false members.items) }
        ensures exact { result.is_exact ≡ false }
        ensures members { result.members ≡ members.items }
    {
        Addrs {
            is_exact: false,
            members: List::of(members),
        }
    }

    /// Whether the set has an address.
    pub fn has(&self, a: &Address) -> bool
        ensures { IsTrue result ↔ HasAddress self.now a.now }
    {
        contains(self.members.all(), self.is_exact, a)
    }

    /// The members of an exact set.
    pub fn exact(&self) -> Option<&[Address]>
        ensures { option_copied result ≡ (if self.now.is_exact then Some self.now.members else None) }
    {
        if self.is_exact {
            Some(self.members.all())
        } else {
            None
        }
    }

    /// The members of a set that is not exact.
    pub fn starred(&self) -> Option<&[Address]>
        ensures { option_copied result ≡ (if self.now.is_exact then None else Some self.now.members) }
    {
        if self.is_exact {
            None
        } else {
            Some(self.members.all())
        }
    }

    /// How often the set can still rise, where sets that are not exact have at most so many members.
    pub fn room(&self, most: u64) -> u128
        requires { self.now.is_exact ≡ false → length self.now.members ≤ most }
        ensures value { result ≡ room_left most self.now }
        ensures bound { result ≤ 2 ^ 66 }
    {
        let count = self.members.all().len();
        if self.is_exact {
            u128::from(most) + 1 + (MOST_EXACT - count) as u128
        } else {
            (most - count as u64) as u128
        }
    }
}
