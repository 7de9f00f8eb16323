ghost use Rattle.std.specs.Prelude.{◌≡◌, ◌↔◌, ◌≤◌, ◌⊎◌, ℤ, List, [], ◌∷◌, true, false, IsTrue, length};
ghost use Rattle.std.specs.List.{Contains};
ghost use Rattle.cc_lattice.specs.Domains.{Ascends, IsInReach};
ghost use Rattle.cc_explicit.specs.Sets.{most_members, AreInReach, list_ends};

use crate::search::search;
use crate::within::are_within;
use smallvec::SmallVec;
use std::alloc::Global;

/// The most members of an explicit set.
pub const MOST_MEMBERS: usize = 64;

/// A set of at most `MOST_MEMBERS` numbers, in ascending order. Each has at most 65 bits in two's complement.
#[derive(Drop)]
pub struct Explicit {
    pub items: SmallVec<i128, MOST_MEMBERS>,
    pub ghost inline: { items.capacity ≡ most_members },
    pub ghost ascending: { Ascends items.items },
    pub ghost few: { length items.items ≤ most_members },
    pub ghost reach: { AreInReach items.items },
}

impl Explicit {
    /// The empty set.
    pub fn none(alloc: Global) -> Explicit
        ensures { result.items.items ≡ [] }
    {
        Explicit {
            items: SmallVec::new(alloc),
        }
    }

    /// The allocator, of which the set takes no memory.
    pub fn allocator(&self) -> Global {
        *self.items.allocator()
    }

    /// The members, ascending.
    pub fn members(&self) -> &[i128]
        ensures { result.now ≡ self.now.items.items }
    {
        self.items.as_slice()
    }

    /// Whether a number is a member.
    pub fn has(&self, v: i128) -> bool
        ensures { IsTrue result ↔ Contains self.now.items.items v }
    {
        search(self.items.as_slice(), v).is_ok()
    }

    /// The least and the greatest member. `None` for the empty set.
    pub fn ends(&self) -> Option<(i128, i128)>
        ensures { result ≡ list_ends self.now.items.items }
    {
        let members = self.items.as_slice();
        if members.is_empty() {
            None
        } else {
            Some((members[0], members[members.len() - 1]))
        }
    }

    /// Whether each member is a member of the other set.
    pub fn is_within(&self, other: &Explicit) -> bool
        ensures { IsTrue result ↔ ((v : ℤ) → Contains self.now.items.items v → Contains other.now.items.items v) }
    {
        are_within(self.items.as_slice(), other.items.as_slice())
    }

    /// A copy.
    pub fn copy(&self) -> Explicit
        ensures { result.items.items ≡ self.now.items.items }
    {
        match SmallVec::from_slice(*self.items.allocator(), self.items.as_slice()) {
            Ok(items) => Explicit { items },
            Err(_) => unreachable!(),
        }
    }

    /// Adds a number, and says whether it is a member now: a full set takes no further one.
    pub fn insert(&mut self, v: i128) -> bool
        requires { IsInReach v }
        ensures inserted { result ≡ true → (w : ℤ) → Contains self.new.items.items w ↔ ((w ≡ v) ⊎ Contains self.old.items.items w) }
        ensures stays { result ≡ false → self.new.items.items ≡ self.old.items.items }
        ensures full { result ≡ false → length self.old.items.items ≡ most_members }
        ensures absent { result ≡ false → Contains self.old.items.items v → ⊥ }
    {
        match search(self.items.as_slice(), v) {
            Ok(_) => true,
            Err(_) if self.items.len() == MOST_MEMBERS => false,
            Err(at) => self.items.insert(at, v).is_ok(),
        }
    }
}
