//! Sets of addresses with more addresses.

ghost use Rattle.std.specs.Prelude.{◌≡◌, ◌<◌, ◌≤◌, false, true, IsTrue, IfOk, length};
ghost use Rattle.cc_places.specs.Order.{ascends};
ghost use Rattle.cc_places.specs.Members.{most_exact};
ghost use Rattle.cc_places.specs.Sets.{IsSetOf, EitherHas, OneMore, AreStarred, InPlaceOf};

use crate::address::member_for;
use crate::addrs::{Addrs, MOST_EXACT};
use crate::listed::has_object;
use crate::members::{add, copied};
use cc_program::Address;
use cc_program::num::{List, NoMemory};
use std::alloc::Global;

impl Addrs {
    /// The set with one address more.
    pub fn with(self, alloc: Global, a: &Address) -> Result<Addrs, NoMemory>
        ensures { IfOk result (λ r. IsSetOf (OneMore self a.now) r) }
    {
        with(alloc, self, a)
    }

    /// The set of all addresses in the places of its own.
    pub fn in_places(self, alloc: Global) -> Result<Addrs, NoMemory>
        ensures { IfOk result (λ r. IsSetOf (InPlaceOf self) r) }
    {
        if self.is_exact {
            if has_object(self.members.all()) {
                let places = places(alloc, self.members.all())?;
                Ok(Addrs {
                    is_exact: false,
                    members: List::of(places),
                })
            } else {
                Ok(self)
            }
        } else {
            Ok(self)
        }
    }
}

/// The set with one address more.
pub(crate) fn with(alloc: Global, set: Addrs, a: &Address) -> Result<Addrs, NoMemory>
    ensures { IfOk result (λ r. IsSetOf (OneMore set a.now) r) }
{
    let Addrs { is_exact, members } = set;
    let member = member_for(alloc, is_exact, a)?;
    let members = add(members.into_vec(), member)?;
    if are_too_many(is_exact, members.as_slice()) {
        let places = places(alloc, members.as_slice())?;
        return Ok(Addrs {
            is_exact: false,
            members: List::of(places),
        });
    }
    Ok(Addrs {
        is_exact,
        members: List::of(members),
    })
}

/// Whether a set of these members would be exact, and has too many.
fn are_too_many(is_exact: bool, members: &[Address]) -> bool
    ensures exact { IsTrue result → is_exact ≡ true }
    ensures many { IsTrue result → most_exact < length members.now }
    ensures few { result ≡ false → is_exact ≡ true → length members.now ≤ most_exact }
{
    is_exact && members.len() > MOST_EXACT
}

/// The members, starred and in order.
fn places(alloc: Global, members: &[Address]) -> Result<Vec<Address>, NoMemory>
    ensures order { IfOk result (λ r. ascends r.items ≡ true) }
    ensures all { IfOk result (λ r. AreStarred members.now r.items) }
{
    let mut places = Vec::new(alloc);
    for member in members {
        let place = member_for(alloc, false, member)?;
        places = add(places, place)?;
    }
    Ok(places)
}

/// A copy of a set.
pub(crate) fn copy(alloc: Global, set: &Addrs) -> Result<Addrs, NoMemory>
    ensures { IfOk result (λ r. r ≡ set.now) }
{
    let members = copied(alloc, set.members.all())?;
    Ok(Addrs {
        is_exact: set.is_exact,
        members: List::of(members),
    })
}

/// The set of the addresses of two sets, of which the second is exact where the first is.
pub(crate) fn union(alloc: Global, first: &Addrs, second: &Addrs) -> Result<Addrs, NoMemory>
    requires { second.now.is_exact ≡ false → first.now.is_exact ≡ false }
    ensures { IfOk result (λ r. IsSetOf (EitherHas first.now second.now) r) }
{
    let mut all = copy(alloc, first)?;
    let members = second.members.all();
    for member in members {
        all = with(alloc, all, member)?;
    }
    Ok(all)
}
