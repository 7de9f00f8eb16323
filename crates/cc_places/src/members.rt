//! The members of a set, in order.

ghost use Rattle.std.specs.Prelude.{◌≡◌, ◌↔◌, ◌≤◌, IsTrue, IfOk, Some, length, slice_get};
ghost use Rattle.std.specs.List.{Contains};
ghost use Rattle.cc_places.specs.Kept.{member_for};
ghost use Rattle.cc_places.specs.Members.{place_of, added};

use crate::address::is_member_for;
use crate::order::compare;
use cc_program::Address;
use cc_program::num::{NoMemory, at};
use std::alloc::Global;

/// The members with an address at its place, unless it is there.
#[tactic(auto, using(crate::specs::laws::ListLaws::adding))]
pub(crate) fn add(mut members: Vec<Address>, a: Address) -> Result<Vec<Address>, NoMemory>
    ensures { IfOk result (λ r. r.items ≡ added a members.items) }
{
    let place = place_of(members.as_slice(), &a);
    if stands_at(members.as_slice(), place, &a) {
        return Ok(members);
    }
    members.insert(place, a)?;
    Ok(members)
}

/// How many members come before an address.
#[tactic(auto, using(crate::specs::laws::ListLaws::placing))]
fn place_of(members: &[Address], a: &Address) -> usize
    ensures value { result ≡ place_of a.now members.now }
    ensures most { result ≤ length members.now }
{
    let mut count = 0;
    let mut left = members;
    while let [member, behind @ ..] = left {
        if !compare(member, a).is_lt() {
            return count;
        }
        count += 1;
        left = behind;
    }
    count
}

/// Whether an address is the member at a place.
fn stands_at(members: &[Address], place: usize, a: &Address) -> bool
    ensures { IsTrue result ↔ slice_get members.now place ≡ Some a.now }
{
    match at(members, place) {
        Some(member) => member.same(a),
        None => false,
    }
}

/// Whether the member under which an address stands is there.
pub(crate) fn contains(members: &[Address], is_exact: bool, a: &Address) -> bool
    ensures { IsTrue result ↔ Contains members.now (member_for is_exact a.now) }
{
    for member in members {
        if is_member_for(member, is_exact, a) {
            return true;
        }
    }
    false
}

/// Copies of the members.
pub(crate) fn copied(alloc: Global, members: &[Address]) -> Result<Vec<Address>, NoMemory>
    ensures { IfOk result (λ copies. copies.items ≡ members.now) }
{
    let mut copies = Vec::new(alloc);
    for member in members {
        copies.push(member.copy(alloc)?)?;
    }
    Ok(copies)
}
