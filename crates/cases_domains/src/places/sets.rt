//! Sets of addresses: what the calls of `Addrs` give.
//!
//!     set {o1@0/1,0}            the set of some addresses, one joined after another
//!     join {0} {o1@0/1}         the least set with the members of both
//!     copy {o1@0/1}             the join of a set with itself
//!     below {0} {0,f1}          whether the first set is below the second
//!     has {o1@0/2} o1@1/2       whether a set has an address
//!     exact {0}                 the members of an exact set
//!     starred {0}               the members of a set that is not exact
//!     moved {o1@0/2} {-1,1}     a set that is moved by numbers of an explicit set or of a range
//!     moved-span {o1@0/2} Bool  likewise by those of an interval
//!     room {0} 5                how often the set can still rise, with at most so many places
//!     of-exact {0,f1}           the exact set of its members, where a set can have them
//!     of-starred {o1@0/2}       the set of its places, likewise

ghost use Rattle.std.specs.Prelude.{◌≡◌, ◌≤◌, false, IsTrue, length};

use crate::places::lattices::{copy_of, joined, write_answer, write_below};
use crate::places::words::{address_of, addresses_of, numbers_of, set_of};
use crate::places::written::{write_set, write_some};
use cases_script::{Page, split};
use cc_lattice::IntDomain;
use cc_places::{Addrs, are_members};
use cc_program::Address;
use cc_ranges::Span;
use cc_sets::Vals;
use std::alloc::Global;

/// Whether a set that is not exact has at most so many members.
fn has_at_most(set: &Addrs, most: u64) -> bool
    ensures { IsTrue result → set.now.is_exact ≡ false → length set.now.members ≤ most }
{
    match set.starred() {
        Some(members) => members.len() as u64 <= most,
        None => true,
    }
}

fn write_room(page: &mut Page, set: &Addrs, most: u64) -> Option<()> {
    if has_at_most(set, most) {
        page.show(set.room(most));
        Some(())
    } else {
        None
    }
}

/// The set of its members.
fn of_members(is_exact: bool, members: Vec<Address>) -> Option<Addrs> {
    if !are_members(is_exact, members.as_slice()) {
        return None;
    }
    if is_exact {
        Some(Addrs::of_exact(members))
    } else {
        Some(Addrs::of_starred(members))
    }
}

fn write_of_members(alloc: Global, page: &mut Page, is_exact: bool, words: &str) -> Option<()> {
    match of_members(is_exact, addresses_of(alloc, words)?) {
        Some(set) => write_set(page, &set),
        None => page.put("no members of such a set"),
    }
    Some(())
}

fn write_moved<D: IntDomain>(alloc: Global, page: &mut Page, set: &Addrs, by: &str) -> Option<()> {
    let by: D = numbers_of(alloc, by)?;
    write_set(page, &set.moved(alloc, &by).ok()?);
    Some(())
}

/// Writes what a call gives of a set.
fn write_of_set(alloc: Global, page: &mut Page, call: &str, set: &Addrs, rest: &str) -> Option<()> {
    match call {
        "set" => write_set(page, set),
        "join" => write_set(page, &joined(alloc, set, &set_of(alloc, rest)?)?),
        "copy" => write_set(page, &copy_of(alloc, set)?),
        "below" => write_below(page, set, &set_of(alloc, rest)?),
        "has" => write_answer(page, set.has(&address_of(alloc, rest)?)),
        "exact" => write_some(page, set.exact()),
        "starred" => write_some(page, set.starred()),
        "moved" => write_moved::<Vals>(alloc, page, set, rest)?,
        "moved-span" => write_moved::<Span>(alloc, page, set, rest)?,
        "room" => write_room(page, set, rest.parse::<u64>().ok()?)?,
        _ => return None,
    }
    Some(())
}

/// Writes what a call gives.
pub fn write_call(alloc: Global, page: &mut Page, case: &str) -> Option<()> {
    let (call, rest) = split(case);
    match call {
        "of-exact" => write_of_members(alloc, page, true, rest),
        "of-starred" => write_of_members(alloc, page, false, rest),
        _ => {
            let (set, rest) = split(rest);
            write_of_set(alloc, page, call, &set_of(alloc, set)?, rest)
        }
    }
}
