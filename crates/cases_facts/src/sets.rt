//! How sets are changed.

use cases_script::split;
use cc_lattice::{IntDomain, Lattice};
use cc_num::BinOp;
use cc_places::{Abs, Addrs};
use std::alloc::Global;

/// Of integers: `- 2` without 2, `= 2` the one number 2, and `+ 2` with it.
fn changed_numbers<I: IntDomain>(alloc: Global, numbers: &I, how: &str) -> Option<I> {
    let (mark, number) = split(how);
    let number: i64 = number.parse().ok()?;
    let one = I::one(alloc, i128::from(number));
    match mark {
        "-" => Some(numbers.keep(BinOp::Ne, &one)),
        "=" => Some(one),
        "+" => numbers.join(alloc, &one).ok(),
        _ => None,
    }
}

/// Of addresses that are told one by one: `- 2` without the third of them.
fn changed_addresses(alloc: Global, places: &Addrs, how: &str) -> Option<Addrs> {
    let out: usize = how.strip_prefix("- ")?.parse().ok()?;
    let mut others = Addrs::none(alloc);
    for (n, a) in places.members.all().iter().enumerate() {
        if n != out {
            let one = Addrs::one(alloc, a).ok()?;
            others = others.join(alloc, &one).ok()?;
        }
    }
    Some(others)
}

/// A changed set; `ints` and `addrs` are the empty sets of either kind.
pub fn changed_set<I: IntDomain>(alloc: Global, set: &Abs<I>, how: &str) -> Option<Abs<I>> {
    if how == "ints" {
        return Some(Abs::Ints(I::none(alloc)));
    }
    if how == "addrs" {
        return Some(Abs::Addrs(Addrs::none(alloc)));
    }
    match set {
        Abs::Ints(numbers) => Some(Abs::Ints(changed_numbers(alloc, numbers, how)?)),
        Abs::Addrs(places) => Some(Abs::Addrs(changed_addresses(alloc, places, how)?)),
    }
}
