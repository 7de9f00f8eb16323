//! Addresses and sets as cases write them.
//!
//!     0              null
//!     f3             the function 3
//!     o2@0/1         the static object 2
//!     o2@5/80        the element 5 of the array 2, which has 80
//!     o2@0..64/80    its elements 0 to 64, one after another
//!     o2-m1-i3@0/1   the element 3 of the member 1 of the object 2
//!     a7.3.1@0/1     the local 1 of the function 3 in the activation 7
//!
//! Some of them stand between braces, as in `{0,o2@5/80}`. Numbers stand so too; `UChar` and the like are all values of
//! that type, for an `int` of two bytes.

use crate::places::lattices::joined;
use crate::words::{small_target, type_of};
use crate::written::one_in;
use cc_lattice::IntDomain;
use cc_places::Addrs;
use cc_program::num::List;
use cc_program::{Address, Part, Root};
use std::alloc::Global;

/// Elements of an array, from the first to the one before `end`.
#[derive(Clone, Copy)]
struct Elements {
    first: u32,
    end: u32,
    count: u32,
}

fn root_of(word: &str) -> Option<Root> {
    if let Some(object) = word.strip_prefix('o') {
        return Some(Root::Static(object.parse::<u32>().ok()?));
    }
    let (activation, rest) = word.strip_prefix('a')?.split_once('.')?;
    let (func, local) = rest.split_once('.')?;
    Some(Root::Auto {
        activation: activation.parse::<u64>().ok()?,
        func: func.parse::<u32>().ok()?,
        local: local.parse::<u32>().ok()?,
    })
}

fn part_of(word: &str) -> Option<Part> {
    match word.strip_prefix('m') {
        Some(member) => Some(Part::Member(member.parse::<u32>().ok()?)),
        None => Some(Part::Index(word.strip_prefix('i')?.parse::<u32>().ok()?)),
    }
}

fn path_of(alloc: Global, steps: &str) -> Option<Vec<Part>> {
    let mut path = Vec::new(alloc);
    for step in steps.split('-') {
        path.push(part_of(step)?).ok()?;
    }
    Some(path)
}

fn elements_of(word: &str) -> Option<Elements> {
    let (indexes, count) = word.split_once('/')?;
    let count = count.parse::<u32>().ok()?;
    let (first, last) = indexes.split_once("..").unwrap_or((indexes, indexes));
    Some(Elements {
        first: first.parse::<u32>().ok()?,
        end: last.parse::<u32>().ok()?.checked_add(1)?,
        count,
    })
}

/// Appends the elements that a word writes.
fn push_elements(alloc: Global, list: &mut Vec<Address>, place: &str, at: &str) -> Option<()> {
    let (root, steps) = place.split_once('-').unwrap_or((place, ""));
    let object = root_of(root)?;
    let elements = elements_of(at)?;
    for index in elements.first..elements.end {
        let path = if steps.is_empty() {
            Vec::new(alloc)
        } else {
            path_of(alloc, steps)?
        };
        let element = Address::At {
            object,
            path: List::of(path),
            index,
            count: elements.count,
        };
        list.push(element).ok()?;
    }
    Some(())
}

/// Appends the addresses that a word writes.
fn push_addresses(alloc: Global, list: &mut Vec<Address>, word: &str) -> Option<()> {
    if word == "0" {
        return list.push(Address::Null).ok();
    }
    if let Some(func) = word.strip_prefix('f') {
        return list.push(Address::Func(func.parse::<u32>().ok()?)).ok();
    }
    let (place, at) = word.split_once('@')?;
    push_elements(alloc, list, place, at)
}

/// The addresses between braces, in their order.
pub fn addresses_of(alloc: Global, word: &str) -> Option<Vec<Address>> {
    let words = word.strip_prefix('{')?.strip_suffix('}')?;
    let mut list = Vec::new(alloc);
    if words.is_empty() {
        return Some(list);
    }
    for word in words.split(',') {
        push_addresses(alloc, &mut list, word)?;
    }
    Some(list)
}

/// The address that a word writes.
pub fn address_of(alloc: Global, word: &str) -> Option<Address> {
    let mut list = Vec::new(alloc);
    push_addresses(alloc, &mut list, word)?;
    list.pop()
}

/// The set of the addresses between braces, one joined after another.
pub fn set_of(alloc: Global, word: &str) -> Option<Addrs> {
    let mut set = Addrs::none(alloc);
    for address in &addresses_of(alloc, word)? {
        set = joined(alloc, &set, &Addrs::one(alloc, address).ok()?)?;
    }
    Some(set)
}

/// The least set that has the numbers between braces, or all values of a type.
pub fn numbers_of<D: IntDomain>(alloc: Global, word: &str) -> Option<D> {
    if let Some(t) = type_of(word) {
        return Some(D::whole(alloc, t, &small_target()));
    }
    let words = word.strip_prefix('{')?.strip_suffix('}')?;
    let mut set = D::none(alloc);
    if words.is_empty() {
        return Some(set);
    }
    for word in words.split(',') {
        set = set.join(alloc, &one_in(alloc, word)?).ok()?;
    }
    Some(set)
}
