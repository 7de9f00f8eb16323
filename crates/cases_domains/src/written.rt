//! Sets of numbers as cases write them: `none`, the numbers between braces, as `{1,5}`, or all numbers from one to
//! another, as `1..5`.
//!
//! They are made by `none`, `one` and `join` alone, so that in each domain a word gives the least set that has its numbers.

use cases_script::Page;
use cc_lattice::IntDomain;
use std::alloc::Global;

/// How many numbers of a run are joined one by one. More are too many for an explicit set.
const MANY: u8 = 65;

/// The set of a number, where it is a value of an integer type.
fn one_of<D: IntDomain>(alloc: Global, v: i128) -> Option<D> {
    if -(2i128.pow(63)) <= v && v < 2i128.pow(64) {
        Some(D::one(alloc, v))
    } else {
        None
    }
}

/// The set of the number that a word writes, where it is a value of an integer type.
pub fn one_in<D: IntDomain>(alloc: Global, word: &str) -> Option<D> {
    one_of(alloc, word.parse::<i128>().ok()?)
}

/// The least set with the members of both.
pub fn join<D: IntDomain>(alloc: Global, a: &D, b: &D) -> Option<D> {
    a.join(alloc, b).ok()
}

/// The least set that has the numbers of a text, with commas between them.
fn listed<D: IntDomain>(alloc: Global, numbers: &str) -> Option<D> {
    let mut set = D::none(alloc);
    for word in numbers.split(',') {
        set = join(alloc, &set, &one_in(alloc, word)?)?;
    }
    Some(set)
}

/// The least set that has all numbers from `low` to `high`.
fn all_between<D: IntDomain>(alloc: Global, low: i128, high: i128) -> Option<D> {
    let mut set = join(alloc, &one_of(alloc, low)?, &one_of(alloc, high)?)?;
    for k in 1..MANY {
        let v = low.saturating_add(i128::from(k));
        if v < high {
            set = join(alloc, &set, &one_of(alloc, v)?)?;
        }
    }
    Some(set)
}

/// The set that a word writes.
pub fn set_of<D: IntDomain>(alloc: Global, word: &str) -> Option<D> {
    if word == "none" {
        return Some(D::none(alloc));
    }
    match word.split_once("..") {
        Some((low, high)) => all_between(
            alloc,
            low.parse::<i128>().ok()?,
            high.parse::<i128>().ok()?,
        ),
        None => listed(alloc, word.strip_prefix('{')?.strip_suffix('}')?),
    }
}

/// Writes numbers between braces.
pub fn write_members(page: &mut Page, numbers: &[i128]) {
    page.put("{");
    for (place, v) in numbers.iter().enumerate() {
        if place > 0 {
            page.put(",");
        }
        page.show(*v);
    }
    page.put("}");
}

/// Writes the members of an explicit set.
pub fn write_explicit<D: IntDomain>(page: &mut Page, set: &D) {
    match set.members() {
        Some(members) => write_members(page, members),
        None => page.put("none"),
    }
}

/// Writes the least and the greatest member of a set, or what stands for a set with no member.
pub fn write_ends(page: &mut Page, ends: Option<(i128, i128)>, none: &str) {
    match ends {
        Some((low, high)) => {
            page.show(low);
            page.put_with("..", high);
        }
        None => page.put(none),
    }
}

/// Writes a set: its members where it is explicit, and else its bounds.
pub fn write_set<D: IntDomain>(page: &mut Page, set: &D) {
    match set.members() {
        Some(members) => write_members(page, members),
        None => write_ends(page, set.bounds(), "none"),
    }
}
