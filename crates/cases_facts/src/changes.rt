//! Facts are changed, one thing after the other, with commas between:
//!
//!     whole 0 - 2, result 1 = 3       a key's set, or what a function gives (`sets.rt` says how sets are changed)
//!     main 0, handler 0               who reaches a function, turned round; `reads` and `writes` of a key are so too
//!     levels 0 3, from 0 1            levels of a function; `read_levels` and `write_levels` are those of a key
//!     short                           no set is there of the last key
//!
//! Other changes are those of points (`points.rt`).

use crate::points::change_point;
use crate::sets::changed_set;
use cases_script::split;
use cc_lattice::IntDomain;
use cc_num::{List, at};
use cc_places::Abs;
use cc_state_facts::Facts;
use std::alloc::Global;
use std::mem;

/// Puts an element in the place of another one.
pub fn put<T: Drop>(alloc: Global, list: &mut List<T>, n: usize, element: T) -> Option<()> {
    let mut items = mem::replace(list, List::of(Vec::new(alloc))).into_vec();
    let is_there = n < items.len();
    if is_there {
        items[n] = element;
    }
    *list = List::of(items);
    if is_there { Some(()) } else { None }
}

fn turn(alloc: Global, marks: &mut List<bool>, words: &str) -> Option<()> {
    let n: usize = words.parse().ok()?;
    let mark = *at(marks.all(), n)?;
    put(alloc, marks, n, !mark)
}

fn put_levels(alloc: Global, sets: &mut List<u8>, words: &str) -> Option<()> {
    let (n, levels) = split(words);
    put(alloc, sets, n.parse().ok()?, levels.parse().ok()?)
}

fn change_set<I: IntDomain>(alloc: Global, sets: &mut List<Abs<I>>, words: &str) -> Option<()> {
    let (n, how) = split(words);
    let n: usize = n.parse().ok()?;
    let set = changed_set(alloc, at(sets.all(), n)?, how)?;
    put(alloc, sets, n, set)
}

/// Takes the last element off.
fn shorten<T: Drop>(alloc: Global, list: &mut List<T>) -> Option<()> {
    let mut items = mem::replace(list, List::of(Vec::new(alloc))).into_vec();
    items.pop();
    *list = List::of(items);
    Some(())
}

/// Changes one thing.
fn change<I: IntDomain>(alloc: Global, facts: &mut Facts<I>, words: &str) -> Option<()> {
    let (word, rest) = split(words);
    match word {
        "whole" => change_set(alloc, &mut facts.whole, rest),
        "result" => change_set(alloc, &mut facts.results, rest),
        "main" => turn(alloc, &mut facts.by_main, rest),
        "handler" => turn(alloc, &mut facts.by_handler, rest),
        "reads" => turn(alloc, &mut facts.handler_reads, rest),
        "writes" => turn(alloc, &mut facts.handler_writes, rest),
        "levels" => put_levels(alloc, &mut facts.levels, rest),
        "from" => put_levels(alloc, &mut facts.from, rest),
        "read_levels" => put_levels(alloc, &mut facts.read_levels, rest),
        "write_levels" => put_levels(alloc, &mut facts.write_levels, rest),
        "short" => shorten(alloc, &mut facts.whole),
        _ => change_point(alloc, &mut facts.at, word, rest),
    }
}

/// Changes facts as the words say. None where they say nothing.
pub fn change_all<I: IntDomain>(alloc: Global, facts: &mut Facts<I>, changes: &str) -> Option<()> {
    for words in changes.split(", ") {
        if !words.is_empty() {
            change(alloc, facts, words)?;
        }
    }
    Some(())
}
