//! A set of numbers beside a table of two sets of addresses, with a `|` before each: what the calls of a lattice give.
//!
//!     join {1}|{0}|{} {2}|{}|{f1}    the least of both
//!     copy {1}|{0}|{}                the join of one with itself
//!     below {1}|{0}|{} {1}|{0}|{0}   whether the first is below the second

ghost use Rattle.std.specs.Prelude.{◌≡◌, [], ◌∷◌, IfSome, IsTrue, length};
ghost use Rattle.cases_domains.specs.Facts.{AreTwo};

use crate::places::lattices::{copy_of, joined, write_below};
use crate::places::words::{numbers_of, set_of};
use crate::places::written::{write_numbers, write_set};
use cases_script::{Page, split};
use cc_lattice::{Pair, Table};
use cc_places::Addrs;
use cc_program::num::List;
use cc_sets::Vals;
use std::alloc::Global;

/// What cases are about.
type Facts = Pair<Vals, Table<u32, Addrs>>;

/// The table of two sets.
fn table_of(alloc: Global, first: Addrs, second: Addrs) -> Option<Table<u32, Addrs>>
    ensures keys { IfSome result (λ t. t.keys ≡ 0 ∷ 1 ∷ []) }
    ensures parts { IfSome result (λ t. length t.parts ≡ 2) }
{
    let mut keys = Vec::new(alloc);
    keys.push(0).ok()?;
    keys.push(1).ok()?;
    let mut parts = Vec::new(alloc);
    parts.push(first).ok()?;
    parts.push(second).ok()?;
    Some(Table {
        keys: List::of(keys),
        parts: List::of(parts),
    })
}

fn facts_of(alloc: Global, word: &str) -> Option<Facts>
    ensures { IfSome result (λ f. AreTwo f) }
{
    let (numbers, sets) = word.split_once('|')?;
    let (first, second) = sets.split_once('|')?;
    let first = set_of(alloc, first)?;
    let second = set_of(alloc, second)?;
    Some(Pair {
        first: numbers_of(alloc, numbers)?,
        second: table_of(alloc, first, second)?,
    })
}

fn write_facts(page: &mut Page, facts: &Facts) {
    write_numbers(page, &facts.first);
    for set in facts.second.parts.all() {
        page.put("|");
        write_set(page, set);
    }
}

/// Writes what a call gives of two.
#[tactic(auto, using(crate::proofs::Alike::of_two))]
fn write_of_two(alloc: Global, page: &mut Page, call: &str, a: &Facts, b: &Facts) -> Option<()>
    requires first { AreTwo a.now }
    requires second { AreTwo b.now }
{
    match call {
        "join" => write_facts(page, &joined(alloc, a, b)?),
        "copy" => write_facts(page, &copy_of(alloc, a)?),
        "below" => write_below(page, a, b),
        _ => return None,
    }
    Some(())
}

/// Writes what a call gives.
pub fn write_call(alloc: Global, page: &mut Page, case: &str) -> Option<()> {
    let (call, rest) = split(case);
    let (a, b) = split(rest);
    let b = if b.is_empty() { a } else { b };
    write_of_two(
        alloc,
        page,
        call,
        &facts_of(alloc, a)?,
        &facts_of(alloc, b)?,
    )
}
