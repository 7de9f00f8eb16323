//! Integers or addresses: what the calls of `Abs` give. Integers stand behind an `i`, addresses behind a `p`.
//!
//!     join i{1} i{2}            the least value with all that either has; `unlike` where they are not of one kind
//!     copy p{0}                 the join of a value with itself
//!     below i{1} i{1,2}         whether the first is below the second, likewise
//!     has i{1} v5               whether a value is among them: an integer behind a `v`, or an address

ghost use Rattle.std.specs.Prelude.{IsTrue};
ghost use Rattle.cc_places.specs.Abstract.{AreOfOneKind};

use crate::places::lattices::{copy_of, joined, write_answer, write_below};
use crate::places::words::{address_of, numbers_of, set_of};
use crate::places::written::write_abs;
use cases_script::{Page, split};
use cc_lattice::IntDomain;
use cc_places::Abs;
use cc_program::Value;
use std::alloc::Global;

/// Whether two are of one kind.
fn are_alike<D: IntDomain>(a: &Abs<D>, b: &Abs<D>) -> bool
    ensures { IsTrue result → AreOfOneKind a.now b.now }
{
    match a {
        Abs::Ints(_) => match b {
            Abs::Ints(_) => true,
            Abs::Addrs(_) => false,
        },
        Abs::Addrs(_) => match b {
            Abs::Ints(_) => false,
            Abs::Addrs(_) => true,
        },
    }
}

/// Integers or addresses, as a word writes them.
pub fn abs_of<D: IntDomain>(alloc: Global, word: &str) -> Option<Abs<D>> {
    match word.strip_prefix('i') {
        Some(numbers) => Some(Abs::Ints(numbers_of(alloc, numbers)?)),
        None => Some(Abs::Addrs(set_of(alloc, word.strip_prefix('p')?)?)),
    }
}

/// The value that a word writes.
pub fn value_of(alloc: Global, word: &str) -> Option<Value> {
    match word.strip_prefix('v') {
        Some(number) => Some(Value::Int(number.parse::<i128>().ok()?)),
        None => Some(Value::Place(address_of(alloc, word)?)),
    }
}

fn write_join<D: IntDomain>(alloc: Global, page: &mut Page, a: &Abs<D>, b: &Abs<D>) -> Option<()> {
    if are_alike(a, b) {
        write_abs(page, &joined(alloc, a, b)?);
    } else {
        page.put("unlike");
    }
    Some(())
}

fn write_order<D: IntDomain>(page: &mut Page, a: &Abs<D>, b: &Abs<D>) {
    if are_alike(a, b) {
        write_below(page, a, b);
    } else {
        page.put("unlike");
    }
}

fn write_copy<D: IntDomain>(alloc: Global, page: &mut Page, a: &Abs<D>) -> Option<()> {
    if are_alike(a, a) {
        write_abs(page, &copy_of(alloc, a)?);
        Some(())
    } else {
        None
    }
}

/// Writes what a call gives of a value.
fn write_of_value<D: IntDomain>(
    alloc: Global,
    page: &mut Page,
    call: &str,
    a: &Abs<D>,
    rest: &str,
) -> Option<()> {
    match call {
        "join" => write_join(alloc, page, a, &abs_of(alloc, rest)?)?,
        "copy" => write_copy(alloc, page, a)?,
        "below" => write_order(page, a, &abs_of(alloc, rest)?),
        "has" => write_answer(page, a.has(&value_of(alloc, rest)?)),
        _ => return None,
    }
    Some(())
}

/// Writes what a call gives.
pub fn write_call<D: IntDomain>(alloc: Global, page: &mut Page, case: &str) -> Option<()> {
    Abs::<D>::laws();
    let (call, rest) = split(case);
    let (a, rest) = split(rest);
    write_of_value::<D>(alloc, page, call, &abs_of(alloc, a)?, rest)
}
