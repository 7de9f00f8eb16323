//! Calls of a domain that are worked many times, so that their time can be measured.
//!
//!     And 0..63 0..63 ULongLong    an operator of two sets, in a type
//!     join 0..31 32..63            the least set with the members of both
//!
//! What is printed is the room of all results together.

ghost use Rattle.cc_lattice.specs.Domains.{AreOperands};

use crate::sets::{is_promoted, is_second, lies_in};
use crate::words::{operator_of, type_of};
use crate::written::{join, set_of};
use cases_script::{Page, split};
use cc_lattice::IntDomain;
use cc_program::num::{BinOp, IntType, Target};
use std::alloc::Global;

/// The room of the results of an operator of two sets that is worked many times.
fn room_of_ops<D: IntDomain>(
    op: BinOp,
    a: &D,
    b: &D,
    t: IntType,
    target: &Target,
    times: u32,
) -> u128
    requires { AreOperands D.Has op a.now b.now t target.now }
{
    let mut room: u128 = 0;
    for _ in 0..times {
        room = room.wrapping_add(D::op(op, a, b, t, target).room());
    }
    room
}

/// The room of the join of two sets that is worked many times.
fn room_of_joins<D: IntDomain>(alloc: Global, a: &D, b: &D, times: u32) -> Option<u128> {
    let mut room: u128 = 0;
    for _ in 0..times {
        room = room.wrapping_add(join(alloc, a, b)?.room());
    }
    Some(room)
}

/// Writes the room of an operator of two sets.
fn write_ops<D: IntDomain>(
    alloc: Global,
    page: &mut Page,
    target: &Target,
    times: u32,
    case: &str,
) -> Option<()> {
    let (op, rest) = split(case);
    let (a, rest) = split(rest);
    let (b, t) = split(rest);
    let op = operator_of(op)?;
    let t = type_of(t)?;
    let a: D = set_of(alloc, a)?;
    let b: D = set_of(alloc, b)?;
    if is_promoted(t, target)
        && lies_in(alloc, &a, t, target)
        && is_second(alloc, op, &b, t, target)
    {
        page.show(room_of_ops(op, &a, &b, t, target, times));
        Some(())
    } else {
        None
    }
}

/// Writes the room of the joins of two sets.
fn write_joins<D: IntDomain>(alloc: Global, page: &mut Page, times: u32, sets: &str) -> Option<()> {
    let (a, b) = split(sets);
    let a: D = set_of(alloc, a)?;
    page.show(room_of_joins(alloc, &a, &set_of(alloc, b)?, times)?);
    Some(())
}

/// Writes what a case gives.
pub fn write_outcome<D: IntDomain>(
    alloc: Global,
    page: &mut Page,
    target: &Target,
    times: u32,
    case: &str,
) {
    let written = match split(case) {
        ("join", sets) => write_joins::<D>(alloc, page, times, sets),
        _ => write_ops::<D>(alloc, page, target, times, case),
    };
    if written.is_none() {
        page.put("unclear");
    }
}
