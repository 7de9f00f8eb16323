//! Sets of numbers: what the calls of a domain give.
//!
//!     Add 0..9 1..1 Int     an operator of two sets, in a type (Sub Mul Div Rem And Or Xor Shl Shr Lt Le Gt Ge Eq Ne)
//!     Neg 0..9 Int          an operator of one set (Not Lnot)
//!     to 0..9 UChar         a conversion
//!     keep Lt 0..9 9..9     what a comparison keeps of the first set
//!     join 0..3 7..9        the least set with the members of both
//!     below 0..3 0..9       whether the first set is below the second
//!     has 0..9 5            whether a number is a member
//!     one 5, whole Int      the set of a number, and that of all values of a type
//!     members {1,5}         the members of an explicit set
//!     bounds 0..9           the least and the greatest member
//!     room 0..9             how often the set can still rise, at the most
//!
//! `written.rt` says how a set is written. What is printed of an explicit set is its members between braces, and of
//! another its least and its greatest member.

ghost use Rattle.std.specs.Prelude.{◌≡◌, ℤ, IsTrue};
ghost use Rattle.cc_program.specs.CcNum.Integers.{IsValueOf};
ghost use Rattle.cc_program.specs.CcNum.Promotions.{promoted};
ghost use Rattle.cc_program.specs.CcNum.Results.{is_shift};
ghost use Rattle.cc_lattice.specs.Domains.{IsIntValue, IsSecond};

use crate::words::{comparison_of, operator_of, prefix_of, type_of};
use crate::written::{join, one_in, set_of, write_ends, write_explicit, write_set};
use cases_script::{Page, split};
use cc_lattice::IntDomain;
use cc_program::num::{BinOp, IntType, Target, UnOp, promote};
use std::alloc::Global;

/// Whether a set is below another.
fn is_below<D: IntDomain>(a: &D, b: &D) -> bool
    ensures { IsTrue result → D.IsBelow a.now b.now }
{
    a.below(b)
}

/// Whether all members of a set are values of a type.
pub fn lies_in<D: IntDomain>(alloc: Global, set: &D, t: IntType, target: &Target) -> bool
    ensures { IsTrue result → (v : ℤ) → D.Has set.now v → IsValueOf t target.now v }
{
    is_below(set, &D::whole(alloc, t, target))
}

/// Whether all members of a set are values of some integer type.
fn lies_in_some<D: IntDomain>(alloc: Global, set: &D, target: &Target) -> bool
    ensures { IsTrue result → (v : ℤ) → D.Has set.now v → IsIntValue v }
{
    cc_lattice::laws();
    lies_in(alloc, set, IntType::LongLong, target)
        || lies_in(alloc, set, IntType::ULongLong, target)
}

/// Whether a set may be the second operand of an operator in a type.
pub fn is_second<D: IntDomain>(
    alloc: Global,
    op: BinOp,
    set: &D,
    t: IntType,
    target: &Target,
) -> bool
    ensures { IsTrue result → (v : ℤ) → D.Has set.now v → IsSecond (is_shift op) t target.now v }
{
    match op {
        BinOp::Shl | BinOp::Shr => lies_in_some(alloc, set, target),
        _ => lies_in(alloc, set, t, target),
    }
}

/// Whether a type is one that operators work in.
pub fn is_promoted(t: IntType, target: &Target) -> bool
    ensures { IsTrue result → promoted t target.now ≡ t }
{
    promote(t, target) == t
}

fn write_answer(page: &mut Page, holds: bool) {
    page.put(if holds { "yes" } else { "no" });
}

/// Writes the results of an operator of two sets.
fn write_op<D: IntDomain>(
    alloc: Global,
    page: &mut Page,
    target: &Target,
    op: BinOp,
    operands: &str,
) -> Option<()> {
    let (a, rest) = split(operands);
    let (b, t) = split(rest);
    let t = type_of(t)?;
    let a: D = set_of(alloc, a)?;
    let b: D = set_of(alloc, b)?;
    if is_promoted(t, target)
        && lies_in(alloc, &a, t, target)
        && is_second(alloc, op, &b, t, target)
    {
        write_set(page, &D::op(op, &a, &b, t, target));
        Some(())
    } else {
        None
    }
}

/// Writes the results of an operator of one set.
fn write_op_one<D: IntDomain>(
    alloc: Global,
    page: &mut Page,
    target: &Target,
    op: UnOp,
    operand: &str,
) -> Option<()> {
    let (a, t) = split(operand);
    let t = type_of(t)?;
    let a: D = set_of(alloc, a)?;
    if is_promoted(t, target) && lies_in(alloc, &a, t, target) {
        write_set(page, &D::op_one(op, &a, t, target));
        Some(())
    } else {
        None
    }
}

/// Writes what a comparison keeps.
fn write_keep<D: IntDomain>(alloc: Global, page: &mut Page, rest: &str) -> Option<()> {
    let (test, rest) = split(rest);
    let (a, b) = split(rest);
    let test = comparison_of(test)?;
    let a: D = set_of(alloc, a)?;
    write_set(page, &a.keep(test, &set_of(alloc, b)?));
    Some(())
}

/// Writes what an operator of C gives, or a call by its name.
fn write_call<D: IntDomain>(
    alloc: Global,
    page: &mut Page,
    target: &Target,
    case: &str,
) -> Option<()> {
    let (call, rest) = split(case);
    if let Some(op) = operator_of(call) {
        return write_op::<D>(alloc, page, target, op, rest);
    }
    if let Some(op) = prefix_of(call) {
        return write_op_one::<D>(alloc, page, target, op, rest);
    }
    match call {
        "keep" => write_keep::<D>(alloc, page, rest),
        "one" => Some(write_set::<D>(page, &one_in(alloc, rest)?)),
        "whole" => Some(write_set(page, &D::whole(alloc, type_of(rest)?, target))),
        _ => {
            let (set, rest) = split(rest);
            write_of_set::<D>(alloc, page, target, call, &set_of(alloc, set)?, rest)
        }
    }
}

/// Writes what a call gives of a set.
fn write_of_set<D: IntDomain>(
    alloc: Global,
    page: &mut Page,
    target: &Target,
    call: &str,
    set: &D,
    rest: &str,
) -> Option<()> {
    match call {
        "to" => write_set(page, &set.to(type_of(rest)?, target)),
        "join" => write_set(page, &join(alloc, set, &set_of(alloc, rest)?)?),
        "below" => write_answer(page, is_below(set, &set_of(alloc, rest)?)),
        "has" => write_answer(page, set.has(rest.parse::<i128>().ok()?)),
        "members" => write_explicit(page, set),
        "bounds" => write_ends(page, set.bounds(), "none"),
        "room" => page.show(set.room()),
        _ => return None,
    }
    Some(())
}

/// Writes what a case gives.
pub fn write_outcome<D: IntDomain>(alloc: Global, page: &mut Page, target: &Target, case: &str) {
    if write_call::<D>(alloc, page, target, case).is_none() {
        page.put("unclear");
    }
}
