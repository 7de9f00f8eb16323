ghost use Rattle.std.specs.Prelude.{◌≡◌, Some, false};
ghost use Rattle.cc_num.specs.Promotions.{promoted};
ghost use Rattle.cc_num.specs.Results.{is_shift};
ghost use Rattle.cc_lattice.specs.Domains.{AreOperands, AreOperandsOne};
ghost use Rattle.cc_ranges.specs.Ends.{EndsHave, LieIn, lies_in};
ghost use Rattle.cc_ranges.specs.Rules.{rule_of, rule_of_one, op_ends, op_one_ends, to_ends};
ghost use Rattle.cc_ranges.specs.Spans.{ends_of};
ghost use Rattle.cc_sets.specs.Rungs.{IsHull, ValsHas, vals_ends, low_of, high_of};

use crate::gathered::Gathered;
use crate::image::hull_between;
use crate::{Range, Vals};
use cc_lattice::IntDomain;
use cc_num::{BinOp, IntType, Target, UnOp};
use cc_ranges::{Interval, Span};
use std::alloc::Global;

/// The hull of an interval.
fn hull_of_span(alloc: Global, span: &Span) -> Vals
    ensures { IsHull (EndsHave (ends_of span.now)) result }
{
    match span {
        Span::Empty => Gathered::nothing(alloc).hull(),
        Span::Between(interval) => hull_between(alloc, interval.low, interval.high),
    }
}

/// The hull of what the rule of the operator gives.
fn rule(alloc: Global, op: BinOp, a: Interval, b: Interval, t: IntType, target: &Target) -> Vals
    requires promotion { promoted t target.now ≡ t }
    requires first { LieIn a.low a.high t target.now }
    requires second { is_shift op ≡ false → LieIn b.low b.high t target.now }
    ensures { IsHull (EndsHave (rule_of op a.low a.high b.low b.high t target.now)) result }
{
    let span = Span::op(op, &Span::Between(a), &Span::Between(b), t, target);
    hull_of_span(alloc, &span)
}

/// The hull of what the rule of the operator gives, of two sets.
pub(crate) fn op_range(op: BinOp, a: &Vals, b: &Vals, t: IntType, target: &Target) -> Vals
    requires { AreOperands ValsHas op a.now b.now t target.now }
    ensures { IsHull (EndsHave (op_ends op (vals_ends a.now) (vals_ends b.now) t target.now)) result }
{
    let alloc = a.allocator();
    match (a.ends(), b.ends()) {
        (Some((la, ha)), Some((lb, hb))) => {
            let a = Interval { low: la, high: ha };
            let b = Interval { low: lb, high: hb };
            rule(alloc, op, a, b, t, target)
        }
        _ => Gathered::nothing(alloc).hull(),
    }
}

/// The hull of what the rule of the operator gives, of a range.
pub(crate) fn op_one_range(op: UnOp, a: &Range, t: IntType, target: &Target) -> Vals
    requires promotion { promoted t target.now ≡ t }
    requires first { LieIn (low_of a.now) (high_of a.now) t target.now }
    ensures { IsHull (EndsHave (op_one_ends op (Some (low_of a.now, high_of a.now)) t target.now)) result }
{
    let alloc = a.alloc;
    let a = Interval {
        low: a.low(),
        high: a.high(),
    };
    let span = Span::op_one(op, &Span::Between(a), t, target);
    hull_of_span(alloc, &span)
}

/// Whether the numbers from `low` to `high` are values of a type.
fn fits(low: i128, high: i128, t: IntType, target: &Target) -> bool
    ensures { result ≡ lies_in low high t target.now }
{
    t.least(target) <= low && high <= t.most(target)
}

/// The hull of a range, converted to a type.
pub(crate) fn convert_range(a: &Range, t: IntType, target: &Target) -> Vals
    ensures { IsHull (EndsHave (to_ends (Some (low_of a.now, high_of a.now)) t target.now)) result }
{
    match t {
        IntType::Bool => hull_between(a.alloc, 0, 1),
        _ if fits(a.low(), a.high(), t, target) => hull_between(a.alloc, a.low(), a.high()),
        _ => hull_between(a.alloc, t.least(target), t.most(target)),
    }
}
