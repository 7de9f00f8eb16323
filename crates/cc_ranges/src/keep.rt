ghost use Rattle.std.specs.Prelude.{◌≡◌, ◌≤ℤ◌, true};
ghost use Rattle.cc_lattice.specs.Domains.{is_comparison};
ghost use Rattle.cc_ranges.specs.Keep.{without, keep_rule};
ghost use Rattle.cc_ranges.specs.Spans.{ends_of};

use crate::ends::{between, greater, lesser};
use crate::{Interval, Span};
use cc_num::BinOp;

/// The part of an interval that can pass a comparison with a number of another one.
pub(crate) fn keep(test: BinOp, a: &Interval, b: &Interval) -> Span
    requires { is_comparison test ≡ true }
    ensures { ends_of result ≡ keep_rule test a.now.low a.now.high b.now.low b.now.high }
{
    match test {
        BinOp::Lt => between(a.low, lesser(a.high, b.high - 1)),
        BinOp::Le => between(a.low, lesser(a.high, b.high)),
        BinOp::Gt => between(greater(a.low, b.low + 1), a.high),
        BinOp::Ge => between(greater(a.low, b.low), a.high),
        BinOp::Eq => between(greater(a.low, b.low), lesser(a.high, b.high)),
        BinOp::Ne if b.low == b.high => without(a, b.low),
        _ => Span::Between(*a),
    }
}

/// An interval without a number that stands at an end.
fn without(a: &Interval, v: i128) -> Span
    ensures { ends_of result ≡ without a.now.low a.now.high v }
{
    if a.low == v {
        between(a.low + 1, a.high)
    } else if a.high == v {
        between(a.low, a.high - 1)
    } else {
        Span::Between(*a)
    }
}
