ghost use Rattle.std.specs.Prelude.{◌≡◌, ◌^◌, ◌≤ℤ◌, ◌<ℤ◌, pos, neg_ℤ};
ghost use Rattle.std.specs.Int.{int_max, int_min};
ghost use Rattle.cc_ranges.specs.Ends.{between, cut, whole_ends, lies_in, fitted};
ghost use Rattle.cc_ranges.specs.Spans.{ends_of};

use crate::{Interval, Span};
use cc_num::{IntType, Target};

/// The numbers from `low` to `high`, of which there are none where `high` is less.
pub(crate) fn between(low: i128, high: i128) -> Span
    requires least { neg_ℤ (pos (2 ^ 63)) ≤ℤ low }
    requires most { high <ℤ pos (2 ^ 64) }
    ensures { ends_of result ≡ between low high }
{
    if low <= high {
        Span::Between(Interval { low, high })
    } else {
        Span::Empty
    }
}

/// All values of a type.
pub(crate) fn whole(t: IntType, target: &Target) -> Span
    ensures { ends_of result ≡ whole_ends t target.now }
{
    Span::Between(Interval {
        low: t.least(target),
        high: t.most(target),
    })
}

/// Whether the numbers from `low` to `high` are values of a type.
pub(crate) fn lies_in(low: i128, high: i128, t: IntType, target: &Target) -> bool
    ensures { result ≡ lies_in low high t target.now }
{
    t.least(target) <= low && high <= t.most(target)
}

/// Exact results from `low` to `high`, in a type: what is outside a signed type traps, and results
/// that leave an unsigned type may be any of its values.
pub(crate) fn fitted(low: i128, high: i128, t: IntType, target: &Target) -> Span
    requires { low ≤ℤ high }
    ensures { ends_of result ≡ fitted low high t target.now }
{
    if t.is_signed(target) {
        between(greater(t.least(target), low), lesser(t.most(target), high))
    } else if lies_in(low, high, t, target) {
        Span::Between(Interval { low, high })
    } else {
        whole(t, target)
    }
}

/// The lesser of two numbers.
pub(crate) fn lesser(a: i128, b: i128) -> i128
    ensures { result ≡ int_min a b }
{
    if b < a { b } else { a }
}

/// The greater of two numbers.
pub(crate) fn greater(a: i128, b: i128) -> i128
    ensures { result ≡ int_max a b }
{
    if b < a { a } else { b }
}
