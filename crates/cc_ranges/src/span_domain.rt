ghost use Rattle.std.specs.Prelude.{◌≡◌, ◌≤ℤ◌, None, IsOkAnd};
ghost use Rattle.cc_lattice.specs.Orders.{IsLeastUpperBound};
ghost use Rattle.cc_ranges.specs.Ends.{EndsBelow};
ghost use Rattle.cc_ranges.specs.Rules.{op_ends, op_one_ends, to_ends};
ghost use Rattle.cc_ranges.specs.Keep.{keep_ends};
ghost use Rattle.cc_ranges.specs.Spans.{ends_of, room_of_span};
ghost use Rattle.cc_ranges.specs.laws.SpanLaws.{SpanHas, SpanBelow, span_itself, span_through, spans_same, span_below_has, span_op_has, span_op_grows, span_one_has, span_one_grows, span_to_has, span_to_grows, span_keep_has, span_keep_below, span_keep_grows, span_none, span_ends, span_room, span_room_falls};
ghost use Rattle.cc_ranges.specs.laws.ToldSpans.{span_members_below, span_comparison_told, span_to_kept, span_least_alone, span_range_has};
ghost use Rattle.cc_ranges.specs.laws.TypedSpans.{span_in_reach, span_op_typed, span_one_typed, span_to_typed, span_join_typed};

use crate::ends::{greater, lesser, whole};
use crate::keep::keep;
use crate::rules::{convert, rule, rule_of_one};
use crate::{Interval, Span};
use cc_lattice::{Concrete, IntDomain, Lattice};
use cc_num::{BinOp, IntType, NoMemory, Target, UnOp};
use std::alloc::Global;

impl Lattice for Span {
    ghost AreAlike = { λ _ _. Unit {0} };

    ghost IsBelow = { SpanBelow };

    fn below(&self, other: &Span) -> bool {
        match (self, other) {
            (Span::Empty, _) => true,
            (Span::Between(_), Span::Empty) => false,
            (Span::Between(a), Span::Between(b)) => b.low <= a.low && a.high <= b.high,
        }
    }

    fn join(&self, _alloc: Global, other: &Span) -> Result<Span, NoMemory>
        ensures { IsOkAnd result (λ both. IsLeastUpperBound (λ _ _. Unit {0}) SpanBelow self.now other.now both) }
    {
        Ok(match (self, other) {
            (Span::Empty, _) => *other,
            (_, Span::Empty) => *self,
            (Span::Between(a), Span::Between(b)) => Span::Between(Interval {
                low: lesser(a.low, b.low),
                high: greater(a.high, b.high),
            }),
        })
    }

    ghost alike_itself = { λ _ _ _. tt };

    ghost alike_back = { λ _ _ _. tt };

    ghost below_itself = { λ x _. span_itself x };

    ghost below_through = { λ x y z _ _ _ a b. span_through x y z a b };

    ghost below_both_ways = { λ x y _ a b. spans_same x y a b };
}

impl Concrete for Span {
    ghost Has = { SpanHas };

    fn has(&self, v: i128) -> bool {
        match self {
            Span::Empty => false,
            Span::Between(a) => a.low <= v && v <= a.high,
        }
    }
}

impl IntDomain for Span {
    ghost OpGives = { λ o a b t c r. ends_of r ≡ op_ends o (ends_of a) (ends_of b) t c };

    ghost OpOneGives = { λ o a t c r. ends_of r ≡ op_one_ends o (ends_of a) t c };

    ghost ToGives = { λ a t c r. ends_of r ≡ to_ends (ends_of a) t c };

    ghost KeepGives = { λ test a b r. ends_of r ≡ keep_ends test (ends_of a) (ends_of b) };

    ghost members_of = { λ _. None };

    ghost bounds_of = { ends_of };

    ghost room_of = { room_of_span };

    fn none(_alloc: Global) -> Span {
        Span::Empty
    }

    fn one(_alloc: Global, v: i128) -> Span {
        Span::Between(Interval { low: v, high: v })
    }

    fn whole(_alloc: Global, t: IntType, target: &Target) -> Span {
        whole(t, target)
    }

    fn op(op: BinOp, a: &Span, b: &Span, t: IntType, target: &Target) -> Span {
        match (a, b) {
            (Span::Between(a), Span::Between(b)) => rule(op, a, b, t, target),
            _ => Span::Empty,
        }
    }

    fn op_one(op: UnOp, a: &Span, t: IntType, target: &Target) -> Span {
        match a {
            Span::Between(a) => rule_of_one(op, a, t, target),
            Span::Empty => Span::Empty,
        }
    }

    fn to(&self, t: IntType, target: &Target) -> Span {
        match self {
            Span::Between(a) => convert(a, t, target),
            Span::Empty => Span::Empty,
        }
    }

    fn keep(&self, test: BinOp, other: &Span) -> Span {
        match (self, other) {
            (Span::Between(a), Span::Between(b)) => keep(test, a, b),
            _ => Span::Empty,
        }
    }

    fn members(&self) -> Option<&[i128]> {
        None
    }

    fn bounds(&self) -> Option<(i128, i128)> {
        match self {
            Span::Between(a) => Some((a.low, a.high)),
            Span::Empty => None,
        }
    }

    fn room(&self) -> u128 {
        match self {
            Span::Between(a) => 2u128.pow(70) - 1 - (a.high - a.low).unsigned_abs(),
            Span::Empty => 2u128.pow(70),
        }
    }

    ghost all_alike = { λ _ _. tt };

    ghost below_has = { λ x y h v. span_below_has x y v h };

    ghost members_below = { span_members_below };

    ghost in_reach = { span_in_reach };

    ghost op_typed = { span_op_typed };

    ghost op_one_typed = { span_one_typed };

    ghost to_typed = { span_to_typed };

    ghost join_typed = { span_join_typed };

    ghost op_has = { span_op_has };

    ghost op_grows = { span_op_grows };

    ghost comparison_told = { span_comparison_told };

    ghost op_one_has = { span_one_has };

    ghost op_one_grows = { λ o a r x s t c _. span_one_grows o a r x s t c };

    ghost to_has = { span_to_has };

    ghost to_grows = { span_to_grows };

    ghost to_kept = { span_to_kept };

    ghost keep_has = { span_keep_has };

    ghost keep_below = { span_keep_below };

    ghost keep_grows = { span_keep_grows };

    ghost least_alone = { span_least_alone };

    ghost below_explicit = { λ _ _ _ e. e };

    ghost range_has = { λ x _. span_range_has x };

    ghost members_ascend = { λ _. tt };

    ghost members_all = { λ _. tt };

    ghost bounds_none = { span_none };

    ghost bounds_ends = { span_ends };

    ghost room_bound = { span_room };

    ghost room_falls = { span_room_falls };
}
