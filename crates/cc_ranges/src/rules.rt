ghost use Rattle.std.specs.Prelude.{◌≡◌, ◌^◌, ◌≤◌, ◌<◌, ◌≤ℤ◌, ◌<ℤ◌, pos, neg_ℤ, unsigned_abs, false, IfSome};
ghost use Rattle.cc_num.specs.Promotions.{promoted};
ghost use Rattle.cc_ranges.specs.Rules.{mul_rule, div_rule, rem_rule, and_rule, or_rule, width_of, counts_of, AreCountsBelow, shl_rule, shr_rule, verdict, lt_rule, le_rule, eq_rule, ne_rule, rule_of, op_ends, not_rule, rule_of_one, op_one_ends, conversion_rule, to_ends, only_zero, magnitude, are_one, are_apart};
ghost use Rattle.cc_num.specs.Results.{is_shift};
ghost use Rattle.cc_ranges.specs.Ends.{LieIn, IsInterval, lies_in};
ghost use Rattle.cc_ranges.specs.Spans.{ends_of};

use crate::ends::{between, fitted, greater, lesser, lies_in, whole};
use crate::{Interval, Span};
use cc_num::{BinOp, IntType, Target, UnOp};

/// The ends of `a op b` by the rule of the operator.
#[tactic(auto, unfolding(crate::specs::Rules::rule_of))]
pub(crate) fn rule(op: BinOp, a: &Interval, b: &Interval, t: IntType, target: &Target) -> Span
    requires promotion { promoted t target.now ≡ t }
    requires first { LieIn a.now.low a.now.high t target.now }
    requires second { is_shift op ≡ false → LieIn b.now.low b.now.high t target.now }
    ensures { ends_of result ≡ rule_of op a.now.low a.now.high b.now.low b.now.high t target.now }
{
    match op {
        BinOp::Add => fitted(a.low + b.low, a.high + b.high, t, target),
        BinOp::Sub => fitted(a.low - b.high, a.high - b.low, t, target),
        BinOp::Mul => product(a, b, t, target),
        BinOp::Div => quotient(a, b, t, target),
        BinOp::Rem => remainder(a, b, t, target),
        BinOp::And => and(a, b, t, target),
        BinOp::Or | BinOp::Xor => or(a, b, t, target),
        BinOp::Shl => shift_left(a, b, t, target),
        BinOp::Shr => shift_right(a, b, t, target),
        BinOp::Lt => verdict(a.high < b.low, b.high <= a.low),
        BinOp::Le => verdict(a.high <= b.low, b.high < a.low),
        BinOp::Gt => verdict(b.high < a.low, a.high <= b.low),
        BinOp::Ge => verdict(b.high <= a.low, a.high < b.low),
        BinOp::Eq => verdict(are_one(a, b), are_apart(a, b)),
        BinOp::Ne => verdict(are_apart(a, b), are_one(a, b)),
    }
}

/// The result of a comparison that is known to hold, is known to fail, or is neither.
fn verdict(holds: bool, fails: bool) -> Span
    ensures { ends_of result ≡ verdict holds fails }
{
    match (holds, fails) {
        (true, _) => between(1, 1),
        (false, true) => between(0, 0),
        (false, false) => between(0, 1),
    }
}

/// Whether two intervals are one and the same number.
fn are_one(a: &Interval, b: &Interval) -> bool
    ensures { result ≡ are_one a.now.low a.now.high b.now.low b.now.high }
{
    a.high <= b.low && b.high <= a.low
}

/// Whether two intervals have no number in common.
fn are_apart(a: &Interval, b: &Interval) -> bool
    ensures { result ≡ are_apart a.now.low a.now.high b.now.low b.now.high }
{
    a.high < b.low || b.high < a.low
}

/// The ends of `a * b`: the least and the greatest product of two ends. A product of ends may leave
/// the 128 bits, and then it leaves every type.
#[tactic(auto, unfolding(crate::specs::Rules::mul_rule))]
fn product(a: &Interval, b: &Interval, t: IntType, target: &Target) -> Span
    requires first { LieIn a.now.low a.now.high t target.now }
    requires second { LieIn b.now.low b.now.high t target.now }
    ensures { ends_of result ≡ mul_rule a.now.low a.now.high b.now.low b.now.high t target.now }
{
    let first = a.low.saturating_mul(b.low);
    let second = a.low.saturating_mul(b.high);
    let third = a.high.saturating_mul(b.low);
    let fourth = a.high.saturating_mul(b.high);
    let low = lesser(lesser(first, second), lesser(third, fourth));
    let high = greater(greater(first, second), greater(third, fourth));
    fitted(low, high, t, target)
}

/// Whether 0 is the only number of an interval.
fn only_zero(a: &Interval) -> bool
    ensures { result ≡ only_zero a.now.low a.now.high }
{
    0 <= a.low && a.high <= 0
}

/// The greatest magnitude of a number of an interval.
fn magnitude(a: &Interval) -> u128
    ensures value { result ≡ magnitude a.now.low a.now.high }
    ensures most { result < 2 ^ 64 }
{
    a.low.unsigned_abs().max(a.high.unsigned_abs())
}

/// The ends of `a / b`.
#[tactic(auto, unfolding(crate::specs::Rules::div_rule))]
fn quotient(a: &Interval, b: &Interval, t: IntType, target: &Target) -> Span
    ensures { ends_of result ≡ div_rule a.now.low a.now.high b.now.low b.now.high t target.now }
{
    if only_zero(b) {
        return Span::Empty;
    }
    if a.low >= 0 && b.low >= 0 {
        return fitted(0, a.high, t, target);
    }
    let most = magnitude(a) as i128;
    fitted(-most, most, t, target)
}

/// The ends of `a % b`.
#[tactic(auto, unfolding(crate::specs::Rules::rem_rule))]
fn remainder(a: &Interval, b: &Interval, t: IntType, target: &Target) -> Span
    ensures { ends_of result ≡ rem_rule a.now.low a.now.high b.now.low b.now.high t target.now }
{
    if only_zero(b) {
        return Span::Empty;
    }
    let most = magnitude(a).min(magnitude(b) - 1) as i128;
    if a.low >= 0 {
        fitted(0, most, t, target)
    } else {
        fitted(-most, most, t, target)
    }
}

/// The ends of `a & b`.
#[tactic(auto, unfolding(crate::specs::Rules::and_rule))]
fn and(a: &Interval, b: &Interval, t: IntType, target: &Target) -> Span
    ensures { ends_of result ≡ and_rule a.now.low a.now.high b.now.low b.now.high t target.now }
{
    match (a.low >= 0, b.low >= 0) {
        (true, true) => Span::Between(Interval {
            low: 0,
            high: lesser(a.high, b.high),
        }),
        (true, false) => Span::Between(Interval {
            low: 0,
            high: a.high,
        }),
        (false, true) => Span::Between(Interval {
            low: 0,
            high: b.high,
        }),
        (false, false) => whole(t, target),
    }
}

/// The ends of `a | b` and of `a ^ b`.
#[tactic(auto, unfolding(crate::specs::Rules::or_rule))]
fn or(a: &Interval, b: &Interval, t: IntType, target: &Target) -> Span
    ensures { ends_of result ≡ or_rule a.now.low a.now.high b.now.low b.now.high t target.now }
{
    if a.low >= 0 && b.low >= 0 {
        let width = width(greater(a.high, b.high));
        Span::Between(Interval {
            low: 0,
            high: 2i128.pow(width) - 1,
        })
    } else {
        whole(t, target)
    }
}

/// How many bits tell a number.
fn width(v: i128) -> u32
    requires least { pos 0 ≤ℤ v }
    requires most { v <ℤ pos (2 ^ 64) }
    ensures value { result ≡ width_of v }
    ensures most { result ≤ 64 }
{
    128 - v.unsigned_abs().leading_zeros()
}

/// The counts of a shift that do not trap.
fn counts(b: &Interval, bits: u32) -> Span
    requires { (1 ≤ bits) × (bits ≤ 64) }
    ensures value { ends_of result ≡ counts_of b.now.low b.now.high bits }
    ensures inside { AreCountsBelow (ends_of result) bits }
{
    between(greater(0, b.low), lesser(i128::from(bits) - 1, b.high))
}

/// The ends of `a << b`.
#[tactic(auto, unfolding(crate::specs::Rules::shl_rule))]
fn shift_left(a: &Interval, b: &Interval, t: IntType, target: &Target) -> Span
    ensures { ends_of result ≡ shl_rule a.now.low a.now.high b.now.low b.now.high t target.now }
{
    if a.high < 0 {
        return Span::Empty;
    }
    match counts(b, t.bits(target)) {
        Span::Empty => Span::Empty,
        Span::Between(counts) => fitted(0, a.high * 2i128.pow(counts.high as u32), t, target),
    }
}

/// The ends of `a >> b`.
#[tactic(auto, unfolding(crate::specs::Rules::shr_rule))]
fn shift_right(a: &Interval, b: &Interval, t: IntType, target: &Target) -> Span
    ensures { ends_of result ≡ shr_rule a.now.low a.now.high b.now.low b.now.high t target.now }
{
    match counts(b, t.bits(target)) {
        Span::Empty => Span::Empty,
        Span::Between(counts) => Span::Between(Interval {
            low: lesser(0, a.low),
            high: if a.high < 0 {
                -1
            } else {
                a.high >> counts.low as u32
            },
        }),
    }
}

/// The ends of `op a` by the rule of the operator.
#[tactic(auto, unfolding(crate::specs::Rules::rule_of_one))]
pub(crate) fn rule_of_one(op: UnOp, a: &Interval, t: IntType, target: &Target) -> Span
    requires promotion { promoted t target.now ≡ t }
    requires first { LieIn a.now.low a.now.high t target.now }
    ensures { ends_of result ≡ rule_of_one op a.now.low a.now.high t target.now }
{
    match op {
        UnOp::Neg => fitted(-a.high, -a.low, t, target),
        UnOp::Not => complement(a, t, target),
        UnOp::Lnot => verdict(a.high <= 0 && 0 <= a.low, a.high < 0 || 0 < a.low),
    }
}

/// The ends of `~a`.
fn complement(a: &Interval, t: IntType, target: &Target) -> Span
    requires { LieIn a.now.low a.now.high t target.now }
    ensures { ends_of result ≡ not_rule a.now.low a.now.high t target.now }
{
    if t.is_signed(target) {
        Span::Between(Interval {
            low: -a.high - 1,
            high: -a.low - 1,
        })
    } else {
        let most = t.most(target);
        Span::Between(Interval {
            low: most - a.high,
            high: most - a.low,
        })
    }
}

/// The ends of an interval's numbers, converted to a type.
#[tactic(auto, unfolding(crate::specs::Rules::conversion_rule))]
pub(crate) fn convert(a: &Interval, t: IntType, target: &Target) -> Span
    ensures { ends_of result ≡ conversion_rule a.now.low a.now.high t target.now }
{
    match t {
        IntType::Bool => verdict(a.high < 0 || 0 < a.low, a.high <= 0 && 0 <= a.low),
        _ if lies_in(a.low, a.high, t, target) => Span::Between(*a),
        _ => whole(t, target),
    }
}
