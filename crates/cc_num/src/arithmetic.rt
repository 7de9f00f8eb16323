ghost use Rattle.std.specs.Prelude.{◌≡◌, ◌≤◌, ◌<◌, ◌^◌, false, pos, neg_ℤ, ◌+ℤ◌, ◌*ℤ◌, ◌≤ℤ◌, ◌<ℤ◌, int_lt, unsigned_abs, IfSome};
ghost use Rattle.cc_num.specs.Integers.{IsValueOf, is_signed, bits_of};
ghost use Rattle.cc_num.specs.Promotions.{promoted};
ghost use Rattle.cc_num.specs.Results.{represented, quotient_of, remainder_of, places_of, left_of, shl_of, shr_of, one_if, result_of, unary_result_of, is_shift};

use crate::{BinOp, IntType, Target, UnOp, convert};

/// `a op b` (C99 6.5.5 to 6.5.12) in a promoted type `t` that both operands have; the second
/// operand of a shift may be any number. `None` is a trap.
#[tactic(auto, unfolding(crate::specs::Results::result_of))]
pub fn apply(op: BinOp, a: i128, b: i128, t: IntType, target: &Target) -> Option<i128>
    requires promotion { promoted t target.now ≡ t }
    requires first { IsValueOf t target.now a }
    requires second { is_shift op ≡ false → IsValueOf t target.now b }
    ensures { result ≡ result_of op a b t target.now }
{
    match op {
        BinOp::Add => represent(a + b, t, target),
        BinOp::Sub => represent(a - b, t, target),
        BinOp::Mul => product(a, b, t, target),
        BinOp::Div => quotient(a, b, t, target),
        BinOp::Rem => remainder(a, b, t, target),
        BinOp::And => Some(convert(a & b, t, target)),
        BinOp::Or => Some(convert(a | b, t, target)),
        BinOp::Xor => Some(convert(a ^ b, t, target)),
        BinOp::Shl => shift_left(a, b, t, target),
        BinOp::Shr => shift_right(a, b, t, target),
        BinOp::Lt => Some(one_if_true(a < b)),
        BinOp::Le => Some(one_if_true(a <= b)),
        BinOp::Gt => Some(one_if_true(a > b)),
        BinOp::Ge => Some(one_if_true(a >= b)),
        BinOp::Eq => Some(one_if_true(a == b)),
        BinOp::Ne => Some(one_if_true(a != b)),
    }
}

/// `-a`, `~a` or `!a` (C99 6.5.3.3) in a promoted type `t` that the operand has. `None` is a trap.
#[tactic(auto, unfolding(crate::specs::Results::unary_result_of))]
pub fn apply_one(op: UnOp, a: i128, t: IntType, target: &Target) -> Option<i128>
    requires promotion { promoted t target.now ≡ t }
    requires first { IsValueOf t target.now a }
    ensures { result ≡ unary_result_of op a t target.now }
{
    match op {
        UnOp::Neg => represent(-a, t, target),
        UnOp::Not => Some(convert(-a - 1, t, target)),
        UnOp::Lnot => Some(one_if_true(a == 0)),
    }
}

/// An exact result in its type: modulo 2^w where that is unsigned, a trap where it is signed and
/// the result is out of its range.
#[tactic(auto, unfolding(crate::specs::Results::represented))]
fn represent(v: i128, t: IntType, target: &Target) -> Option<i128>
    ensures { result ≡ represented v t target.now }
{
    if !t.is_signed(target) {
        Some(convert(v, t, target))
    } else if t.contains(v, target) {
        Some(v)
    } else {
        None
    }
}

/// What a comparison gives (C99 6.5.8, 6; 6.5.9, 3).
fn one_if_true(holds: bool) -> i128
    ensures { result ≡ one_if holds }
{
    if holds { 1 } else { 0 }
}

/// A product in its type. One of unsigned values may leave the 128 bits, so it is taken modulo 2^128 first.
fn product(a: i128, b: i128, t: IntType, target: &Target) -> Option<i128>
    requires promotion { promoted t target.now ≡ t }
    requires first { IsValueOf t target.now a }
    requires second { unsigned_abs b < 2 ^ 64 }
    ensures { result ≡ represented (a *ℤ b) t target.now }
{
    if t.is_signed(target) {
        represent(a * b, t, target)
    } else {
        Some(convert(a.wrapping_mul(b), t, target))
    }
}

/// A quotient truncated toward zero (C99 6.5.5, 6).
fn quotient(a: i128, b: i128, t: IntType, target: &Target) -> Option<i128>
    requires first { IsValueOf t target.now a }
    requires second { IsValueOf t target.now b }
    ensures { result ≡ quotient_of a b t target.now }
{
    if b == 0 {
        None
    } else {
        represent(a / b, t, target)
    }
}

/// A remainder, which is there where the quotient is (C99 6.5.5, 6).
fn remainder(a: i128, b: i128, t: IntType, target: &Target) -> Option<i128>
    requires first { IsValueOf t target.now a }
    requires second { IsValueOf t target.now b }
    ensures { result ≡ remainder_of a b t target.now }
{
    if b == 0 {
        return None;
    }
    quotient(a, b, t, target)?;
    Some(a % b)
}

/// By how many places a shift goes, where that is from 0 to w - 1 (C99 6.5.7, 3).
fn places(b: i128, bits: u32) -> Option<u32>
    ensures value { result ≡ places_of b bits }
    ensures below { IfSome result (λ n. n < bits) }
{
    if 0 <= b && b < i128::from(bits) {
        Some(b as u32)
    } else {
        None
    }
}

/// `a << b` (C99 6.5.7, 4).
fn shift_left(a: i128, b: i128, t: IntType, target: &Target) -> Option<i128>
    requires promotion { promoted t target.now ≡ t }
    requires first { IsValueOf t target.now a }
    ensures { result ≡ shl_of a b t target.now }
{
    let n = places(b, t.bits(target))?;
    left(a, n, t, target)
}

/// `a << n`, which a negative `a` has not.
fn left(a: i128, n: u32, t: IntType, target: &Target) -> Option<i128>
    requires promotion { promoted t target.now ≡ t }
    requires first { IsValueOf t target.now a }
    requires few { n < 64 }
    ensures { result ≡ left_of a t target.now n }
{
    if a < 0 {
        None
    } else {
        product(a, 2i128.pow(n), t, target)
    }
}

/// `a >> b` (C99 6.5.7, 5): it copies the sign, and so rounds down.
fn shift_right(a: i128, b: i128, t: IntType, target: &Target) -> Option<i128>
    ensures { result ≡ shr_of a b t target.now }
{
    let n = places(b, t.bits(target))?;
    Some(a >> n)
}
