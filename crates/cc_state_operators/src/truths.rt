//! Which truths values have, and what `&&`, `||` and `?:` make of them (C99 6.5.13 to 6.5.15).

ghost use Rattle.std.specs.Prelude.{◌≡◌, ◌↔◌, ◌⊎◌, pos, ◌<ℤ◌, true, not, IsTrue, IfOk};
ghost use Rattle.std.specs.List.{list_any};
ghost use Rattle.cc_program.specs.CcNum.declared.int_type.IntType.TheVariants as int;
ghost use Rattle.cc_program.specs.CcNum.declared.target.Target.{Target};
ghost use Rattle.cc_places.specs.declared.abs.Abs.TheVariants as abs;
ghost use Rattle.cc_places.specs.Abstract.{AreOfOneKind};
ghost use Rattle.cc_eval.specs.CcSyntax.Values.{ValueType};
ghost use Rattle.cc_state_operators.specs.Domains.{domain, MayBe, IsHull, AllOf, IsUnion};
ghost use Rattle.cc_state_operators.specs.Operands.{AreTruths, is_other};
ghost use Rattle.cc_state_operators.specs.Types.{AreOf};
ghost use Rattle.cc_state_operators.specs.Results.{ByBoth, ByEither, IsArm};

use cc_lattice::{IntDomain, Lattice, copied};
use cc_places::{Abs, Addrs};
use cc_program::Address;
use cc_program::num::NoMemory;
use std::alloc::Global;

/// Whether a number other than 0 is among these.
fn has_other_numbers<I: IntDomain>(numbers: &I) -> bool
    ensures { IsTrue result ↔ MayBe (domain I.Has I.IsBelow I.OpGives I.OpOneGives I.ToGives I.KeepGives I.members_of) true (abs.Ints numbers.now) }
{
    match numbers.bounds() {
        None => false,
        Some((low, high)) => leaves_zero(low, high),
    }
}

/// Whether a set with these ends has more than 0.
fn leaves_zero(low: i128, high: i128) -> bool
    ensures { IsTrue result ↔ ((low <ℤ pos 0) ⊎ (pos 0 <ℤ high)) }
{
    low < 0 || 0 < high
}

/// Whether an address other than null is among these.
fn has_other_addresses(members: &[Address]) -> bool
    ensures { result ≡ list_any is_other members.now }
{
    members
        .iter()
        .any(|member| !matches!(member, Address::Null))
}

/// Whether a value that is true, or one that is false, is among these.
pub fn may_be<I: IntDomain>(b: bool, x: &Abs<I>) -> bool
    ensures { IsTrue result ↔ MayBe (domain I.Has I.IsBelow I.OpGives I.OpOneGives I.ToGives I.KeepGives I.members_of) b x.now }
{
    match x {
        Abs::Ints(numbers) => {
            if b {
                has_other_numbers(numbers)
            } else {
                numbers.has(0)
            }
        }
        Abs::Addrs(places) => {
            if b {
                has_other_addresses(places.members.all())
            } else {
                places.has(&Address::Null)
            }
        }
    }
}

/// The set of 0, 1, both or neither.
pub(crate) fn truths<I: IntDomain>(
    alloc: Global,
    has_zero: bool,
    has_one: bool,
) -> Result<I, NoMemory>
    ensures hull { IfOk result (λ x. IsHull (domain I.Has I.IsBelow I.OpGives I.OpOneGives I.ToGives I.KeepGives I.members_of) (AreTruths has_zero has_one) x) }
    ensures typed { IfOk result (λ x. (c : Target) → AllOf (domain I.Has I.IsBelow I.OpGives I.OpOneGives I.ToGives I.KeepGives I.members_of) int.Int c x) }
{
    if has_zero {
        if has_one {
            I::one(alloc, 0).join(alloc, &I::one(alloc, 1))
        } else {
            Ok(I::one(alloc, 0))
        }
    } else if has_one {
        Ok(I::one(alloc, 1))
    } else {
        Ok(I::none(alloc))
    }
}

/// Whether the first value may be so, or go on to a second one that may.
fn may_settle<I: IntDomain>(b: bool, x: &Abs<I>, w: &Abs<I>) -> bool
    ensures { IsTrue result ↔ (MayBe (domain I.Has I.IsBelow I.OpGives I.OpOneGives I.ToGives I.KeepGives I.members_of) b x.now ⊎ (MayBe (domain I.Has I.IsBelow I.OpGives I.OpOneGives I.ToGives I.KeepGives I.members_of) (not b) x.now × MayBe (domain I.Has I.IsBelow I.OpGives I.OpOneGives I.ToGives I.KeepGives I.members_of) b w.now)) }
{
    may_be(b, x) || (may_be(!b, x) && may_be(b, w))
}

/// Whether both values may be so.
fn may_both_be<I: IntDomain>(b: bool, x: &Abs<I>, w: &Abs<I>) -> bool
    ensures { IsTrue result ↔ (MayBe (domain I.Has I.IsBelow I.OpGives I.OpOneGives I.ToGives I.KeepGives I.members_of) b x.now × MayBe (domain I.Has I.IsBelow I.OpGives I.OpOneGives I.ToGives I.KeepGives I.members_of) b w.now) }
{
    may_be(b, x) && may_be(b, w)
}

/// `x && w`.
pub(crate) fn both<I: IntDomain>(alloc: Global, x: &Abs<I>, w: &Abs<I>) -> Result<I, NoMemory>
    ensures hull { IfOk result (λ z. IsHull (domain I.Has I.IsBelow I.OpGives I.OpOneGives I.ToGives I.KeepGives I.members_of) (ByBoth (domain I.Has I.IsBelow I.OpGives I.OpOneGives I.ToGives I.KeepGives I.members_of) x.now w.now) z) }
    ensures typed { IfOk result (λ z. (c : Target) → AllOf (domain I.Has I.IsBelow I.OpGives I.OpOneGives I.ToGives I.KeepGives I.members_of) int.Int c z) }
{
    truths(alloc, may_settle(false, x, w), may_both_be(true, x, w))
}

/// `x || w`.
pub(crate) fn either<I: IntDomain>(alloc: Global, x: &Abs<I>, w: &Abs<I>) -> Result<I, NoMemory>
    ensures hull { IfOk result (λ z. IsHull (domain I.Has I.IsBelow I.OpGives I.OpOneGives I.ToGives I.KeepGives I.members_of) (ByEither (domain I.Has I.IsBelow I.OpGives I.OpOneGives I.ToGives I.KeepGives I.members_of) x.now w.now) z) }
    ensures typed { IfOk result (λ z. (c : Target) → AllOf (domain I.Has I.IsBelow I.OpGives I.OpOneGives I.ToGives I.KeepGives I.members_of) int.Int c z) }
{
    truths(alloc, may_both_be(false, x, w), may_settle(true, x, w))
}

/// No values, of the kind of others.
fn none_like<I: IntDomain>(alloc: Global, kind: &Abs<I>) -> Abs<I>
    ensures union { IsUnion (domain I.Has I.IsBelow I.OpGives I.OpOneGives I.ToGives I.KeepGives I.members_of) kind.now (λ z. ⊥) result }
    ensures typed { (t : ValueType) (c : Target) → AreOf (domain I.Has I.IsBelow I.OpGives I.OpOneGives I.ToGives I.KeepGives I.members_of) c t kind.now → AreOf (domain I.Has I.IsBelow I.OpGives I.OpOneGives I.ToGives I.KeepGives I.members_of) c t result }
{
    match kind {
        Abs::Ints(_) => Abs::Ints(I::none(alloc)),
        Abs::Addrs(_) => Abs::Addrs(Addrs::none(alloc)),
    }
}

/// `condition ? x : w`.
pub fn chosen<I: IntDomain>(
    alloc: Global,
    condition: &Abs<I>,
    x: &Abs<I>,
    w: &Abs<I>,
) -> Result<Abs<I>, NoMemory>
    requires { AreOfOneKind x.now w.now }
    ensures union { IfOk result (λ y. IsUnion (domain I.Has I.IsBelow I.OpGives I.OpOneGives I.ToGives I.KeepGives I.members_of) x.now (IsArm (domain I.Has I.IsBelow I.OpGives I.OpOneGives I.ToGives I.KeepGives I.members_of) condition.now x.now w.now) y) }
    ensures typed { IfOk result (λ y. (t : ValueType) (c : Target) → AreOf (domain I.Has I.IsBelow I.OpGives I.OpOneGives I.ToGives I.KeepGives I.members_of) c t x.now → AreOf (domain I.Has I.IsBelow I.OpGives I.OpOneGives I.ToGives I.KeepGives I.members_of) c t w.now → AreOf (domain I.Has I.IsBelow I.OpGives I.OpOneGives I.ToGives I.KeepGives I.members_of) c t y) }
{
    if may_be(true, condition) {
        if may_be(false, condition) {
            x.join(alloc, w)
        } else {
            copied(alloc, x)
        }
    } else if may_be(false, condition) {
        copied(alloc, w)
    } else {
        Ok(none_like(alloc, x))
    }
}
