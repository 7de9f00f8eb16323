ghost use Rattle.std.specs.Prelude.{◌≡◌, ◌≢◌, ◌↔◌, ◌⊎◌, ◌≤◌, ◌<◌, ◌≤ℤ◌, ◌^◌, ℕ, ℤ, List, Option, Some, None, true, IsTrue, IfSome};
ghost use Rattle.std.specs.List.{Contains};
ghost use Rattle.std.specs.Option.{option_copied};
ghost use Rattle.cc_num.specs.declared.int_type.IntType.{IntType};
ghost use Rattle.cc_num.specs.declared.target.Target.{Target};
ghost use Rattle.cc_num.specs.declared.op.BinOp.{BinOp};
ghost use Rattle.cc_num.specs.declared.op.UnOp.{UnOp};
ghost use Rattle.cc_num.specs.Integers.{IsValueOf, converted};
ghost use Rattle.cc_num.specs.Results.{result_of, unary_result_of};
ghost use Rattle.cc_lattice.specs.Orders.{IsLeastUpperBound};
ghost use Rattle.cc_lattice.specs.Domains.{IsIntValue, IsInReach, AreOperands, AreOperandsOne, AreMatched, IsResultOf, is_comparison, is_order, type_given, type_given_of_one, passes, Ascends, AreEnds};

use crate::Lattice;
use cc_num::{BinOp, IntType, Target, UnOp};
use std::alloc::Global;

/// Sets of numbers.
pub trait Concrete {
    /// The members of the set.
    ghost Has: { Self → ℤ → Type 0 };

    /// Whether the number is a member.
    fn has(&self, v: i128) -> bool
        ensures { IsTrue result ↔ Has self.now v };
}

/// A lattice of sets of numbers, over which C's operators are worked (C99 6.5).
///
/// All values are of one kind. A value may have more members than the results that it stands for,
/// never fewer. An operator's operands are of its type, which is promoted; a shift's count may be of
/// any type.
///
/// A domain may keep an allocator in its values, so the calls that make a value of none take one. No call can fail.
pub trait IntDomain: Lattice + Concrete {
    /// `OpGives op a b t c r`: `op` of a and b gives r.
    ghost OpGives: { BinOp → Self → Self → IntType → Target → Self → Type 0 };

    /// `OpOneGives op a t c r`: `op_one` of a gives r.
    ghost OpOneGives: { UnOp → Self → IntType → Target → Self → Type 0 };

    /// `ToGives a t c r`: `to` of a gives r.
    ghost ToGives: { Self → IntType → Target → Self → Type 0 };

    /// `KeepGives test a b r`: `keep` of a by b gives r.
    ghost KeepGives: { BinOp → Self → Self → Self → Type 0 };

    /// The members of an explicit set, ascending.
    ghost members_of: { Self → Option (List ℤ) };

    /// The least and the greatest member.
    ghost bounds_of: { Self → Option (ℤ × ℤ) };

    /// How often the value can still rise, at the most.
    ghost room_of: { Self → ℕ };

    /// The empty set.
    fn none(alloc: Global) -> Self
        ensures empty { (v : ℤ) → Self.Has result v → ⊥ }
        ensures least { (x : Self) → Self.IsBelow result x };

    /// The set of one number.
    fn one(alloc: Global, v: i128) -> Self
        requires { IsIntValue v }
        ensures has { (w : ℤ) → Self.Has result w ↔ w ≡ v }
        ensures least { (x : Self) → Self.Has x v → Self.IsBelow result x };

    /// The set of all values of a type.
    fn whole(alloc: Global, t: IntType, target: &Target) -> Self
        ensures { (v : ℤ) → Self.Has result v ↔ IsValueOf t target.now v };

    /// The results of `v op w`, of members v and w, in the type t.
    fn op(op: BinOp, a: &Self, b: &Self, t: IntType, target: &Target) -> Self
        requires { AreOperands Self.Has op a.now b.now t target.now }
        ensures { OpGives op a.now b.now t target.now result };

    /// The results of an operator of one operand, in the type t.
    fn op_one(op: UnOp, a: &Self, t: IntType, target: &Target) -> Self
        requires { AreOperandsOne Self.Has a.now t target.now }
        ensures { OpOneGives op a.now t target.now result };

    /// The members, converted to a type.
    fn to(&self, t: IntType, target: &Target) -> Self
        ensures { ToGives self.now t target.now result };

    /// The members that may pass a comparison with a member of the other set.
    fn keep(&self, test: BinOp, other: &Self) -> Self
        requires { is_comparison test ≡ true }
        ensures { KeepGives test self.now other.now result };

    /// The members of an explicit set, ascending. `None` for a range.
    fn members(&self) -> Option<&[i128]>
        ensures { option_copied result ≡ members_of self.now };

    /// The least and the greatest member. `None` for the empty set.
    fn bounds(&self) -> Option<(i128, i128)>
        ensures { result ≡ bounds_of self.now };

    /// How often the value can still rise, at the most.
    fn room(&self) -> u128
        ensures { result ≡ room_of self.now };

    /// All values are of one kind.
    ghost all_alike: { (x y : Self) → Self.AreAlike x y };

    /// A value has every member of a value below it.
    ghost below_has: { (x y : Self) → Self.IsBelow x y → (v : ℤ) → Self.Has x v → Self.Has y v };

    /// A value is below each value that has all its members.
    ghost members_below: { (x y : Self) → ((v : ℤ) → Self.Has x v → Self.Has y v) → Self.IsBelow x y };

    /// Members are numbers of at most 65 bits.
    ghost in_reach: { (x : Self) (v : ℤ) → Self.Has x v → IsInReach v };

    /// `op` gives values of its type, and a comparison those of int.
    ghost op_typed: { (op : BinOp) (a b r : Self) (t : IntType) (c : Target) → AreOperands Self.Has op a b t c → OpGives op a b t c r →
        (v : ℤ) → Self.Has r v → IsValueOf (type_given op t) c v };

    /// `op_one` gives values of its type, and `!` those of int.
    ghost op_one_typed: { (op : UnOp) (a r : Self) (t : IntType) (c : Target) → AreOperandsOne Self.Has a t c → OpOneGives op a t c r →
        (v : ℤ) → Self.Has r v → IsValueOf (type_given_of_one op t) c v };

    /// `to` gives values of the type.
    ghost to_typed: { (a r : Self) (t : IntType) (c : Target) → ToGives a t c r → (v : ℤ) → Self.Has r v → IsValueOf t c v };

    /// A join of values of a type has no others.
    ghost join_typed: { (x y j : Self) (t : IntType) (c : Target) → IsLeastUpperBound Self.AreAlike Self.IsBelow x y j →
        ((v : ℤ) → Self.Has x v → IsValueOf t c v) → ((v : ℤ) → Self.Has y v → IsValueOf t c v) → (v : ℤ) → Self.Has j v → IsValueOf t c v };

    /// `op` has every result that does not trap.
    ghost op_has: { (op : BinOp) (a b r : Self) (t : IntType) (c : Target) → AreOperands Self.Has op a b t c → OpGives op a b t c r →
        (v w z : ℤ) → Self.Has a v → Self.Has b w → result_of op v w t c ≡ Some z → Self.Has r z };

    /// `op` gives more for more.
    ghost op_grows: { (op : BinOp) (a b r x y s : Self) (t : IntType) (c : Target) → AreOperands Self.Has op x y t c →
        OpGives op a b t c r → OpGives op x y t c s → Self.IsBelow a x → Self.IsBelow b y → Self.IsBelow r s };

    /// A comparison gives nothing but results of members, if it is one of order. `==` and `!=` may give more for an explicit set
    /// of two members or more and one that is not explicit.
    ghost comparison_told: { (op : BinOp) (a b r : Self) (t : IntType) (c : Target) → is_comparison op ≡ true → AreOperands Self.Has op a b t c →
        OpGives op a b t c r → (is_order op ≡ true) ⊎ AreMatched Self.Has members_of a b → (z : ℤ) → Self.Has r z → IsResultOf Self.Has op a b t c z };

    /// `op_one` has every result that does not trap.
    ghost op_one_has: { (op : UnOp) (a r : Self) (t : IntType) (c : Target) → AreOperandsOne Self.Has a t c → OpOneGives op a t c r →
        (v z : ℤ) → Self.Has a v → unary_result_of op v t c ≡ Some z → Self.Has r z };

    /// `op_one` gives more for more.
    ghost op_one_grows: { (op : UnOp) (a r x s : Self) (t : IntType) (c : Target) → AreOperandsOne Self.Has x t c →
        OpOneGives op a t c r → OpOneGives op x t c s → Self.IsBelow a x → Self.IsBelow r s };

    /// `to` has every member, converted.
    ghost to_has: { (a r : Self) (t : IntType) (c : Target) → ToGives a t c r → (v : ℤ) → Self.Has a v → Self.Has r (converted v t c) };

    /// `to` gives more for more.
    ghost to_grows: { (a r x s : Self) (t : IntType) (c : Target) → ToGives a t c r → ToGives x t c s → Self.IsBelow a x → Self.IsBelow r s };

    /// A value with members of a type alone stays what it is when it is converted to that type.
    ghost to_kept: { (a r : Self) (t : IntType) (c : Target) → ToGives a t c r → ((v : ℤ) → Self.Has a v → IsValueOf t c v) → r ≡ a };

    /// `keep` keeps each member that passes against some member of the other.
    ghost keep_has: { (test : BinOp) (a b r : Self) → is_comparison test ≡ true → KeepGives test a b r →
        (v w : ℤ) → Self.Has a v → Self.Has b w → passes test v w ≡ true → Self.Has r v };

    /// `keep` keeps no more than there was.
    ghost keep_below: { (test : BinOp) (a b r : Self) → is_comparison test ≡ true → KeepGives test a b r → Self.IsBelow r a };

    /// `keep` gives more for more.
    ghost keep_grows: { (test : BinOp) (a b r x y s : Self) → is_comparison test ≡ true → KeepGives test a b r → KeepGives test x y s →
        Self.IsBelow a x → Self.IsBelow b y → Self.IsBelow r s };

    /// The least value that has a number has no other.
    ghost least_alone: { (x : Self) (v : ℤ) → Self.Has x v → ((y : Self) → Self.Has y v → Self.IsBelow x y) → (w : ℤ) → Self.Has x w → v ≡ w };

    /// What is below an explicit set is explicit.
    ghost below_explicit: { (x y : Self) → Self.IsBelow x y → members_of x ≡ None → members_of y ≡ None };

    /// A range has all numbers between its bounds.
    ghost range_has: { (x : Self) → members_of x ≡ None → IfSome (bounds_of x) (λ ends. (v : ℤ) → ends.0 ≤ℤ v → v ≤ℤ ends.1 → Self.Has x v) };

    /// Explicit members ascend.
    ghost members_ascend: { (x : Self) → IfSome (members_of x) Ascends };

    /// Explicit members are the members.
    ghost members_all: { (x : Self) → IfSome (members_of x) (λ vs. (v : ℤ) → Contains vs v ↔ Self.Has x v) };

    /// There are no bounds exactly where there is no member.
    ghost bounds_none: { (x : Self) → (bounds_of x ≡ None) ↔ ((v : ℤ) → Self.Has x v → ⊥) };

    /// The bounds are the least and the greatest member.
    ghost bounds_ends: { (x : Self) → IfSome (bounds_of x) (AreEnds (Self.Has x)) };

    /// The room has a bound.
    ghost room_bound: { (x : Self) → room_of x ≤ 2 ^ 70 };

    /// A value strictly above another has less room.
    ghost room_falls: { (x y : Self) → Self.IsBelow x y → x ≢ y → room_of y < room_of x };
}
