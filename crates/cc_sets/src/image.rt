ghost use Rattle.std.specs.Prelude.{◌≡◌, ◌^◌, Some, ◌+ℤ◌, ◌<ℤ◌, ◌≤ℤ◌, ℤ, pos, neg_ℤ, false};
ghost use Rattle.std.specs.List.{Contains};
ghost use Rattle.cc_num.specs.Integers.{IsValueOf, converted};
ghost use Rattle.cc_num.specs.Promotions.{promoted};
ghost use Rattle.cc_num.specs.Results.{result_of, unary_result_of, is_shift};
ghost use Rattle.cc_ranges.specs.Ends.{EndsHave, between};
ghost use Rattle.cc_lattice.specs.Domains.{IsInReach};
ghost use Rattle.cc_explicit.specs.Sets.{AreInReach};
ghost use Rattle.cc_sets.specs.Gatherings.{Adds};
ghost use Rattle.cc_sets.specs.Rungs.{IsHull};

use crate::Vals;
use crate::gathered::{Gathered, Spread};
use cc_explicit::{Explicit, MOST_MEMBERS};
use cc_num::{BinOp, IntType, Target, UnOp, apply, apply_one, convert};
use std::alloc::Global;

impl Gathered {
    /// Adds the results of `v op w`, of all w of a list.
    pub(crate) fn add_row(
        &mut self,
        op: BinOp,
        v: i128,
        seconds: &[i128],
        t: IntType,
        target: &Target,
    )
        requires promotion { promoted t target.now ≡ t }
        requires reach { AreInReach seconds.now }
        requires first { IsValueOf t target.now v }
        requires second { (w : ℤ) → Contains seconds.now w → is_shift op ≡ false → IsValueOf t target.now w }
        ensures { Adds self.old self.new (λ z. (w : ℤ) × Contains seconds.now w × (result_of op v w t target.now ≡ Some z)) }
    {
        for w in seconds {
            self.add_result(apply(op, v, *w, t, target));
        }
    }

    /// Adds the results of `v op w`, of all v and w of two lists.
    pub(crate) fn add_image(
        &mut self,
        op: BinOp,
        firsts: &[i128],
        seconds: &[i128],
        t: IntType,
        target: &Target,
    )
        requires promotion { promoted t target.now ≡ t }
        requires reach { AreInReach seconds.now }
        requires first { (v : ℤ) → Contains firsts.now v → IsValueOf t target.now v }
        requires second { (w : ℤ) → Contains seconds.now w → is_shift op ≡ false → IsValueOf t target.now w }
        ensures { Adds self.old self.new (λ z. (v : ℤ) × Contains firsts.now v × ((w : ℤ) × Contains seconds.now w × (result_of op v w t target.now ≡ Some z))) }
    {
        for v in firsts {
            self.add_row(op, *v, seconds, t, target);
        }
    }

    /// Adds the results of `op v`, of all v of a list.
    pub(crate) fn add_image_of_one(
        &mut self,
        op: UnOp,
        numbers: &[i128],
        t: IntType,
        target: &Target,
    )
        requires promotion { promoted t target.now ≡ t }
        requires first { (v : ℤ) → Contains numbers.now v → IsValueOf t target.now v }
        ensures { Adds self.old self.new (λ z. (v : ℤ) × Contains numbers.now v × (unary_result_of op v t target.now ≡ Some z)) }
    {
        for v in numbers {
            self.add_result(apply_one(op, *v, t, target));
        }
    }

    /// Adds the numbers of a list, converted to a type.
    pub(crate) fn add_converted(&mut self, numbers: &[i128], t: IntType, target: &Target)
        requires { AreInReach numbers.now }
        ensures { Adds self.old self.new (λ z. (v : ℤ) × Contains numbers.now v × (converted v t target.now ≡ z)) }
    {
        for v in numbers {
            self.add(convert(*v, t, target));
        }
    }

    /// Adds a few numbers one after another.
    fn add_run(&mut self, low: i128, count: u32)
        requires reach { IsInReach low }
        requires few { (low +ℤ pos count) ≤ℤ pos (2 ^ 64) }
        ensures { Adds self.old self.new (λ z. (low ≤ℤ z) × (z <ℤ (low +ℤ pos count))) }
    {
        for k in 0..count {
            self.add(low + i128::from(k));
        }
    }
}

/// The least set that has all numbers from `low` to `high`, of which there are none where `high` is less.
pub(crate) fn hull_between(alloc: Global, low: i128, high: i128) -> Vals
    requires least { neg_ℤ (pos (2 ^ 64)) ≤ℤ low }
    requires most { high <ℤ pos (2 ^ 64) }
    ensures { IsHull (EndsHave (between low high)) result }
{
    if high < low {
        Gathered::nothing(alloc).hull()
    } else if high - low < MOST_MEMBERS as i128 {
        hull_of_run(alloc, low, (high - low) as u32 + 1)
    } else {
        hull_of_spread(alloc, Spread { low, high })
    }
}

/// The hull of a few numbers one after another.
fn hull_of_run(alloc: Global, low: i128, count: u32) -> Vals
    requires reach { IsInReach low }
    requires few { (low +ℤ pos count) ≤ℤ pos (2 ^ 64) }
    ensures { IsHull (λ z. (low ≤ℤ z) × (z <ℤ (low +ℤ pos count))) result }
{
    let mut gathered = Gathered::nothing(alloc);
    gathered.add_run(low, count);
    gathered.hull()
}

/// The hull of all between two ends that lie far apart.
fn hull_of_spread(alloc: Global, spread: Spread) -> Vals
    ensures { IsHull (EndsHave (Some (spread.low, spread.high))) result }
{
    let mut gathered = Gathered::nothing(alloc);
    gathered.add_spread(spread);
    gathered.hull()
}

/// The hull of the results of `v op w`, of all members of two explicit sets.
pub(crate) fn image(op: BinOp, a: &Explicit, b: &Explicit, t: IntType, target: &Target) -> Vals
    requires promotion { promoted t target.now ≡ t }
    requires first { (v : ℤ) → Contains a.now.items.items v → IsValueOf t target.now v }
    requires second { (w : ℤ) → Contains b.now.items.items w → is_shift op ≡ false → IsValueOf t target.now w }
    ensures { IsHull (λ z. (v : ℤ) × (w : ℤ) × Contains a.now.items.items v × Contains b.now.items.items w × (result_of op v w t target.now ≡ Some z)) result }
{
    let mut gathered = Gathered::nothing(a.allocator());
    gathered.add_image(op, a.members(), b.members(), t, target);
    gathered.hull()
}

/// The hull of the results of `op v`, of all members of an explicit set.
pub(crate) fn image_of_one(op: UnOp, a: &Explicit, t: IntType, target: &Target) -> Vals
    requires promotion { promoted t target.now ≡ t }
    requires first { (v : ℤ) → Contains a.now.items.items v → IsValueOf t target.now v }
    ensures { IsHull (λ z. (v : ℤ) × Contains a.now.items.items v × (unary_result_of op v t target.now ≡ Some z)) result }
{
    let mut gathered = Gathered::nothing(a.allocator());
    gathered.add_image_of_one(op, a.members(), t, target);
    gathered.hull()
}

/// The hull of the members of an explicit set, converted to a type.
pub(crate) fn convert_few(a: &Explicit, t: IntType, target: &Target) -> Vals
    ensures { IsHull (λ z. (v : ℤ) × Contains a.now.items.items v × (converted v t target.now ≡ z)) result }
{
    let mut gathered = Gathered::nothing(a.allocator());
    gathered.add_converted(a.members(), t, target);
    gathered.hull()
}
