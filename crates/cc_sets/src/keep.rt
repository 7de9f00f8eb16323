ghost use Rattle.std.specs.Prelude.{◌≡◌, ◌↔◌, ◌≤ℤ◌, ◌<ℤ◌, ℤ, Some, true, IsTrue};
ghost use Rattle.std.specs.List.{Contains};
ghost use Rattle.cc_lattice.specs.Domains.{is_comparison, IsInReach};
ghost use Rattle.cc_ranges.specs.Ends.{EndsHave};
ghost use Rattle.cc_ranges.specs.Keep.{without, keep_rule, keep_ends};
ghost use Rattle.cc_explicit.specs.Sets.{AreInReach};
ghost use Rattle.cc_sets.specs.Gatherings.{Adds};
ghost use Rattle.cc_sets.specs.Ranges.{IsSpread};
ghost use Rattle.cc_sets.specs.Results.{PassesSome};
ghost use Rattle.cc_sets.specs.Rungs.{IsHull, ValsHas, vals_ends, low_of, high_of};

use crate::gather::spread_of;
use crate::gathered::{Gathered, Spread};
use crate::image::hull_between;
use crate::{Range, Vals};
use cc_explicit::Explicit;
use cc_num::BinOp;
use std::alloc::Global;

impl Vals {
    /// The allocator that the set keeps.
    pub(crate) fn allocator(&self) -> Global {
        match self {
            Vals::Few(few) => few.allocator(),
            Vals::Many(range) => range.alloc,
        }
    }

    /// A copy.
    pub(crate) fn copy(&self) -> Vals
        ensures { result ≡ self.now }
    {
        match self {
            Vals::Few(few) => Vals::Few(few.copy()),
            Vals::Many(range) => Vals::Many(*range),
        }
    }

    /// The least and the greatest member.
    pub(crate) fn ends(&self) -> Option<(i128, i128)>
        ensures { result ≡ vals_ends self.now }
    {
        match self {
            Vals::Few(few) => few.ends(),
            Vals::Many(range) => Some((range.low(), range.high())),
        }
    }

    /// Whether a number is a member.
    pub(crate) fn contains(&self, v: i128) -> bool
        ensures { IsTrue result ↔ ValsHas self.now v }
    {
        match self {
            Vals::Few(few) => few.has(v),
            Vals::Many(range) => range.low() <= v && v <= range.high(),
        }
    }
}

/// Whether a number passes a comparison with some member of a set.
pub(crate) fn passes_some(test: BinOp, v: i128, other: &Vals) -> bool
    requires { is_comparison test ≡ true }
    ensures { IsTrue result ↔ PassesSome test v other.now }
{
    match other.ends() {
        None => false,
        Some((low, high)) => match test {
            BinOp::Lt => v < high,
            BinOp::Le => v <= high,
            BinOp::Gt => low < v,
            BinOp::Ge => low <= v,
            BinOp::Eq => other.contains(v),
            _ => v != low || v != high,
        },
    }
}

impl Gathered {
    /// Adds the numbers of a list that pass a comparison with some member of a set.
    pub(crate) fn add_passing(&mut self, test: BinOp, numbers: &[i128], other: &Vals)
        requires comparison { is_comparison test ≡ true }
        requires reach { AreInReach numbers.now }
        ensures { Adds self.old self.new (λ z. (v : ℤ) × Contains numbers.now v × ((v ≡ z) × PassesSome test v other.now)) }
    {
        for v in numbers {
            self.add_where(passes_some(test, *v, other), *v);
        }
    }
}

/// The hull of the part of a range that can pass a comparison with a number between two ends.
pub(crate) fn keep_between(alloc: Global, test: BinOp, range: Spread, low: i128, high: i128) -> Vals
    requires comparison { is_comparison test ≡ true }
    requires low { IsInReach low }
    requires high { IsInReach high }
    ensures { IsHull (EndsHave (keep_rule test range.low range.high low high)) result }
{
    match test {
        BinOp::Lt => hull_between(alloc, range.low, range.high.min(high - 1)),
        BinOp::Le => hull_between(alloc, range.low, range.high.min(high)),
        BinOp::Gt => hull_between(alloc, range.low.max(low + 1), range.high),
        BinOp::Ge => hull_between(alloc, range.low.max(low), range.high),
        BinOp::Eq => hull_between(alloc, range.low.max(low), range.high.min(high)),
        _ if low == high => without(alloc, range, low),
        _ => hull_between(alloc, range.low, range.high),
    }
}

/// The hull of a range without a number that stands at an end.
fn without(alloc: Global, range: Spread, v: i128) -> Vals
    ensures { IsHull (EndsHave (without range.low range.high v)) result }
{
    if range.low == v {
        hull_between(alloc, range.low + 1, range.high)
    } else if range.high == v {
        hull_between(alloc, range.low, range.high - 1)
    } else {
        hull_between(alloc, range.low, range.high)
    }
}

/// The hull of the members of an explicit set that pass a comparison with some member of a set.
pub(crate) fn keep_few(test: BinOp, a: &Explicit, other: &Vals) -> Vals
    requires { is_comparison test ≡ true }
    ensures { IsHull (λ v. Contains a.now.items.items v × PassesSome test v other.now) result }
{
    let mut gathered = Gathered::nothing(a.allocator());
    gathered.add_passing(test, a.members(), other);
    gathered.hull()
}

/// The hull of the part of a range that can pass a comparison with a member of a set.
pub(crate) fn keep_range(test: BinOp, a: &Range, other: &Vals) -> Vals
    requires { is_comparison test ≡ true }
    ensures { IsHull (EndsHave (keep_ends test (Some (low_of a.now, high_of a.now)) (vals_ends other.now))) result }
{
    match other.ends() {
        Some((low, high)) => keep_between(a.alloc, test, spread_of(a), low, high),
        None => Gathered::nothing(a.alloc).hull(),
    }
}
