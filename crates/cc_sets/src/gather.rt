ghost use Rattle.std.specs.Prelude.{◌≡◌, ◌↔◌, ◌-◌, ◌≤ℤ◌, ◌<ℤ◌, ℤ, pos, length, Some, None, IsTrue, IfSome};
ghost use Rattle.std.specs.Int.{int_max, int_min};
ghost use Rattle.std.specs.List.{Contains, slice_index_or};
ghost use Rattle.cc_ranges.specs.Ends.{EndsHave};
ghost use Rattle.cc_lattice.specs.Domains.{IsInReach};
ghost use Rattle.cc_explicit.specs.Sets.{most_members, AreInReach};
ghost use Rattle.cc_sets.specs.declared.vals.Vals.{Vals as Set};
ghost use Rattle.cc_sets.specs.Ranges.{AreLeastBits};
ghost use Rattle.cc_sets.specs.Rungs.{ValsHas, ValsBelow, low_of, high_of};
ghost use Rattle.cc_sets.specs.Gatherings.{Holds, Adds, gathered_ends, wider_low, wider_high};

use crate::gathered::{Gathered, Spread};
use crate::{Range, Vals};
use cc_explicit::Explicit;
use cc_num::bits_for;
use std::alloc::Global;

impl Gathered {
    /// No number.
    pub(crate) fn nothing(alloc: Global) -> Gathered
        ensures { (x : Set) → Holds x result }
    {
        Gathered {
            members: Explicit::none(alloc),
            spread: None,
        }
    }

    /// The numbers of a set.
    pub(crate) fn of(set: &Vals) -> Gathered
        ensures { (x : Set) → Holds x result ↔ ValsBelow set.now x }
    {
        match set {
            Vals::Few(few) => Gathered {
                members: few.copy(),
                spread: None,
            },
            Vals::Many(range) => Gathered {
                members: Explicit::none(range.alloc),
                spread: Some(spread_of(range)),
            },
        }
    }

    /// Adds a number.
    pub(crate) fn add(&mut self, v: i128)
        requires { IsInReach v }
        ensures { Adds self.old self.new (λ w. v ≡ w) }
    {
        match self.spread {
            Some(spread) => self.spread = Some(with(spread, v)),
            None => self.add_member(v),
        }
    }

    /// Adds a number to members that are not too many yet.
    fn add_member(&mut self, v: i128)
        requires reach { IsInReach v }
        requires few { self.old.spread ≡ None }
        ensures { Adds self.old self.new (λ w. v ≡ w) }
    {
        if !self.members.insert(v) {
            self.spread = Some(overflow(&self.members, v));
        }
    }

    /// Adds a result, if there is one.
    pub(crate) fn add_result(&mut self, found: Option<i128>)
        requires { IfSome found IsInReach }
        ensures { Adds self.old self.new (λ z. found ≡ Some z) }
    {
        match found {
            Some(z) => self.add(z),
            None => {}
        }
    }

    /// Adds a number where it is to be kept.
    pub(crate) fn add_where(&mut self, keeps: bool, v: i128)
        requires { IsInReach v }
        ensures { Adds self.old self.new (λ z. (v ≡ z) × IsTrue keeps) }
    {
        if keeps {
            self.add(v);
        }
    }

    /// Adds all numbers of a list.
    pub(crate) fn add_list(&mut self, numbers: &[i128])
        requires { AreInReach numbers.now }
        ensures { Adds self.old self.new (λ w. (v : ℤ) × Contains numbers.now v × (v ≡ w)) }
    {
        for v in numbers {
            self.add(*v);
        }
    }

    /// Adds all numbers between two ends.
    pub(crate) fn add_spread(&mut self, spread: Spread)
        ensures { Adds self.old self.new (EndsHave (Some (spread.low, spread.high))) }
    {
        let ends = self.ends();
        self.spread = Some(wider(spread, ends));
    }

    /// Adds the members of a set.
    pub(crate) fn add_all(&mut self, set: &Vals)
        ensures { Adds self.old self.new (ValsHas set.now) }
    {
        match set {
            Vals::Few(few) => self.add_list(few.members()),
            Vals::Many(range) => self.add_spread(spread_of(range)),
        }
    }

    /// The least and the greatest number.
    fn ends(&self) -> Option<(i128, i128)>
        ensures { result ≡ gathered_ends self.now }
    {
        match &self.spread {
            Some(spread) => Some((spread.low, spread.high)),
            None => self.members.ends(),
        }
    }

    /// The least set that has the numbers.
    pub(crate) fn hull(self) -> Vals
        ensures covers { Holds result self }
        ensures least { (x : Set) → Holds x self → ValsBelow result x }
    {
        match self.spread {
            Some(spread) => Vals::Many(range(self.members.allocator(), spread)),
            None => Vals::Few(self.members),
        }
    }
}

/// The ends with one number more.
fn with(spread: Spread, v: i128) -> Spread
    requires { IsInReach v }
    ensures low { result.low ≡ int_min spread.low v }
    ensures high { result.high ≡ int_max spread.high v }
{
    Spread {
        low: spread.low.min(v),
        high: spread.high.max(v),
    }
}

/// The ends with those of other numbers.
fn wider(spread: Spread, ends: Option<(i128, i128)>) -> Spread
    requires { IfSome ends (λ e. IsInReach e.0 × IsInReach e.1) }
    ensures low { result.low ≡ wider_low spread.low ends }
    ensures high { result.high ≡ wider_high spread.high ends }
{
    match ends {
        Some((low, high)) => with(with(spread, low), high),
        None => spread,
    }
}

/// The ends of a full set with one number more.
fn overflow(members: &Explicit, v: i128) -> Spread
    requires reach { IsInReach v }
    requires full { length members.now.items.items ≡ most_members }
    requires absent { Contains members.now.items.items v → ⊥ }
    ensures low { result.low ≡ int_min (slice_index_or members.now.items.items 0 v) v }
    ensures high { result.high ≡ int_max (slice_index_or members.now.items.items (most_members - 1) v) v }
{
    let numbers = members.members();
    Spread {
        low: numbers[0].min(v),
        high: numbers[numbers.len() - 1].max(v),
    }
}

/// The least range that has two ends.
pub(crate) fn range(alloc: Global, spread: Spread) -> Range
    ensures { AreLeastBits spread.low spread.high result.signed result.bits }
{
    if spread.low >= 0 {
        unsigned(alloc, spread)
    } else {
        signed(alloc, spread)
    }
}

/// The least range without a sign.
fn unsigned(alloc: Global, spread: Spread) -> Range
    requires { pos 0 ≤ℤ spread.low }
    ensures { AreLeastBits spread.low spread.high result.signed result.bits }
{
    Range {
        signed: false,
        bits: bits_for(spread.high as u128 + 1),
        alloc,
    }
}

/// The least range with a sign.
fn signed(alloc: Global, spread: Spread) -> Range
    requires { spread.low <ℤ pos 0 }
    ensures { AreLeastBits spread.low spread.high result.signed result.bits }
{
    let below = bits_for(spread.low.unsigned_abs());
    let above = bits_for(spread.high.max(0) as u128 + 1);
    Range {
        signed: true,
        bits: 1 + below.max(above),
        alloc,
    }
}

/// The ends of a range.
pub(crate) fn spread_of(range: &Range) -> Spread
    ensures low { result.low ≡ low_of range.now }
    ensures high { result.high ≡ high_of range.now }
{
    Spread {
        low: range.low(),
        high: range.high(),
    }
}
