ghost use Rattle.std.specs.Prelude.{◌≡◌, ◌↔◌, ◌⊎◌, ℤ, pos};
ghost use Rattle.cc_num.specs.Integers.{IsValueOf};
ghost use Rattle.cc_lattice.specs.Domains.{IsInReach};
ghost use Rattle.cc_sets.specs.Rungs.{ValsHas, IsHull};

use crate::gathered::Gathered;
use crate::{Range, Vals};
use cc_explicit::Explicit;
use cc_lattice::Lattice;
use cc_num::{IntType, Target};
use std::alloc::Global;

/// The set of one number.
pub(crate) fn one(alloc: Global, v: i128) -> Vals
    requires { IsInReach v }
    ensures { (w : ℤ) → ValsHas result w ↔ w ≡ v }
{
    let mut few = Explicit::none(alloc);
    few.insert(v);
    Vals::Few(few)
}

/// The set of all values of a type.
pub(crate) fn whole(alloc: Global, t: IntType, target: &Target) -> Vals
    ensures { (v : ℤ) → ValsHas result v ↔ IsValueOf t target.now v }
{
    match t {
        IntType::Bool => truths(alloc),
        _ => Vals::Many(Range {
            signed: t.is_signed(target),
            bits: t.bits(target),
            alloc,
        }),
    }
}

/// 0 and 1.
fn truths(alloc: Global) -> Vals
    ensures { (v : ℤ) → ValsHas result v ↔ ((v ≡ pos 0) ⊎ (v ≡ pos 1)) }
{
    let mut few = Explicit::none(alloc);
    few.insert(0);
    few.insert(1);
    Vals::Few(few)
}

/// The least set that has the members of both.
pub(crate) fn joined(a: &Vals, b: &Vals) -> Vals
    ensures { IsHull (λ v. ValsHas a.now v ⊎ ValsHas b.now v) result }
{
    if b.below(a) {
        a.copy()
    } else if a.below(b) {
        b.copy()
    } else {
        merged(a, b)
    }
}

/// The hull of the members of both, gathered.
fn merged(a: &Vals, b: &Vals) -> Vals
    ensures { IsHull (λ v. ValsHas a.now v ⊎ ValsHas b.now v) result }
{
    let mut gathered = Gathered::of(a);
    gathered.add_all(b);
    gathered.hull()
}
