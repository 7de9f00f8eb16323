//! What is known at points, one by one: whether it is below what is known there in other facts, and both together.

ghost use Rattle.std.specs.Prelude.{◌≡◌, ◌↔◌, IsTrue, IfOk};
ghost use Rattle.std.specs.List.{AllZip};
ghost use Rattle.cc_lattice.specs.Tables.{AreJoins};
ghost use Rattle.cc_state_facts.specs.Orders.{ArePointsAlike, AreKnownAlike, IsPointBelow, IsKnownBelow, IsPointJoin, IsKnownJoin};

use crate::facts::PointFact;
use crate::pairs::{are_pairs, common_pairs};
use crate::rows::{are_rows_below, joined_rows};
use crate::shared_sets::{are_shared_below, shared_joins};
use cc_lattice::IntDomain;
use cc_program::num::{List, NoMemory};
use cc_state_shared::share_all;
use std::alloc::Global;

/// Whether what is known at a point is below something else.
pub fn is_point_below<I: IntDomain>(fact: &PointFact<I>, other: &PointFact<I>) -> bool
    requires { ArePointsAlike fact.now other.now }
    ensures { IsTrue result ↔ IsPointBelow I.IsBelow fact.now other.now }
{
    (!fact.off || other.off)
        && (!fact.on || other.on)
        && are_pairs(fact, other.same.all())
        && are_shared_below(fact.locals.all(), other.locals.all())
        && are_rows_below(fact.rows.all(), other.rows.all())
}

/// Both together.
pub fn joined_point<I: IntDomain>(
    alloc: Global,
    fact: &PointFact<I>,
    other: &PointFact<I>,
) -> Result<PointFact<I>, NoMemory>
    requires { ArePointsAlike fact.now other.now }
    ensures { IfOk result (λ both. IsPointJoin I.IsBelow fact.now other.now both) }
{
    let locals = shared_joins(alloc, fact.locals.all(), other.locals.all())?;
    let rows = joined_rows(alloc, fact.rows.all(), other.rows.all())?;
    let same = common_pairs(alloc, fact.same.all(), other)?;
    Ok(PointFact {
        off: fact.off || other.off,
        on: fact.on || other.on,
        locals: List::of(locals),
        rows: List::of(rows),
        same: List::of(same),
    })
}

/// A copy, which shares sets and rows.
pub fn copied_point<I: IntDomain>(
    alloc: Global,
    fact: &PointFact<I>,
) -> Result<PointFact<I>, NoMemory>
    ensures { IfOk result (λ copy. copy ≡ fact.now) }
{
    let locals = share_all(alloc, fact.locals.all())?;
    let rows = share_all(alloc, fact.rows.all())?;
    let same = Vec::from_slice(alloc, fact.same.all())?;
    Ok(PointFact {
        off: fact.off,
        on: fact.on,
        locals: List::of(locals),
        rows: List::of(rows),
        same: List::of(same),
    })
}

/// Whether what is known at a point, if anything, is below something else.
fn is_known_below<I: IntDomain>(known: &Option<PointFact<I>>, other: &Option<PointFact<I>>) -> bool
    requires { AreKnownAlike known.now other.now }
    ensures { IsTrue result ↔ IsKnownBelow I.IsBelow known.now other.now }
{
    match known {
        None => true,
        Some(fact) => match other {
            None => false,
            Some(other) => is_point_below(fact, other),
        },
    }
}

/// Both together, if there is anything.
fn known_join<I: IntDomain>(
    alloc: Global,
    known: &Option<PointFact<I>>,
    other: &Option<PointFact<I>>,
) -> Result<Option<PointFact<I>>, NoMemory>
    requires { AreKnownAlike known.now other.now }
    ensures { IfOk result (λ both. IsKnownJoin I.IsBelow known.now other.now both) }
{
    match known {
        None => match other {
            None => Ok(None),
            Some(other) => Ok(Some(copied_point(alloc, other)?)),
        },
        Some(fact) => match other {
            None => Ok(Some(copied_point(alloc, fact)?)),
            Some(other) => Ok(Some(joined_point(alloc, fact, other)?)),
        },
    }
}

/// Whether what is known at each point is below what is known there in other facts.
pub(crate) fn are_known_below<I: IntDomain>(
    points: &[Option<PointFact<I>>],
    others: &[Option<PointFact<I>>],
) -> bool
    requires { AllZip AreKnownAlike points.now others.now }
    ensures { IsTrue result ↔ AllZip (IsKnownBelow I.IsBelow) points.now others.now }
{
    for (at, known) in points.iter().enumerate() {
        if !is_known_below(known, &others[at]) {
            return false;
        }
    }
    true
}

/// Point by point both together.
pub(crate) fn known_joins<I: IntDomain>(
    alloc: Global,
    points: &[Option<PointFact<I>>],
    others: &[Option<PointFact<I>>],
) -> Result<Vec<Option<PointFact<I>>>, NoMemory>
    requires { AllZip AreKnownAlike points.now others.now }
    ensures { IfOk result (λ both. AreJoins (IsKnownJoin I.IsBelow) points.now others.now both.items) }
{
    let mut both = Vec::new(alloc);
    for (at, known) in points.iter().enumerate() {
        both.push(known_join(alloc, known, &others[at])?)?;
    }
    Ok(both)
}
