//! What flows to one point, together.

ghost use Rattle.std.specs.Prelude.{◌≡◌, ℕ, List, IfOk, IfSome};
ghost use Rattle.cc_rules_flows.specs.Joins.{AreAlikeAt, IsWithTold, IsTogether, IsAsThoseAt, flows_to};
ghost use Rattle.cc_rules_flows.specs.Known.{AreTold};
ghost use Rattle.cc_rules_needs.specs.Flowing.{Flowing};
ghost use Rattle.cc_rules_needs.specs.Points.{IsWithFlow};
ghost use Rattle.cc_state_reads.specs.CcStateFacts.Orders.{ArePointsAlike};

use cc_program::num::NoMemory;
use cc_state_reads::lattice::IntDomain;
use cc_state_reads::state_facts::{PointFact, copied_point, joined_point};
use std::alloc::Global;

/// A fact with another one, where there is one already.
fn with_fact<I: IntDomain>(
    alloc: Global,
    known: &Option<PointFact<I>>,
    fact: &PointFact<I>,
) -> Result<PointFact<I>, NoMemory>
    requires { IfSome known.now (λ known. ArePointsAlike known fact.now) }
    ensures { IfOk result (λ both. IsWithFlow I.IsBelow known.now fact.now both) }
{
    match known {
        None => copied_point(alloc, fact),
        Some(known) => joined_point(alloc, known, fact),
    }
}

/// A fact with what is told of a point, where that is this point.
fn with_told<I: IntDomain>(
    alloc: Global,
    known: Option<PointFact<I>>,
    told: &(u32, PointFact<I>),
    point: u32,
) -> Result<Option<PointFact<I>>, NoMemory>
    requires { told.now.0 ≡ point → IfSome known (λ known. ArePointsAlike known told.now.1) }
    ensures { IfOk result (λ both. IsWithTold I.IsBelow point known told.now both) }
{
    if told.0 == point {
        Ok(Some(with_fact(alloc, &known, &told.1)?))
    } else {
        Ok(known)
    }
}

/// All that is told to flow to a point, together. None where nothing flows there.
pub fn joined<I: IntDomain>(
    alloc: Global,
    told: &[(u32, PointFact<I>)],
    point: u32,
) -> Result<Option<PointFact<I>>, NoMemory>
    requires alike { AreAlikeAt point told.now }
    ensures together { IfOk result (λ both. (flows : List (ℕ × Flowing I)) → AreTold told.now flows → IsTogether I.IsBelow (flows_to point flows) both) }
    ensures kept { IfOk result (λ both. IfSome both (λ fact. IsAsThoseAt point told.now fact)) }
{
    let mut both = None;
    for flow in told {
        both = with_told(alloc, both, flow, point)?;
    }
    Ok(both)
}
