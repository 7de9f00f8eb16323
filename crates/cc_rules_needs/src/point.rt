//! What flows to a point: whether the point has it, and the point raised by it.

ghost use Rattle.std.specs.Prelude.{◌≡◌, ◌↔◌, ◌<◌, true, false, IsTrue, IfOk, IfSome, OnErr, length};
ghost use Rattle.cc_rules_needs.specs.Points.{ArePointsAlike, HasFlow, IsWithFlow, IsRaisedAt};
ghost use Rattle.std.specs.Option.{option_copied};
ghost use Rattle.cc_state_facts.specs.Facts.{fact_at};

use crate::lacking::fact;
use crate::raise::set;
use cc_lattice::IntDomain;
use cc_program::num::NoMemory;
use cc_state_facts::{Facts, PointFact, copied_point, is_point_below, joined_point};
use std::alloc::Global;

/// Whether a point has what flows there.
pub fn has_point<I: IntDomain>(facts: &Facts<I>, point: u32, flow: &PointFact<I>) -> bool
    requires { IfSome (fact_at facts.now point) (λ fact. ArePointsAlike flow.now fact) }
    ensures { IsTrue result ↔ HasFlow I.IsBelow flow.now (fact_at facts.now point) }
{
    match fact(facts, point) {
        Some(fact) => is_point_below(flow, fact),
        None => false,
    }
}

/// What a point has, with what flows there.
fn with_flow<I: IntDomain>(
    alloc: Global,
    fact: Option<&PointFact<I>>,
    flow: &PointFact<I>,
) -> Result<PointFact<I>, NoMemory>
    requires { IfSome (option_copied fact) (λ fact. ArePointsAlike fact flow.now) }
    ensures { IfOk result (λ both. IsWithFlow I.IsBelow (option_copied fact.entry) flow.now both) }
{
    match fact {
        Some(fact) => joined_point(alloc, fact, flow),
        None => copied_point(alloc, flow),
    }
}

/// Raises a point by what flows there, where it lacks that, and says whether it rose. A point that is not reached becomes what flows there.
pub fn raise_point<I: IntDomain>(
    alloc: Global,
    facts: &mut Facts<I>,
    point: u32,
    flow: &PointFact<I>,
) -> Result<bool, NoMemory>
    requires there { point < length facts.old.at }
    requires alike { IfSome (fact_at facts.old point) (λ fact. ArePointsAlike flow.now fact) }
    ensures rose { IfOk result (λ rose. rose ≡ true → (HasFlow I.IsBelow flow.now (fact_at facts.old point) → ⊥) × IsRaisedAt I.IsBelow facts.old point flow.now facts.new) }
    ensures had { IfOk result (λ rose. rose ≡ false → HasFlow I.IsBelow flow.now (fact_at facts.old point) × (facts.new ≡ facts.old)) }
    ensures same { OnErr result (facts.new ≡ facts.old) }
{
    if has_point(facts, point, flow) {
        return Ok(false);
    }
    let risen = with_flow(alloc, fact(facts, point), flow)?;
    set(alloc, &mut facts.at, point as usize, Some(risen));
    Ok(true)
}
