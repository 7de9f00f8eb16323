//! Facts are raised by what is asked of them.

ghost use Rattle.std.specs.Prelude.{◌≡◌, true, false, length, IfOk, OnOk};
ghost use Rattle.cc_rules_asked.specs.CcFlow.Points.{flow_of};
ghost use Rattle.cc_rules_asked.specs.Asked.{needs_of, all_needs};
ghost use Rattle.cc_rules_asked.specs.CcRulesNeeds.Flowing.{of_fact, needs_at};
ghost use Rattle.cc_rules_asked.specs.CcRulesNeeds.Needs.{HasAll};
ghost use Rattle.cc_rules_layout.specs.Raisable.{IsLaidOutAt, IsRaisable, AreRaisable};
ghost use Rattle.cc_rules_raised.specs.Steps.{IsStep, AllFit, IsFitFor};
ghost use Rattle.cc_rules_shaped.specs.Shaped.{AreFit};
ghost use Rattle.cc_rules_grow.specs.CcState.Shape.{HaveShape};
ghost use Rattle.cc_rules_asked.specs.CcStateFacts.declared.facts.Facts.{Facts as FactsOf};
ghost use Rattle.cc_rules_asked.specs.CcStateFacts.Orders.{IsBelow};
ghost use Rattle.cc_rules_asked.specs.CcStateKeys.Tracked.{tracked};
ghost use Rattle.cc_state_limits.specs.Held.{AreHeld};
ghost use Rattle.cc_rules_asked.specs.CcStateOperators.Domains.{domain};
ghost use Rattle.cc_rules_asked.specs.CcSyntax.Normal.{IsNormal};

use crate::completed::completed;
use crate::slots::{raise_held_point, raise_slot};
use cc_program::Program;
use cc_program::num::NoMemory;
use cc_rules_asked::Asked;
use cc_rules_asked::flow::Flow;
use cc_rules_asked::lattice::IntDomain;
use cc_rules_asked::state_facts::{Facts, PointFact};
use std::alloc::Global;

/// Raises a point by what flows there.
fn raise_flow<I: IntDomain>(
    alloc: Global,
    p: &Program,
    flow: &Flow,
    facts: &mut Facts<I>,
    number: u32,
    registers: u32,
    told: &PointFact<I>,
) -> Result<bool, NoMemory>
    requires normal { IsNormal p.now }
    requires flow { flow.now ≡ flow_of p.now }
    requires shape { HaveShape (domain I.Has I.IsBelow I.OpGives I.OpOneGives I.ToGives I.KeepGives I.members_of) p.now facts.old }
    requires fit { AllFit (domain I.Has I.IsBelow I.OpGives I.OpOneGives I.ToGives I.KeepGives I.members_of) p.now (needs_at number registers (length (tracked p.now)) (of_fact told.now)) }
    requires laid_out { IsLaidOutAt (domain I.Has I.IsBelow I.OpGives I.OpOneGives I.ToGives I.KeepGives I.members_of) p.now number registers told.now }
    ensures step { IsStep (domain I.Has I.IsBelow I.OpGives I.OpOneGives I.ToGives I.KeepGives I.members_of) p.now (needs_at number registers (length (tracked p.now)) (of_fact told.now)) facts.old facts.new }
    ensures has { OnOk result (HasAll I.IsBelow (needs_at number registers (length (tracked p.now)) (of_fact told.now)) facts.new) }
    ensures rose { IfOk result (λ rose. rose ≡ true → facts.new ≡ facts.old → ⊥) }
    ensures same { IfOk result (λ rose. rose ≡ false → facts.new ≡ facts.old) }
    ensures held { AreHeld facts.old → AreHeld facts.new }
{
    let count = told.locals.all().len();
    if count == registers as usize {
        return raise_held_point(alloc, facts, number, told);
    }
    let whole = completed(alloc, p, flow, facts, number, told)?;
    raise_held_point(alloc, facts, number, &whole)
}

/// Raises facts by one thing that is asked.
fn raise_one<I: IntDomain>(
    alloc: Global,
    p: &Program,
    flow: &Flow,
    facts: &mut Facts<I>,
    one: &Asked<I>,
) -> Result<bool, NoMemory>
    requires normal { IsNormal p.now }
    requires flow { flow.now ≡ flow_of p.now }
    requires shape { HaveShape (domain I.Has I.IsBelow I.OpGives I.OpOneGives I.ToGives I.KeepGives I.members_of) p.now facts.old }
    requires fit { IsFitFor (domain I.Has I.IsBelow I.OpGives I.OpOneGives I.ToGives I.KeepGives I.members_of) p.now facts.old one.now }
    requires raisable { IsRaisable (domain I.Has I.IsBelow I.OpGives I.OpOneGives I.ToGives I.KeepGives I.members_of) p.now facts.old one.now }
    ensures step { IsStep (domain I.Has I.IsBelow I.OpGives I.OpOneGives I.ToGives I.KeepGives I.members_of) p.now (needs_of p.now one.now) facts.old facts.new }
    ensures has { OnOk result (HasAll I.IsBelow (needs_of p.now one.now) facts.new) }
    ensures rose { IfOk result (λ rose. rose ≡ true → facts.new ≡ facts.old → ⊥) }
    ensures same { IfOk result (λ rose. rose ≡ false → facts.new ≡ facts.old) }
    ensures held { AreHeld facts.old → AreHeld facts.new }
{
    match one {
        Asked::Part(slot, part) => raise_slot(alloc, facts, *slot, part),
        Asked::Point {
            number,
            registers,
            flow: told,
        } => raise_flow(alloc, p, flow, facts, *number, *registers, told),
    }
}

/// The same for all that is asked.
fn raise_all<I: IntDomain>(
    alloc: Global,
    p: &Program,
    flow: &Flow,
    facts: &mut Facts<I>,
    asked: &[Asked<I>],
) -> Result<bool, NoMemory>
    requires normal { IsNormal p.now }
    requires flow { flow.now ≡ flow_of p.now }
    requires shape { HaveShape (domain I.Has I.IsBelow I.OpGives I.OpOneGives I.ToGives I.KeepGives I.members_of) p.now facts.old }
    requires fit { AreFit (domain I.Has I.IsBelow I.OpGives I.OpOneGives I.ToGives I.KeepGives I.members_of) p.now (all_needs p.now asked.now) }
    requires raisable { AreRaisable (domain I.Has I.IsBelow I.OpGives I.OpOneGives I.ToGives I.KeepGives I.members_of) p.now facts.old asked.now }
    ensures step { IsStep (domain I.Has I.IsBelow I.OpGives I.OpOneGives I.ToGives I.KeepGives I.members_of) p.now (all_needs p.now asked.now) facts.old facts.new }
    ensures has { OnOk result (HasAll I.IsBelow (all_needs p.now asked.now) facts.new) }
    ensures rose { IfOk result (λ rose. rose ≡ true → facts.new ≡ facts.old → ⊥) }
    ensures same { IfOk result (λ rose. rose ≡ false → facts.new ≡ facts.old) }
    ensures held { AreHeld facts.old → AreHeld facts.new }
{
    let mut rose = false;
    for one in asked {
        let risen = raise_one(alloc, p, flow, facts, one)?;
        if risen {
            rose = true;
        }
    }
    Ok(rose)
}

/// Raises facts of a program's shape to the least ones above them that have all that is asked, and says whether they rose. These are the
/// points of the program. After want of memory the facts lie between the old ones and those. Facts that a memory holds stay so.
pub fn raise_asked<I: IntDomain>(
    alloc: Global,
    p: &Program,
    flow: &Flow,
    facts: &mut Facts<I>,
    asked: &[Asked<I>],
) -> Result<bool, NoMemory>
    requires normal { IsNormal p.now }
    requires flow { flow.now ≡ flow_of p.now }
    requires shape { HaveShape (domain I.Has I.IsBelow I.OpGives I.OpOneGives I.ToGives I.KeepGives I.members_of) p.now facts.old }
    requires fit { AreFit (domain I.Has I.IsBelow I.OpGives I.OpOneGives I.ToGives I.KeepGives I.members_of) p.now (all_needs p.now asked.now) }
    requires raisable { AreRaisable (domain I.Has I.IsBelow I.OpGives I.OpOneGives I.ToGives I.KeepGives I.members_of) p.now facts.old asked.now }
    ensures shape { HaveShape (domain I.Has I.IsBelow I.OpGives I.OpOneGives I.ToGives I.KeepGives I.members_of) p.now facts.new }
    ensures above { IsBelow I.IsBelow facts.old facts.new }
    ensures least { (h : FactsOf I) → HaveShape (domain I.Has I.IsBelow I.OpGives I.OpOneGives I.ToGives I.KeepGives I.members_of) p.now h → IsBelow I.IsBelow facts.old h → HasAll I.IsBelow (all_needs p.now asked.now) h → IsBelow I.IsBelow facts.new h }
    ensures has { OnOk result (HasAll I.IsBelow (all_needs p.now asked.now) facts.new) }
    ensures rose { IfOk result (λ rose. rose ≡ true → facts.new ≡ facts.old → ⊥) }
    ensures same { IfOk result (λ rose. rose ≡ false → facts.new ≡ facts.old) }
    ensures held { AreHeld facts.old → AreHeld facts.new }
{
    raise_all(alloc, p, flow, facts, asked)
}
