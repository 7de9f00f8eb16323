//! What is asked of the next points by what is told to flow to each: all that comes to a point, together.

ghost use Rattle.std.specs.Prelude.{◌≡◌, ◌<◌, ◌^◌, ℕ, List, All, length, IfOk, OnOk};
ghost use Rattle.std.specs.List.{Contains};
ghost use Rattle.cc_rules_asked.specs.CcRules.Constraints.{Flow as FlowRule};
ghost use Rattle.cc_rules_asked.specs.Asks.{AsksHere};
ghost use Rattle.cc_rules_asked.specs.CcRulesFlows.Acts.{Act as ActOf};
ghost use Rattle.cc_rules_asked.specs.CcRulesFlows.Here.{IsHere, FlowsHere, KeepsShapeHere};
ghost use Rattle.cc_rules_asked.specs.CcRulesFlows.Joins.{AreAlikeAt};
ghost use Rattle.cc_rules_asked.specs.CcRulesFlows.Known.{AreTold};
ghost use Rattle.cc_rules_asked.specs.CcRulesNeeds.Flowing.{Flowing};
ghost use Rattle.cc_rules_nexts.specs.Told.{AskMore, ComeToEachHere, IsOnward};
ghost use Rattle.cc_rules_asked.specs.CcStateFacts.declared.facts.PointFact.{PointFact as PointFactOf};
ghost use Rattle.cc_rules_asked.specs.CcStateOperators.Domains.{domain};

use cc_program::num::NoMemory;
use cc_rules_asked::Asked;
use cc_rules_asked::lattice::IntDomain;
use cc_rules_asked::rules_flows::{Here, joined};
use cc_rules_asked::state_facts::PointFact;
use std::alloc::Global;

/// Asks of a point all that is told to flow there.
fn put_next<I: IntDomain>(
    alloc: Global,
    asked: &mut Vec<Asked<I>>,
    here: &Here<'_, I>,
    told: &[(u32, PointFact<I>)],
    next: u32,
) -> Result<(), NoMemory>
    requires here { IsHere (domain I.Has I.IsBelow I.OpGives I.OpOneGives I.ToGives I.KeepGives I.members_of) here.now }
    requires alike { (k : ℕ) → AreAlikeAt k told.now }
    ensures asked { OnOk result ((flows : List (ℕ × Flowing I)) → AreTold told.now flows → AskMore (domain I.Has I.IsBelow I.OpGives I.OpOneGives I.ToGives I.KeepGives I.members_of) here.now flows next asked.old.items asked.new.items) }
    ensures onward { OnOk result (All (λ (flow : ℕ × PointFactOf I). KeepsShapeHere (domain I.Has I.IsBelow I.OpGives I.OpOneGives I.ToGives I.KeepGives I.members_of) here.now flow.1) told.now → Contains here.now.point.now.next next → All (IsOnward (domain I.Has I.IsBelow I.OpGives I.OpOneGives I.ToGives I.KeepGives I.members_of) here.now) asked.old.items → All (IsOnward (domain I.Has I.IsBelow I.OpGives I.OpOneGives I.ToGives I.KeepGives I.members_of) here.now) asked.new.items) }
{
    let both = joined(alloc, told, next)?;
    match both {
        None => Ok(()),
        Some(flow) => {
            let registers = here.context.registers.len() as u32;
            asked.push(Asked::Point {
                number: next,
                registers,
                flow,
            })?;
            Ok(())
        }
    }
}

/// The same of each next point.
fn asked_of_nexts<I: IntDomain>(
    alloc: Global,
    here: &Here<'_, I>,
    told: &[(u32, PointFact<I>)],
    nexts: &[u32],
) -> Result<Vec<Asked<I>>, NoMemory>
    requires here { IsHere (domain I.Has I.IsBelow I.OpGives I.OpOneGives I.ToGives I.KeepGives I.members_of) here.now }
    requires alike { (k : ℕ) → AreAlikeAt k told.now }
    ensures asked { IfOk result (λ asked. (flows : List (ℕ × Flowing I)) → AreTold told.now flows → ComeToEachHere (domain I.Has I.IsBelow I.OpGives I.OpOneGives I.ToGives I.KeepGives I.members_of) here.now nexts.now flows asked.items) }
    ensures onward { IfOk result (λ asked. All (λ (flow : ℕ × PointFactOf I). KeepsShapeHere (domain I.Has I.IsBelow I.OpGives I.OpOneGives I.ToGives I.KeepGives I.members_of) here.now flow.1) told.now → ((k : ℕ) → Contains nexts.now k → Contains here.now.point.now.next k) → All (IsOnward (domain I.Has I.IsBelow I.OpGives I.OpOneGives I.ToGives I.KeepGives I.members_of) here.now) asked.items) }
{
    let mut asked = Vec::new(alloc);
    for next in nexts {
        put_next(alloc, &mut asked, here, told, *next)?;
    }
    Ok(asked)
}

/// What is asked of the next points by what is told to flow to each.
pub fn asked_of_told<I: IntDomain>(
    alloc: Global,
    here: &Here<'_, I>,
    told: &[(u32, PointFact<I>)],
) -> Result<Vec<Asked<I>>, NoMemory>
    requires here { IsHere (domain I.Has I.IsBelow I.OpGives I.OpOneGives I.ToGives I.KeepGives I.members_of) here.now }
    requires alike { (k : ℕ) → AreAlikeAt k told.now }
    ensures asked { IfOk result (λ asked. (act : ActOf) (flows : List (ℕ × Flowing I)) → FlowsHere (domain I.Has I.IsBelow I.OpGives I.OpOneGives I.ToGives I.KeepGives I.members_of) here.now act flows → AreTold told.now flows →
        AsksHere (domain I.Has I.IsBelow I.OpGives I.OpOneGives I.ToGives I.KeepGives I.members_of) here.now FlowRule act asked.items) }

    // Each is of a next point, and laid out as what is known here, where what is told is.
    ensures onward { IfOk result (λ asked. All (λ (flow : ℕ × PointFactOf I). KeepsShapeHere (domain I.Has I.IsBelow I.OpGives I.OpOneGives I.ToGives I.KeepGives I.members_of) here.now flow.1) told.now → All (IsOnward (domain I.Has I.IsBelow I.OpGives I.OpOneGives I.ToGives I.KeepGives I.members_of) here.now) asked.items) }
{
    asked_of_nexts(alloc, here, told, here.point.next.all())
}
