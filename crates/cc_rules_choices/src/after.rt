//! What flows from a point whose statement tests.

ghost use Rattle.std.specs.Prelude.{◌≡◌, ℕ, All, IfOk};
ghost use Rattle.cc_rules_choices.specs.Choices.{AreTestsWorkedHere, FitsIf, FitsSwitch};
ghost use Rattle.cc_rules_choices.specs.Sided.{MayTest};
ghost use Rattle.cc_rules_flows.specs.Acts.{Chooses, Tests};
ghost use Rattle.cc_rules_flows.specs.Here.{DoesFlow, IsHere, KeepsShapeHere};
ghost use Rattle.cc_rules_flows.specs.Joins.{AreAlikeAt};
ghost use Rattle.cc_rules_flows.specs.CcStateFacts.declared.facts.PointFact.{PointFact as PointFactOf};
ghost use Rattle.cc_rules_flows.specs.CcStateOperators.Domains.{domain};

use crate::choices::{Choice, all_constants, choices};
use crate::counts::size;
use crate::sides::sides;
use crate::starts::{behind_in, reached};
use cc_program::num::NoMemory;
use cc_program::{Case, Expr, Stmt};
use cc_rules_flows::Here;
use cc_rules_flows::lattice::IntDomain;
use cc_rules_flows::state_facts::PointFact;
use cc_rules_tests::Test;
use std::alloc::Global;

/// What flows from an `if`: to its first list where the condition may be true, and to its second one where it may be false,
/// or behind it where the list is empty.
pub fn after_if<I: IntDomain>(
    alloc: Global,
    here: &Here<'_, I>,
    e: &Expr,
    these: &[Stmt],
    those: &[Stmt],
) -> Result<Vec<(u32, PointFact<I>)>, NoMemory>
    requires here { IsHere (domain I.Has I.IsBelow I.OpGives I.OpOneGives I.ToGives I.KeepGives I.members_of) here.now }
    requires may { MayTest (domain I.Has I.IsBelow I.OpGives I.OpOneGives I.ToGives I.KeepGives I.members_of) here.now e.now }
    requires fits { FitsIf (domain I.Has I.IsBelow I.OpGives I.OpOneGives I.ToGives I.KeepGives I.members_of) here.now these.now those.now }
    ensures flows { IfOk result (λ told. DoesFlow (domain I.Has I.IsBelow I.OpGives I.OpOneGives I.ToGives I.KeepGives I.members_of) here.now (Tests e.now these.now those.now) told.items) }
    ensures kept { IfOk result (λ told. All (λ (flow : ℕ × PointFactOf I). KeepsShapeHere (domain I.Has I.IsBelow I.OpGives I.OpOneGives I.ToGives I.KeepGives I.members_of) here.now flow.1) told.items) }
    ensures alike { IfOk result (λ told. (k : ℕ) → AreAlikeAt k told.items) }
    ensures worked { IfOk result (λ told. AreTestsWorkedHere (domain I.Has I.IsBelow I.OpGives I.OpOneGives I.ToGives I.KeepGives I.members_of) here.now (Tests e.now these.now those.now)) }
{
    let first = size(these);
    let second = size(those);
    let behind = behind_in(here.number, 1 + (first + second), here.point.next.all());
    let these_start = reached(first, here.number + 1, behind);
    let those_start = reached(second, here.number + 1 + first, behind);
    let choices = [
        Choice {
            test: Test::Is(true),
            point: these_start,
        },
        Choice {
            test: Test::Is(false),
            point: those_start,
        },
    ];
    sides(alloc, here, e, &choices)
}

/// What flows from a `switch`: to each case that has a label which the value may equal, to the one of `default` where it
/// may equal none, or behind it where there is no `default`.
pub fn after_switch<I: IntDomain>(
    alloc: Global,
    here: &Here<'_, I>,
    e: &Expr,
    cases: &[Case],
) -> Result<Vec<(u32, PointFact<I>)>, NoMemory>
    requires here { IsHere (domain I.Has I.IsBelow I.OpGives I.OpOneGives I.ToGives I.KeepGives I.members_of) here.now }
    requires may { MayTest (domain I.Has I.IsBelow I.OpGives I.OpOneGives I.ToGives I.KeepGives I.members_of) here.now e.now }
    requires fits { FitsSwitch (domain I.Has I.IsBelow I.OpGives I.OpOneGives I.ToGives I.KeepGives I.members_of) here.now cases.now }
    ensures flows { IfOk result (λ told. DoesFlow (domain I.Has I.IsBelow I.OpGives I.OpOneGives I.ToGives I.KeepGives I.members_of) here.now (Chooses e.now cases.now) told.items) }
    ensures kept { IfOk result (λ told. All (λ (flow : ℕ × PointFactOf I). KeepsShapeHere (domain I.Has I.IsBelow I.OpGives I.OpOneGives I.ToGives I.KeepGives I.members_of) here.now flow.1) told.items) }
    ensures alike { IfOk result (λ told. (k : ℕ) → AreAlikeAt k told.items) }
    ensures worked { IfOk result (λ told. AreTestsWorkedHere (domain I.Has I.IsBelow I.OpGives I.OpOneGives I.ToGives I.KeepGives I.members_of) here.now (Chooses e.now cases.now)) }
{
    let constants = all_constants(alloc, cases)?;
    let choices = choices(alloc, &constants, here.number, cases, here.point.next.all())?;
    sides(alloc, here, e, &choices)
}
