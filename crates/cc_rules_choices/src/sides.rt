//! What flows from tests to the points to which control may go.

ghost use Rattle.std.specs.Prelude.{◌≡◌, ◌++◌, ℕ, ℤ, All, length, IfOk, IfSome, OnOk};
ghost use Rattle.std.specs.List.{Contains};
ghost use Rattle.cc_rules_flows.specs.CcLattice.Domains.{IsIntValue};
ghost use Rattle.cc_rules_choices.specs.Choices.{choices_of};
ghost use Rattle.cc_rules_choices.specs.declared.choices.Choice.{Choice as ChoiceOf};
ghost use Rattle.cc_rules_choices.specs.Sided.{AreMembersWorked, AreWorkedHere, DoFlow, IsLike, IsRefined, IsSideTold, MayTest, fact_to};
ghost use Rattle.cc_rules_flows.specs.Here.{IsHere};
ghost use Rattle.cc_rules_tests.specs.Tested.{IsTested, labels_of, test_of};
ghost use Rattle.cc_rules_tests.specs.Trials.{IsTrialOf};
ghost use Rattle.cc_rules_flows.specs.CcStateFacts.declared.facts.PointFact.{PointFact as PointFactOf};
ghost use Rattle.cc_rules_flows.specs.CcStateOperators.Domains.{domain};

use crate::choices::Choice;
use cc_program::Expr;
use cc_program::num::{List, NoMemory};
use cc_rules_flows::Here;
use cc_rules_flows::lattice::IntDomain;
use cc_rules_flows::state_facts::PointFact;
use cc_rules_sides::{is_one_emptied, left_locals, left_rows};
use cc_rules_tests::{Test, Tested, Trial, passes};
use std::alloc::Global;

/// What is known at the point, each set as a test leaves it. None where a register with a value has none left.
fn refined<I: IntDomain>(
    alloc: Global,
    here: &Here<'_, I>,
    trial: &mut Trial<I>,
    tested: &Tested<'_, I>,
) -> Result<Option<PointFact<I>>, NoMemory>
    requires here { IsHere (domain I.Has I.IsBelow I.OpGives I.OpOneGives I.ToGives I.KeepGives I.members_of) here.now }
    requires may { MayTest (domain I.Has I.IsBelow I.OpGives I.OpOneGives I.ToGives I.KeepGives I.members_of) here.now tested.now.expression.now }
    requires tested { IsTested (domain I.Has I.IsBelow I.OpGives I.OpOneGives I.ToGives I.KeepGives I.members_of) tested.now }
    requires context { tested.now.context.now ≡ here.now.context }
    requires trial { IsTrialOf (domain I.Has I.IsBelow I.OpGives I.OpOneGives I.ToGives I.KeepGives I.members_of) here.now.context tested.now.expression.now trial.old }
    ensures trial { IsTrialOf (domain I.Has I.IsBelow I.OpGives I.OpOneGives I.ToGives I.KeepGives I.members_of) here.now.context tested.now.expression.now trial.new }
    ensures refined { IfOk result (λ told. IsRefined (domain I.Has I.IsBelow I.OpGives I.OpOneGives I.ToGives I.KeepGives I.members_of) here.now tested.now.expression.now (test_of tested.now.test) told) }
    ensures like { IfOk result (λ told. IfSome told (IsLike (domain I.Has I.IsBelow I.OpGives I.OpOneGives I.ToGives I.KeepGives I.members_of) here.now)) }
    ensures members { IfOk result (λ told. AreMembersWorked (domain I.Has I.IsBelow I.OpGives I.OpOneGives I.ToGives I.KeepGives I.members_of) here.now tested.now.expression.now (test_of tested.now.test)) }
{
    let fact = here.fact;
    let sets = fact.locals.all();
    let locals = left_locals(alloc, tested, trial, here.context.registers, sets)?;
    let rows = left_rows(alloc, tested, trial, fact)?;
    if is_one_emptied(sets, locals.as_slice()) {
        return Ok(None);
    }
    let pairs = Vec::from_slice(alloc, fact.same.all())?;
    let locals = List::of(locals);
    let rows = List::of(rows);
    let same = List::of(pairs);
    Ok(Some(PointFact {
        off: fact.off,
        on: fact.on,
        locals,
        rows,
        same,
    }))
}

/// What flows where a test passes, if control may go there.
fn side<I: IntDomain>(
    alloc: Global,
    here: &Here<'_, I>,
    trial: &mut Trial<I>,
    e: &Expr,
    test: Test<'_>,
) -> Result<Option<PointFact<I>>, NoMemory>
    requires here { IsHere (domain I.Has I.IsBelow I.OpGives I.OpOneGives I.ToGives I.KeepGives I.members_of) here.now }
    requires may { MayTest (domain I.Has I.IsBelow I.OpGives I.OpOneGives I.ToGives I.KeepGives I.members_of) here.now e.now }
    requires labels { (n : ℤ) → Contains (labels_of (test_of test)) n → IsIntValue n }
    requires trial { IsTrialOf (domain I.Has I.IsBelow I.OpGives I.OpOneGives I.ToGives I.KeepGives I.members_of) here.now.context e.now trial.old }
    ensures trial { IsTrialOf (domain I.Has I.IsBelow I.OpGives I.OpOneGives I.ToGives I.KeepGives I.members_of) here.now.context e.now trial.new }
    ensures told { IfOk result (λ told. IsSideTold (domain I.Has I.IsBelow I.OpGives I.OpOneGives I.ToGives I.KeepGives I.members_of) here.now e.now (test_of test.entry) told) }
    ensures like { IfOk result (λ told. IfSome told (IsLike (domain I.Has I.IsBelow I.OpGives I.OpOneGives I.ToGives I.KeepGives I.members_of) here.now)) }
    ensures worked { IfOk result (λ told. AreWorkedHere (domain I.Has I.IsBelow I.OpGives I.OpOneGives I.ToGives I.KeepGives I.members_of) here.now e.now (test_of test.entry)) }
{
    if !passes(test, trial.whole()) {
        return Ok(None);
    }
    let tested = Tested {
        context: &here.context,
        expression: e,
        test,
    };
    let told = refined(alloc, here, trial, &tested);
    let Tested {
        context: _,
        expression: _,
        test: _,
    } = tested;
    told
}

/// Puts what is told of a point behind other facts, if anything is.
fn put_told<I: IntDomain>(
    told: &mut Vec<(u32, PointFact<I>)>,
    point: u32,
    fact: Option<PointFact<I>>,
) -> Result<(), NoMemory>
    ensures { OnOk result (told.new.items ≡ told.old.items ++ fact_to point fact) }
{
    match fact {
        None => Ok(()),
        Some(fact) => {
            told.push((point, fact))?;
            Ok(())
        }
    }
}

/// What flows from the tests of an expression, one after the other.
fn tested_sides<I: IntDomain>(
    alloc: Global,
    here: &Here<'_, I>,
    trial: &mut Trial<I>,
    e: &Expr,
    choices: &[Choice<'_>],
) -> Result<Vec<(u32, PointFact<I>)>, NoMemory>
    requires here { IsHere (domain I.Has I.IsBelow I.OpGives I.OpOneGives I.ToGives I.KeepGives I.members_of) here.now }
    requires may { MayTest (domain I.Has I.IsBelow I.OpGives I.OpOneGives I.ToGives I.KeepGives I.members_of) here.now e.now }
    requires labels { (choice : ChoiceOf) → Contains choices.now choice → (n : ℤ) → Contains (labels_of (test_of choice.test)) n → IsIntValue n }
    requires trial { IsTrialOf (domain I.Has I.IsBelow I.OpGives I.OpOneGives I.ToGives I.KeepGives I.members_of) here.now.context e.now trial.old }
    ensures flows { IfOk result (λ told. DoFlow (domain I.Has I.IsBelow I.OpGives I.OpOneGives I.ToGives I.KeepGives I.members_of) here.now e.now (choices_of choices.now) told.items) }
    ensures like { IfOk result (λ told. All (λ (flow : ℕ × PointFactOf I). IsLike (domain I.Has I.IsBelow I.OpGives I.OpOneGives I.ToGives I.KeepGives I.members_of) here.now flow.1) told.items) }
    ensures worked { IfOk result (λ told. (choice : ChoiceOf) → Contains choices.now choice → AreWorkedHere (domain I.Has I.IsBelow I.OpGives I.OpOneGives I.ToGives I.KeepGives I.members_of) here.now e.now (test_of choice.test)) }
{
    let mut told = Vec::new(alloc);
    for choice in choices {
        let fact = side(alloc, here, trial, e, choice.test)?;
        put_told(&mut told, choice.point, fact)?;
    }
    Ok(told)
}

/// What flows from the tests of an expression, each with the point to which control goes where it passes.
pub(crate) fn sides<I: IntDomain>(
    alloc: Global,
    here: &Here<'_, I>,
    e: &Expr,
    choices: &[Choice<'_>],
) -> Result<Vec<(u32, PointFact<I>)>, NoMemory>
    requires here { IsHere (domain I.Has I.IsBelow I.OpGives I.OpOneGives I.ToGives I.KeepGives I.members_of) here.now }
    requires may { MayTest (domain I.Has I.IsBelow I.OpGives I.OpOneGives I.ToGives I.KeepGives I.members_of) here.now e.now }
    requires labels { (choice : ChoiceOf) → Contains choices.now choice → (n : ℤ) → Contains (labels_of (test_of choice.test)) n → IsIntValue n }
    ensures flows { IfOk result (λ told. DoFlow (domain I.Has I.IsBelow I.OpGives I.OpOneGives I.ToGives I.KeepGives I.members_of) here.now e.now (choices_of choices.now) told.items) }
    ensures like { IfOk result (λ told. All (λ (flow : ℕ × PointFactOf I). IsLike (domain I.Has I.IsBelow I.OpGives I.OpOneGives I.ToGives I.KeepGives I.members_of) here.now flow.1) told.items) }
    ensures worked { IfOk result (λ told. (choice : ChoiceOf) → Contains choices.now choice → AreWorkedHere (domain I.Has I.IsBelow I.OpGives I.OpOneGives I.ToGives I.KeepGives I.members_of) here.now e.now (test_of choice.test)) }
{
    let mut trial = Trial::new(alloc, &here.context, e)?;
    tested_sides(alloc, here, &mut trial, e, choices)
}
