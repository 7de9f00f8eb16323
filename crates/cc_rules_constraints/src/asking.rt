//! What each constraint asks of facts, by its number.

ghost use Rattle.std.specs.Prelude.{◌≡◌, ◌<◌, ◌≤◌, ◌^◌, length, slice_get, Some, IfOk};
ghost use Rattle.cc_rules_asked.specs.CcFlow.Points.{count_of};
ghost use Rattle.cc_rules_asked.specs.CcRules.Constraints.{Constraint as ConstraintOf, constraints};
ghost use Rattle.cc_rules_asked.specs.CcRules.Rules.{IsAsked};
ghost use Rattle.cc_rules_asked.specs.Asked.{all_needs};
ghost use Rattle.cc_rules_constraints.specs.Asking.{IsAskedAt, IsAskedBy};
ghost use Rattle.cc_rules_functions.specs.Functions.{IsFunctionOf};
ghost use Rattle.cc_rules_grow.specs.Grown.{IsWorked};
ghost use Rattle.cc_rules_layout.specs.Raisable.{AreRaisable};
ghost use Rattle.cc_rules_made.specs.Rules.{AreOf};
ghost use Rattle.cc_rules_numbered.specs.Numbered.{rule_view, constraint_view};
ghost use Rattle.cc_rules_grow.specs.CcState.Shape.{HaveShape};
ghost use Rattle.cc_rules_asked.specs.CcStateKeys.Keys.{keys_of};
ghost use Rattle.cc_rules_asked.specs.CcStateOperators.Domains.{domain};
ghost use Rattle.cc_rules_asked.specs.CcSyntax.Normal.{IsNormal};

use crate::here::asked_by_here;
use cc_program::num::{NoMemory, at};
use cc_rules_asked::Asked;
use cc_rules_asked::lattice::IntDomain;
use cc_rules_asked::rules_flows::Here;
use cc_rules_asked::state_facts::Facts;
use cc_rules_asked::state_values::Context;
use cc_rules_firsts::{asked_by_firsts, asked_by_start};
use cc_rules_functions::Function;
use cc_rules_here::here_at;
use cc_rules_made::Rules;
use cc_rules_numbered::{Constraint, Rule, constraint_at};
use std::alloc::Global;

/// The function main.
fn main_of<'a, 'p>(rules: &'a Rules<'p>) -> &'a Function<'p>
    requires normal { IsNormal rules.now.program.now }
    requires rules { AreOf rules.now.program.now rules.now }
    ensures { IsFunctionOf rules.now.program.now rules.now.program.now.main result.now }
{
    match at(rules.functions.all(), rules.program.main as usize) {
        None => unreachable!(),
        Some(main) => main,
    }
}

/// A point is done with.
fn end<I>(here: Here<'_, I>) {
    let Here {
        context,
        facts: _,
        tracked: _,
        number: _,
        point: _,
        fact: _,
    } = here;
    let Context {
        program: _,
        id: _,
        func: _,
        registers: _,
        sets: _,
    } = context;
}

/// What a rule asks at a point.
fn asked_at<'a, I: IntDomain>(
    alloc: Global,
    rules: &'a Rules<'a>,
    facts: &'a Facts<I>,
    point: u32,
    rule: Rule,
) -> Result<Vec<Asked<I>>, NoMemory>
    requires normal { IsNormal rules.now.program.now }
    requires rules { AreOf rules.now.program.now rules.now }
    requires shape { HaveShape (domain I.Has I.IsBelow I.OpGives I.OpOneGives I.ToGives I.KeepGives I.members_of) rules.now.program.now facts.now }
    requires few { count_of rules.now.program.now ≤ 65536 }
    requires few_keys { length (keys_of rules.now.program.now) < 2 ^ 32 }
    ensures { IfOk result (λ asked. IsAskedAt (domain I.Has I.IsBelow I.OpGives I.OpOneGives I.ToGives I.KeepGives I.members_of) rules.now.program.now facts.now (rule_view rule) point asked.items) }
{
    let points = rules.flow.points.all();
    let functions = rules.functions.all();
    let tracked = rules.tracked.all();
    match here_at(rules.program, points, functions, tracked, facts, point) {
        None => Ok(Vec::new(alloc)),
        Some(here) => {
            let list = asked_by_here(alloc, rules, &here, rule);
            end(here);
            list
        }
    }
}

/// What a constraint asks.
fn asked_by<I: IntDomain>(
    alloc: Global,
    rules: &Rules<'_>,
    facts: &Facts<I>,
    constraint: Constraint,
) -> Result<Vec<Asked<I>>, NoMemory>
    requires normal { IsNormal rules.now.program.now }
    requires rules { AreOf rules.now.program.now rules.now }
    requires shape { HaveShape (domain I.Has I.IsBelow I.OpGives I.OpOneGives I.ToGives I.KeepGives I.members_of) rules.now.program.now facts.now }
    requires few { count_of rules.now.program.now ≤ 65536 }
    requires few_keys { length (keys_of rules.now.program.now) < 2 ^ 32 }
    ensures { IfOk result (λ asked. IsAskedBy (domain I.Has I.IsBelow I.OpGives I.OpOneGives I.ToGives I.KeepGives I.members_of) rules.now.program.now facts.now (constraint_view constraint) asked.items) }
{
    let point = constraint.point;
    match constraint.rule {
        Rule::Initial => asked_by_firsts(alloc, rules.program, facts),
        Rule::Start => {
            let main = main_of(rules);
            asked_by_start(alloc, rules.program, main, rules.tracked.all(), point)
        }
        rule => asked_at(alloc, rules, facts, point, rule),
    }
}

/// What the constraint with a number asks of facts: exactly that. The values of the tests of a statement were all
/// worked, and facts of the shape can be raised by what is asked as it is laid out. The only error is want of memory.
pub fn asked<I: IntDomain>(
    alloc: Global,
    rules: &Rules<'_>,
    facts: &Facts<I>,
    number: u32,
) -> Result<Vec<Asked<I>>, NoMemory>
    requires normal { IsNormal rules.now.program.now }
    requires rules { AreOf rules.now.program.now rules.now }
    requires shape { HaveShape (domain I.Has I.IsBelow I.OpGives I.OpOneGives I.ToGives I.KeepGives I.members_of) rules.now.program.now facts.now }
    requires few { count_of rules.now.program.now ≤ 65536 }
    requires few_keys { length (keys_of rules.now.program.now) < 2 ^ 32 }
    requires there { number < length (constraints rules.now.program.now) }
    ensures asks { IfOk result (λ asked. (c : ConstraintOf) → slice_get (constraints rules.now.program.now) number ≡ Some c → IsAsked (domain I.Has I.IsBelow I.OpGives I.OpOneGives I.ToGives I.KeepGives I.members_of) rules.now.program.now facts.now c (all_needs rules.now.program.now asked.items)) }
    ensures worked { IfOk result (λ _. (c : ConstraintOf) → slice_get (constraints rules.now.program.now) number ≡ Some c → IsWorked (domain I.Has I.IsBelow I.OpGives I.OpOneGives I.ToGives I.KeepGives I.members_of) rules.now.program.now facts.now c) }
    ensures raisable { IfOk result (λ asked. AreRaisable (domain I.Has I.IsBelow I.OpGives I.OpOneGives I.ToGives I.KeepGives I.members_of) rules.now.program.now facts.now asked.items) }
{
    asked_by(alloc, rules, facts, constraint_at(number))
}
