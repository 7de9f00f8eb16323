//! The first constraint that facts break, and there the first slot that has too little.

ghost use Rattle.std.specs.Prelude.{◌≡◌, ◌<◌, ◌≤◌, ◌^◌, length, option_map, IfOk};
ghost use Rattle.cc_rules_asked.specs.CcFlow.Points.{count_of};
ghost use Rattle.cc_rules_asked.specs.CcRules.Broken.{FirstBroken};
ghost use Rattle.cc_rules_asked.specs.CcRules.Constraints.{constraints};
ghost use Rattle.cc_rules_constraints.specs.Broken.{broken_view, IsBrokenAt};
ghost use Rattle.cc_rules_made.specs.Rules.{AreOf};
ghost use Rattle.cc_rules_grow.specs.CcState.Shape.{HaveShape};
ghost use Rattle.cc_rules_asked.specs.CcStateKeys.Keys.{keys_of};
ghost use Rattle.cc_rules_asked.specs.CcStateKeys.Tracked.{tracked};
ghost use Rattle.cc_rules_asked.specs.CcStateOperators.Domains.{domain};
ghost use Rattle.cc_rules_asked.specs.CcSyntax.Normal.{IsNormal};

use crate::asking::asked;
use cc_program::num::NoMemory;
use cc_rules_asked::lattice::IntDomain;
use cc_rules_asked::rules_needs::{Part, Slot};
use cc_rules_asked::state_facts::Facts;
use cc_rules_lacking::first_lacking_asked;
use cc_rules_made::Rules;
use cc_rules_numbered::{Constraint, constraint_at, constraint_count};
use std::alloc::Global;

/// A constraint that facts break, with the first slot that has too little, and what it needs.
#[derive(Drop)]
pub struct Broken<I> {
    pub constraint: Constraint,
    pub slot: Slot,
    pub part: Part<I>,
}

/// How many tracked cells the program has.
fn tracked_count(rules: &Rules<'_>) -> u32
    requires { AreOf rules.now.program.now rules.now }
    ensures { length (tracked rules.now.program.now) ≡ result }
{
    rules.tracked.all().len() as u32
}

/// How many points it has.
fn point_count(rules: &Rules<'_>) -> u32
    requires rules { AreOf rules.now.program.now rules.now }
    requires few { count_of rules.now.program.now ≤ 65536 }
    ensures { count_of rules.now.program.now ≡ result }
{
    rules.flow.points.all().len() as u32
}

/// Whether facts break the constraint with a number, and where.
fn broken_at<I: IntDomain>(
    alloc: Global,
    rules: &Rules<'_>,
    facts: &Facts<I>,
    number: u32,
) -> Result<Option<Broken<I>>, NoMemory>
    requires normal { IsNormal rules.now.program.now }
    requires rules { AreOf rules.now.program.now rules.now }
    requires shape { HaveShape (domain I.Has I.IsBelow I.OpGives I.OpOneGives I.ToGives I.KeepGives I.members_of) rules.now.program.now facts.now }
    requires few { count_of rules.now.program.now ≤ 65536 }
    requires few_keys { length (keys_of rules.now.program.now) < 2 ^ 32 }
    requires there { number < length (constraints rules.now.program.now) }
    ensures { IfOk result (λ broken. IsBrokenAt (domain I.Has I.IsBelow I.OpGives I.OpOneGives I.ToGives I.KeepGives I.members_of) rules.now.program.now facts.now number broken) }
{
    let list = asked(alloc, rules, facts, number)?;
    let lacking = first_lacking_asked(alloc, facts, tracked_count(rules), &list)?;
    match lacking {
        None => Ok(None),
        Some(need) => {
            let (slot, part) = need;
            Ok(Some(Broken {
                constraint: constraint_at(number),
                slot,
                part,
            }))
        }
    }
}

/// The first constraint of a program that facts break, and there the first slot that has too little. None where facts are a
/// solution. The only error is want of memory.
pub fn first_broken<I: IntDomain>(
    alloc: Global,
    rules: &Rules<'_>,
    facts: &Facts<I>,
) -> Result<Option<Broken<I>>, NoMemory>
    requires normal { IsNormal rules.now.program.now }
    requires rules { AreOf rules.now.program.now rules.now }
    requires shape { HaveShape (domain I.Has I.IsBelow I.OpGives I.OpOneGives I.ToGives I.KeepGives I.members_of) rules.now.program.now facts.now }
    requires few { count_of rules.now.program.now ≤ 65536 }
    requires few_keys { length (keys_of rules.now.program.now) < 2 ^ 32 }
    ensures { IfOk result (λ broken. FirstBroken (domain I.Has I.IsBelow I.OpGives I.OpOneGives I.ToGives I.KeepGives I.members_of) rules.now.program.now facts.now (option_map broken_view broken)) }
{
    let points = point_count(rules);
    let count = constraint_count(points);
    for number in 0..count {
        let broken = broken_at(alloc, rules, facts, number)?;
        match broken {
            None => {}
            Some(found) => return Ok(Some(found)),
        }
    }
    Ok(None)
}
