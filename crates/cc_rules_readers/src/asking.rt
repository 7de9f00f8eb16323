//! Which constraints are asked again where one has raised facts.

ghost use Rattle.std.specs.List.{flat_map};
ghost use Rattle.std.specs.Prelude.{◌≡◌, ◌++◌, [], Some, map, slice_get, unwrap_or, OnOk, if◌then◌else◌};
ghost use Rattle.cc_rules_asked.specs.CcFlow.Points.{flow_of};
ghost use Rattle.cc_rules_asked.specs.CcLattice.Systems.{BeginsWith};
ghost use Rattle.cc_rules_asked.specs.CcRules.Constraints.{Back};
ghost use Rattle.cc_rules_again.specs.Again.{number_at, point_readers, whole_readers, again_at, again_of};
ghost use Rattle.cc_rules_again.specs.Named.{EachKey};
ghost use Rattle.cc_rules_made.specs.Rules.{AreOf};
ghost use Rattle.cc_rules_numbered.specs.Numbered.{rule_view, constraint_view};
ghost use Rattle.cc_rules_readers.specs.Index.{IsIndexed, IsIndexOf};
ghost use Rattle.cc_rules_readers.specs.Points.{points_that, may_call_in};
ghost use Rattle.cc_rules_readers.specs.View.{is_some_call, by_rule, start_readers, IsDeedAt};

use crate::calls::{put_call_readers, put_handler_readers};
use crate::deeds::{Called, Deed};
use crate::index::Index;
use crate::naming::Named;
use crate::points::{put_callers, put_entry_readers, put_next_readers, put_point_readers};
use crate::stability::put_touch_readers;
use crate::whole::put_whole_readers;
use cc_program::num::{NoMemory, at};
use cc_rules_asked::flow::{Flow, Point};
use cc_rules_asked::state_facts::Facts;
use cc_rules_made::Rules;
use cc_rules_numbered::{Constraint, Rule};
use std::alloc::Global;

/// Puts those that read what is known behind a call.
fn put_back_readers(
    list: &mut Vec<u32>,
    rules: &Rules<'_>,
    index: &Index,
    called: Called,
    next: &[u32],
) -> Result<(), NoMemory>
    requires rules { AreOf rules.now.program.now rules.now }
    requires index { IsIndexOf rules.now.program.now index.now }
    ensures { OnOk result (list.new.items ≡ list.old.items ++ (if is_some_call called then flat_map (point_readers rules.now.program.now) next.now else [])) }
{
    match called {
        Called::Nothing => Ok(()),
        Called::Function(_) => put_next_readers(list, rules, index, next),
        Called::Each => put_next_readers(list, rules, index, next),
    }
}

/// Puts those that read what a function gives, where a statement returns a value.
fn put_return_readers(
    list: &mut Vec<u32>,
    index: &Index,
    func: u32,
    returns: bool,
) -> Result<(), NoMemory>
    requires { IsIndexed index.now }
    ensures { OnOk result (list.new.items ≡ list.old.items ++ (if returns then map (number_at Back) (points_that index.now.deeds (may_call_in func)) else [])) }
{
    if returns {
        put_callers(list, index, func)
    } else {
        Ok(())
    }
}

/// Puts those that read what a rule raises at a point, by what its statement does.
fn put_readers_of<I>(
    alloc: Global,
    list: &mut Vec<u32>,
    rules: &Rules<'_>,
    index: &Index,
    facts: &Facts<I>,
    constraint: Constraint,
    deed: &Deed,
    point: &Point,
) -> Result<(), NoMemory>
    requires rules { AreOf rules.now.program.now rules.now }
    requires index { IsIndexOf rules.now.program.now index.now }
    requires deed { IsDeedAt rules.now.program.now point.now deed.now }
    ensures { OnOk result (list.new.items ≡ list.old.items ++ again_at rules.now.program.now facts.now (rule_view constraint.rule) constraint.point (Some point.now)) }
{
    let next = point.next.all();
    match constraint.rule {
        Rule::Initial => Ok(()),
        Rule::Start => Ok(()),
        Rule::Flow => put_next_readers(list, rules, index, next),
        Rule::Write => put_whole_readers(alloc, list, rules, index, facts, deed.written),
        Rule::Touch => put_touch_readers(alloc, list, rules, index, deed.accessed),
        Rule::Call => put_call_readers(alloc, list, rules, index, facts, deed.called),
        Rule::Back => put_back_readers(list, rules, index, deed.called, next),
        Rule::Return => put_return_readers(list, index, deed.func, deed.returns),
        Rule::Handler => put_handler_readers(list, rules, index),
        Rule::Stability => put_point_readers(list, rules, index, constraint.point),
    }
}

/// Puts those that read what a rule raises at a point, where it is one of the program.
fn put_readers_at<I>(
    alloc: Global,
    list: &mut Vec<u32>,
    rules: &Rules<'_>,
    index: &Index,
    facts: &Facts<I>,
    constraint: Constraint,
) -> Result<(), NoMemory>
    requires rules { AreOf rules.now.program.now rules.now }
    requires index { IsIndexOf rules.now.program.now index.now }
    ensures { OnOk result (list.new.items ≡ list.old.items ++ again_at rules.now.program.now facts.now (rule_view constraint.rule) constraint.point (slice_get (flow_of rules.now.program.now).points constraint.point)) }
{
    let number = constraint.point as usize;
    let deeds = index.deeds.all();
    let points = rules.flow.points.all();
    match at(deeds, number) {
        None => Ok(()),
        Some(deed) => match at(points, number) {
            None => Ok(()),
            Some(point) => {
                put_readers_of(alloc, list, rules, index, facts, constraint, deed, point)
            }
        },
    }
}

/// The number of a function's first point.
fn entry(flow: &Flow, id: u32) -> u32
    ensures { result ≡ unwrap_or (slice_get flow.now.first id) 0 }
{
    match at(flow.first.all(), id as usize) {
        None => 0,
        Some(first) => *first,
    }
}

/// Puts those that read how main is entered, where it is at its entry.
fn put_start_readers(
    list: &mut Vec<u32>,
    rules: &Rules<'_>,
    index: &Index,
    point: u32,
) -> Result<(), NoMemory>
    requires rules { AreOf rules.now.program.now rules.now }
    requires index { IsIndexOf rules.now.program.now index.now }
    ensures { OnOk result (list.new.items ≡ list.old.items ++ start_readers rules.now.program.now point) }
{
    let main = rules.program.main;
    if point == entry(rules.flow, main) {
        put_entry_readers(list, rules, index, main, point)
    } else {
        Ok(())
    }
}

/// Puts those that read what a constraint raises.
fn put_readers<I>(
    alloc: Global,
    list: &mut Vec<u32>,
    rules: &Rules<'_>,
    index: &Index,
    facts: &Facts<I>,
    constraint: Constraint,
) -> Result<(), NoMemory>
    requires rules { AreOf rules.now.program.now rules.now }
    requires index { IsIndexOf rules.now.program.now index.now }
    ensures { OnOk result (list.new.items ≡ list.old.items ++ by_rule constraint.rule (whole_readers rules.now.program.now facts.now EachKey) (start_readers rules.now.program.now constraint.point) (again_at rules.now.program.now facts.now (rule_view constraint.rule) constraint.point (slice_get (flow_of rules.now.program.now).points constraint.point))) }
{
    match constraint.rule {
        Rule::Initial => put_whole_readers(alloc, list, rules, index, facts, Named::EachKey),
        Rule::Start => put_start_readers(list, rules, index, constraint.point),
        _ => put_readers_at(alloc, list, rules, index, facts, constraint),
    }
}

/// Appends the numbers of the constraints that read, by the facts, a thing that a constraint raises: exactly these. After want of memory,
/// which is the only error, the list begins with the old one.
pub fn again<I>(
    alloc: Global,
    rules: &Rules<'_>,
    index: &Index,
    facts: &Facts<I>,
    constraint: Constraint,
    list: &mut Vec<u32>,
) -> Result<(), NoMemory>
    requires rules { AreOf rules.now.program.now rules.now }
    requires index { IsIndexOf rules.now.program.now index.now }
    ensures list { OnOk result (list.new.items ≡ list.old.items ++ again_of rules.now.program.now facts.now (constraint_view constraint)) }
    ensures kept { BeginsWith list.old.items list.new.items }
{
    let mut found = Vec::new(alloc);
    put_readers(alloc, &mut found, rules, index, facts, constraint)?;
    list.extend_from_slice(&found)?;
    Ok(())
}
