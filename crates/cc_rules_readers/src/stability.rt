//! The constraints of tracked cells that handlers which may enter may write.

ghost use Rattle.std.specs.List.{list_any};
ghost use Rattle.std.specs.Prelude.{◌≡◌, ◌++◌, true, map, IfOk, OnOk};
ghost use Rattle.cc_rules_asked.specs.CcRules.Constraints.{Stability};
ghost use Rattle.cc_rules_again.specs.Again.{ids, at_each, is_unstable as is_unstable_of, touch_readers};
ghost use Rattle.cc_rules_asked.specs.CcStateKeys.Lists.{only_if};
ghost use Rattle.cc_rules_asked.specs.CcStateKeys.Tracked.{tracked};
ghost use Rattle.cc_rules_asked.specs.Unstable.{key_at as key_at_of};
ghost use Rattle.cc_rules_made.specs.Rules.{AreOf};
ghost use Rattle.cc_rules_readers.specs.Index.{IsIndexOf};
ghost use Rattle.cc_rules_readers.specs.Points.{is_entered_by, concern_any, numbers_concerned, few_functions};
ghost use Rattle.cc_rules_readers.specs.View.{named_view};

use crate::index::Index;
use crate::lists::put_rule;
use crate::naming::Named;
use crate::picked::{Test, picked};
use cc_program::num::{NoMemory, at};
use cc_rules_asked::levels;
use cc_rules_asked::state_facts::{Facts, Key, one_may_enter};
use cc_rules_made::Rules;
use cc_rules_numbered::Rule;
use std::alloc::Global;

/// Whether handlers that may enter over a function may write a key, by its number.
fn is_entered<I>(facts: &Facts<I>, func: u32, key: Option<u32>) -> bool
    ensures { result ≡ is_entered_by facts.now func key }
{
    match key {
        None => false,
        Some(key) => one_may_enter(
            levels(facts.levels.all(), func as usize),
            levels(facts.write_levels.all(), key as usize),
        ),
    }
}

/// Whether they may write one of some keys, each by its number.
fn are_entered<I>(facts: &Facts<I>, func: u32, numbers: &[Option<u32>]) -> bool
    ensures { result ≡ list_any (is_entered_by facts.now func) numbers.now }
{
    numbers
        .iter()
        .any(|number| is_entered(facts, func, *number))
}

/// The number of the key of a tracked cell.
fn key_at(keys: &[Option<u32>], cell: usize) -> Option<u32>
    ensures { result ≡ key_at_of keys.now cell }
{
    match at(keys, cell) {
        None => None,
        Some(key) => *key,
    }
}

/// Puts the number of a key behind others, where the key is among some.
fn put_number(
    numbers: &mut Vec<Option<u32>>,
    is_among: bool,
    number: Option<u32>,
) -> Result<(), NoMemory>
    ensures { OnOk result (numbers.new.items ≡ numbers.old.items ++ only_if is_among number) }
{
    if is_among {
        numbers.push(number)?;
    }
    Ok(())
}

/// The numbers of the keys of the tracked cells whose keys are among some.
fn numbers_among(
    alloc: Global,
    rules: &Rules<'_>,
    keys: Named,
) -> Result<Vec<Option<u32>>, NoMemory>
    requires { AreOf rules.now.program.now rules.now }
    ensures { IfOk result (λ numbers. numbers.items ≡ numbers_concerned rules.now.program.now (named_view keys) (tracked rules.now.program.now)) }
{
    let objects = rules.tracked.all();
    let key_numbers = rules.cell_keys.all();
    let mut numbers = Vec::new(alloc);
    for (cell, object) in objects.iter().enumerate() {
        let number = key_at(key_numbers, cell);
        let is_among = keys.concerns(Key::Object(*object));
        put_number(&mut numbers, is_among, number)?;
    }
    Ok(numbers)
}

/// Of each function whether they may write a tracked cell whose key is among some.
fn unstable_functions<I>(
    alloc: Global,
    rules: &Rules<'_>,
    facts: &Facts<I>,
    keys: Named,
) -> Result<Vec<bool>, NoMemory>
    requires rules { AreOf rules.now.program.now rules.now }
    requires few { few_functions rules.now }
    ensures { IfOk result (λ unstable. unstable.items ≡ map (is_unstable_of rules.now.program.now facts.now (named_view keys)) (ids rules.now.program.now)) }
{
    let numbers = numbers_among(alloc, rules, keys)?;
    let numbers = numbers.as_slice();
    let functions = rules.functions.all();
    let mut unstable = Vec::new(alloc);
    for func in 0..functions.len() as u32 {
        unstable.push(are_entered(facts, func, numbers))?;
    }
    Ok(unstable)
}

/// Whether the key of a tracked cell is among some.
fn has_tracked(tracked: &[u32], keys: Named) -> bool
    ensures { result ≡ concern_any (named_view keys) tracked.now }
{
    for object in tracked {
        if keys.concerns(Key::Object(*object)) {
            return true;
        }
    }
    false
}

/// Puts those of the functions over which handlers that may enter may write a tracked cell among some keys.
fn put_unstable<I>(
    alloc: Global,
    list: &mut Vec<u32>,
    rules: &Rules<'_>,
    index: &Index,
    facts: &Facts<I>,
    keys: Named,
) -> Result<(), NoMemory>
    requires rules { AreOf rules.now.program.now rules.now }
    requires index { IsIndexOf rules.now.program.now index.now }
    ensures { OnOk result (list.new.items ≡ list.old.items ++ at_each rules.now.program.now Stability (λ id act. is_unstable_of rules.now.program.now facts.now (named_view keys) id)) }
{
    let deeds = index.deeds.all();
    let unstable = unstable_functions(alloc, rules, facts, keys)?;
    let points = picked(alloc, deeds, Test::StandsIn(&unstable))?;
    put_rule(list, Rule::Stability, &points)
}

/// The same, where a tracked cell is among the keys.
pub(crate) fn put_stability_readers<I>(
    alloc: Global,
    list: &mut Vec<u32>,
    rules: &Rules<'_>,
    index: &Index,
    facts: &Facts<I>,
    keys: Named,
) -> Result<(), NoMemory>
    requires rules { AreOf rules.now.program.now rules.now }
    requires index { IsIndexOf rules.now.program.now index.now }
    ensures { OnOk result (list.new.items ≡ list.old.items ++ at_each rules.now.program.now Stability (λ id act. is_unstable_of rules.now.program.now facts.now (named_view keys) id)) }
{
    let objects = rules.tracked.all();
    if has_tracked(objects, keys) {
        put_unstable(alloc, list, rules, index, facts, keys)
    } else {
        Ok(())
    }
}

/// Puts those that read how handlers access some keys.
pub(crate) fn put_touch_readers(
    alloc: Global,
    list: &mut Vec<u32>,
    rules: &Rules<'_>,
    index: &Index,
    keys: Named,
) -> Result<(), NoMemory>
    requires rules { AreOf rules.now.program.now rules.now }
    requires index { IsIndexOf rules.now.program.now index.now }
    ensures { OnOk result (list.new.items ≡ list.old.items ++ touch_readers rules.now.program.now (named_view keys)) }
{
    let objects = rules.tracked.all();
    let deeds = index.deeds.all();
    if has_tracked(objects, keys) {
        let points = picked(alloc, deeds, Test::IsThere)?;
        put_rule(list, Rule::Stability, &points)
    } else {
        Ok(())
    }
}
