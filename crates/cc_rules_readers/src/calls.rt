//! The constraints that read what calls and handlers that enter raise.

ghost use Rattle.std.specs.List.{filter, flat_map};
ghost use Rattle.std.specs.Prelude.{◌≡◌, ◌++◌, Some, slice_get, OnOk};
ghost use Rattle.cc_rules_asked.specs.CcRules.Rules.{handlers as handlers_of};
ghost use Rattle.cc_rules_again.specs.Again.{ids, call_readers, entry_readers};
ghost use Rattle.cc_rules_made.specs.Rules.{AreOf};
ghost use Rattle.cc_rules_readers.specs.Index.{IsIndexOf};
ghost use Rattle.cc_rules_readers.specs.View.{calls_it};
ghost use Rattle.cc_rules_readers.specs.Points.{there_called, few_functions};

use crate::deeds::Called;
use crate::index::Index;
use crate::naming::Named;
use crate::points::put_entry_readers;
use crate::whole::put_whole_readers;
use cc_program::num::{NoMemory, at};
use cc_rules_asked::state_facts::Facts;
use cc_rules_made::Rules;
use std::alloc::Global;

/// Puts those that read what a call of a function raises, where it is one.
fn put_called<I>(
    alloc: Global,
    list: &mut Vec<u32>,
    rules: &Rules<'_>,
    index: &Index,
    facts: &Facts<I>,
    g: u32,
) -> Result<(), NoMemory>
    requires rules { AreOf rules.now.program.now rules.now }
    requires index { IsIndexOf rules.now.program.now index.now }
    ensures { OnOk result (list.new.items ≡ list.old.items ++ flat_map (call_readers rules.now.program.now facts.now) (there_called g (slice_get rules.now.functions g))) }
{
    let functions = rules.functions.all();
    match at(functions, g as usize) {
        None => Ok(()),
        Some(function) => {
            put_entry_readers(list, rules, index, g, function.entry)?;
            put_whole_readers(alloc, list, rules, index, facts, Named::LocalsOf(g))
        }
    }
}

/// Puts those that read what a call of each function raises.
fn put_all_called<I>(
    alloc: Global,
    list: &mut Vec<u32>,
    rules: &Rules<'_>,
    index: &Index,
    facts: &Facts<I>,
) -> Result<(), NoMemory>
    requires rules { AreOf rules.now.program.now rules.now }
    requires index { IsIndexOf rules.now.program.now index.now }
    requires few { few_functions rules.now }
    ensures { OnOk result (list.new.items ≡ list.old.items ++ flat_map (call_readers rules.now.program.now facts.now) (ids rules.now.program.now)) }
{
    let functions = rules.functions.all();
    for g in 0..functions.len() as u32 {
        put_called(alloc, list, rules, index, facts, g)?;
    }
    Ok(())
}

/// Puts those that read what a call raises.
pub(crate) fn put_call_readers<I>(
    alloc: Global,
    list: &mut Vec<u32>,
    rules: &Rules<'_>,
    index: &Index,
    facts: &Facts<I>,
    called: Called,
) -> Result<(), NoMemory>
    requires rules { AreOf rules.now.program.now rules.now }
    requires index { IsIndexOf rules.now.program.now index.now }
    ensures { OnOk result (list.new.items ≡ list.old.items ++ flat_map (call_readers rules.now.program.now facts.now) (filter (calls_it called) (ids rules.now.program.now))) }
{
    match called {
        Called::Nothing => Ok(()),
        Called::Function(g) => put_called(alloc, list, rules, index, facts, g),
        Called::Each => put_all_called(alloc, list, rules, index, facts),
    }
}

/// Puts those that read how handlers are entered.
pub(crate) fn put_handler_readers(
    list: &mut Vec<u32>,
    rules: &Rules<'_>,
    index: &Index,
) -> Result<(), NoMemory>
    requires rules { AreOf rules.now.program.now rules.now }
    requires index { IsIndexOf rules.now.program.now index.now }
    ensures { OnOk result (list.new.items ≡ list.old.items ++ flat_map (entry_readers rules.now.program.now) (handlers_of rules.now.program.now)) }
{
    let handlers = rules.handlers.all();
    for handler in handlers {
        put_entry_readers(list, rules, index, handler.function, handler.entry)?;
    }
    Ok(())
}
