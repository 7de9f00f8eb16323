//! The constraints that read what is known at points, and how functions are reached.

ghost use Rattle.std.specs.List.{flat_map};
ghost use Rattle.std.specs.Prelude.{◌≡◌, ◌++◌, [], map, slice_get, OnOk, if◌then◌else◌};
ghost use Rattle.cc_rules_asked.specs.CcFlowSound.Moves.{entry as entry_of};
ghost use Rattle.cc_rules_asked.specs.CcRules.Constraints.{Back};
ghost use Rattle.cc_rules_again.specs.Again.{number_at, point_readers, entry_readers};
ghost use Rattle.cc_rules_made.specs.Rules.{AreOf};
ghost use Rattle.cc_rules_readers.specs.Index.{IsIndexed, IsIndexOf};
ghost use Rattle.cc_rules_readers.specs.Points.{points_that, is_of, may_call_in, ends_at, reach_numbers};

use crate::index::Index;
use crate::lists::{put_merged, put_own, put_rule};
use cc_program::num::{NoMemory, at};
use cc_rules_functions::Function;
use cc_rules_made::Rules;
use cc_rules_numbered::Rule;

/// Puts those behind the calls of a function.
pub(crate) fn put_callers(list: &mut Vec<u32>, index: &Index, g: u32) -> Result<(), NoMemory>
    requires { IsIndexed index.now }
    ensures { OnOk result (list.new.items ≡ list.old.items ++ map (number_at Back) (points_that index.now.deeds (may_call_in g))) }
{
    let named = index.callers.points(g);
    let pointed = index.pointer_calls.all();
    put_merged(list, Rule::Back, named, pointed)
}

/// Whether a point is the exit of a function.
fn is_exit(functions: &[Function<'_>], g: u32, point: u32) -> bool
    ensures { result ≡ ends_at point (slice_get functions.now g) }
{
    match at(functions, g as usize) {
        None => false,
        Some(function) => function.exit == point,
    }
}

/// Puts those behind the calls of a function whose exit a point is.
fn put_behind(
    list: &mut Vec<u32>,
    rules: &Rules<'_>,
    index: &Index,
    g: u32,
    point: u32,
) -> Result<(), NoMemory>
    requires { IsIndexed index.now }
    ensures { OnOk result (list.new.items ≡ list.old.items ++ (if ends_at point (slice_get rules.now.functions g) then map (number_at Back) (points_that index.now.deeds (may_call_in g)) else [])) }
{
    let functions = rules.functions.all();
    if is_exit(functions, g, point) {
        put_callers(list, index, g)
    } else {
        Ok(())
    }
}

/// Puts those that read what is known at a point.
pub(crate) fn put_point_readers(
    list: &mut Vec<u32>,
    rules: &Rules<'_>,
    index: &Index,
    point: u32,
) -> Result<(), NoMemory>
    requires rules { AreOf rules.now.program.now rules.now }
    requires index { IsIndexOf rules.now.program.now index.now }
    ensures { OnOk result (list.new.items ≡ list.old.items ++ point_readers rules.now.program.now point) }
{
    let deeds = index.deeds.all();
    match at(deeds, point as usize) {
        None => Ok(()),
        Some(deed) => {
            put_own(list, point)?;
            put_behind(list, rules, index, deed.func, point)
        }
    }
}

/// Puts those that read what is known at some points.
pub(crate) fn put_next_readers(
    list: &mut Vec<u32>,
    rules: &Rules<'_>,
    index: &Index,
    next: &[u32],
) -> Result<(), NoMemory>
    requires rules { AreOf rules.now.program.now rules.now }
    requires index { IsIndexOf rules.now.program.now index.now }
    ensures { OnOk result (list.new.items ≡ list.old.items ++ flat_map (point_readers rules.now.program.now) next.now) }
{
    for point in next {
        put_point_readers(list, rules, index, *point)?;
    }
    Ok(())
}

/// Puts those that read how a function is reached.
fn put_reach_readers(list: &mut Vec<u32>, index: &Index, g: u32) -> Result<(), NoMemory>
    requires { IsIndexed index.now }
    ensures { OnOk result (list.new.items ≡ list.old.items ++ reach_numbers (points_that index.now.deeds (is_of g))) }
{
    let points = index.functions.points(g);
    put_rule(list, Rule::Touch, points)?;
    put_rule(list, Rule::Call, points)?;
    put_rule(list, Rule::Handler, points)?;
    put_rule(list, Rule::Stability, points)
}

/// Puts those that read how a function is reached, or what is known at its entry.
pub(crate) fn put_entry_readers(
    list: &mut Vec<u32>,
    rules: &Rules<'_>,
    index: &Index,
    g: u32,
    entry: u32,
) -> Result<(), NoMemory>
    requires rules { AreOf rules.now.program.now rules.now }
    requires index { IsIndexOf rules.now.program.now index.now }
    requires entry { entry ≡ entry_of rules.now.program.now g }
    ensures { OnOk result (list.new.items ≡ list.old.items ++ entry_readers rules.now.program.now g) }
{
    put_reach_readers(list, index, g)?;
    put_point_readers(list, rules, index, entry)
}
