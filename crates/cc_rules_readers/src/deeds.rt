//! What the statement at each point does, as far as that decides which constraints are asked again.

ghost use Rattle.std.specs.Prelude.{◌≡◌, ℕ, is_some, is_none, true, Some, slice_get, IfOk, if◌then◌else◌};
ghost use Rattle.cc_rules_asked.specs.CcFlow.Points.{flow_of};
ghost use Rattle.cc_program.specs.declared.expr.Expr.{out-Expr};
ghost use Rattle.cc_program.specs.declared.expr.Place.{out-Place};
ghost use Rattle.cc_rules_asked.specs.CcRegisters.Kept.{AreKept};
ghost use Rattle.cc_rules_asked.specs.CcRules.Rules.{act_at};
ghost use Rattle.cc_rules_again.specs.Again.{written as written_of, accessed as accessed_of, returns as returns_of};
ghost use Rattle.cc_rules_again.specs.Named.{named as named_of};
ghost use Rattle.cc_rules_asked.specs.CcRulesFlows.Nexts.{statement_of};
ghost use Rattle.cc_rules_asked.specs.CcRulesFlows.View.{act_view};
ghost use Rattle.cc_rules_made.specs.Rules.{AreOf};
ghost use Rattle.cc_rules_readers.specs.View.{named_view, no_key, callee_of, called_of, read_in, IsDeedBy, IsDeedAt, AreDeeds};
ghost use Rattle.cc_rules_asked.specs.CcStateReads.Reads.{object_in};

use crate::naming::{Named, keys_named};
use cc_program::num::{List, NoMemory, at};
use cc_program::{Expr, Func, Place};
use cc_rules_asked::flow::Point;
use cc_rules_asked::rules_flows::{Act, Body, statement_at};
use cc_rules_asked::state_keys::number_in;
use cc_rules_functions::Function;
use cc_rules_made::Rules;
use std::alloc::Global;

/// Which functions a statement may call.
#[derive(Clone, Copy)]
pub enum Called {
    Nothing,
    Function(u32),
    /// Through a pointer.
    Each,
}

/// What the statement at a point does.
#[derive(Drop)]
pub struct Deed {
    /// The function, by id.
    pub func: u32,
    /// The keys that are read, but for a tracked cell.
    pub read: Named,
    /// The keys that are written.
    pub written: Named,
    /// The keys that are read or written.
    pub accessed: Named,
    pub called: Called,
    /// Whether it returns a value.
    pub returns: bool,
}

/// Which functions an operand may call.
fn callee(e: &Expr) -> Called
    ensures { result ≡ callee_of (out-Expr e.now) }
{
    match e {
        Expr::FuncAddr(h) => Called::Function(*h),
        _ => Called::Each,
    }
}

/// Which functions a statement may call.
fn functions_called(act: Act<'_>) -> Called
    ensures { result ≡ called_of (act_view act.entry) }
{
    match act {
        Act::Calls(_, e, _) => callee(e),
        _ => Called::Nothing,
    }
}

/// Whether a place is none of some objects.
fn is_beside(objects: &[u32], a: &Place) -> bool
    ensures { result ≡ is_none (object_in objects.now (out-Place a.now)) }
{
    match a {
        Place::Static(i) => number_in(objects, *i).is_none(),
        _ => true,
    }
}

/// The keys that are read at a place.
fn read_at(tracked: &[u32], id: u32, a: &Place) -> Named
    ensures { named_view result ≡ (if is_none (object_in tracked.now (out-Place a.now)) then named_of id a.now else no_key) }
{
    if is_beside(tracked, a) {
        keys_named(id, a)
    } else {
        Named::NoKey
    }
}

/// The keys that a statement reads.
fn keys_read(tracked: &[u32], id: u32, act: Act<'_>) -> Named
    ensures { named_view result ≡ read_in tracked.now id (act_view act.entry) }
{
    match act {
        Act::Reads(_, a) => read_at(tracked, id, a),
        _ => Named::NoKey,
    }
}

/// The keys that it writes.
fn keys_written(id: u32, act: Act<'_>) -> Named
    ensures { named_view result ≡ written_of id (act_view act.entry) }
{
    match act {
        Act::Writes(a, _) => keys_named(id, a),
        _ => Named::NoKey,
    }
}

/// The keys that it reads or writes.
fn keys_accessed(id: u32, act: Act<'_>) -> Named
    ensures { named_view result ≡ accessed_of id (act_view act.entry) }
{
    match act {
        Act::Reads(_, a) => keys_named(id, a),
        Act::Writes(a, _) => keys_named(id, a),
        _ => Named::NoKey,
    }
}

/// Whether it returns a value.
fn returns_value(act: Act<'_>) -> bool
    ensures { result ≡ returns_of (act_view act.entry) }
{
    match act {
        Act::Returns(Some(_)) => true,
        _ => false,
    }
}

/// What a statement of a function does.
fn deed_of(tracked: &[u32], func: u32, act: Act<'_>) -> Deed
    ensures { IsDeedBy tracked.now func (act_view act.entry) result }
{
    Deed {
        func,
        read: keys_read(tracked, func, act),
        written: keys_written(func, act),
        accessed: keys_accessed(func, act),
        called: functions_called(act),
        returns: returns_value(act),
    }
}

/// The marks of a function.
fn marks_at(marks: &[List<bool>], id: u32) -> &[bool]
    requires { is_some (slice_get marks.now id) ≡ true }
    ensures { slice_get marks.now id ≡ Some result.now }
{
    match at(marks, id as usize) {
        None => unreachable!(),
        Some(kept) => kept.all(),
    }
}

/// A function by its id.
fn function_at<'a, 'p>(functions: &'a [Function<'p>], id: u32) -> &'a Function<'p>
    requires { is_some (slice_get functions.now id) ≡ true }
    ensures { slice_get functions.now id ≡ Some result.now }
{
    match at(functions, id as usize) {
        None => unreachable!(),
        Some(function) => function,
    }
}

/// What the statement at a point of a function does, by which locals are registers.
fn act_of<'a>(func: &'a Func, kept: &'a [bool], point: &Point) -> Act<'a>
    requires { AreKept func.now kept.now }
    ensures { act_view result ≡ act_at (statement_of func.now point.now) func.now }
{
    match statement_at(func.body.all(), point.path.all()) {
        None => Act::Passes,
        Some(statement) => Body { func, kept }.act_of(statement),
    }
}

/// What the statement at a point does.
fn deed_at(rules: &Rules<'_>, point: &Point) -> Deed
    requires rules { AreOf rules.now.program.now rules.now }
    requires there { (n : ℕ) × (slice_get (flow_of rules.now.program.now).points n ≡ Some point.now) }
    ensures { IsDeedAt rules.now.program.now point.now result }
{
    let functions = rules.functions.all();
    let marks = rules.marks.all();
    let tracked = rules.tracked.all();
    let function = function_at(functions, point.func);
    let kept = marks_at(marks, point.func);
    let act = act_of(function.func, kept, point);
    deed_of(tracked, point.func, act)
}

/// What the statements at all points do.
pub(crate) fn deeds_of(alloc: Global, rules: &Rules<'_>) -> Result<Vec<Deed>, NoMemory>
    requires { AreOf rules.now.program.now rules.now }
    ensures { IfOk result (λ deeds. AreDeeds rules.now.program.now deeds.items) }
{
    let mut deeds = Vec::new(alloc);
    for point in rules.flow.points.all() {
        deeds.push(deed_at(rules, point))?;
    }
    Ok(deeds)
}
