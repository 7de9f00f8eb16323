//! Reads and writes of what places lead to, and what operators give to them (C99 6.5.2.4, 6.5.16).

ghost use Rattle.std.specs.Prelude.{◌≡◌, IfOk, option_map, option_and_then, pos, Some};
ghost use Rattle.cc_program.specs.declared.value.Value.TheVariants.{Int};
ghost use Rattle.cc_syntax.specs.Sizes.{AreSized};
ghost use Rattle.cc_syntax.specs.Values.{read_from};
ghost use Rattle.cc_typed.specs.View.{value_view, place_view};
ghost use Rattle.cc_eval.specs.Eval.{designation, fetched as fetched_of, stored as stored_of, manner as manner_of, value_type as value_type_of, changed as changed_of, is_back as is_back_of, sum_or_difference as sum_or_difference_of, one_more_type as one_more_type_of, address_of as address_of_spot, element_at as element_at_of};
ghost use Rattle.cc_eval.specs.Context.{member as member_in_place};
ghost use Rattle.cc_eval.specs.Progress.{and_then, known};
ghost use Rattle.cc_eval.specs.View.{context_of, later_of, progress_of};
ghost use Rattle.cc_syntax.specs.Expressions.{of_two};

use crate::action::{Action, Manner};
use crate::context::Context;
use crate::effects::{Later, is_soft};
use crate::mark::Mark;
use crate::operators::ToPlace;
use crate::progress::{Stage, ask_value, ask_write, copy_value};
use crate::spots::{Spot, address_at, element, is_seen, member, reached};
use cc_program::num::{BinOp, IntType, NoMemory, Target, usual};
use cc_program::{Place, Value};
use cc_typed::{PlaceType, Scope, ValueType};
use cc_values::{binary, conversion, integer, movement};
use std::alloc::Global;

/// The type of a place.
#[tactic(auto, using(crate::proofs::Links::of_types))]
pub fn place_type<'a, 'p: 'a>(c: &Context<'p>, a: &'a Place) -> Option<PlaceType<'a>>
    requires { AreSized c.now.program.now.structures c.now.program.now.target }
    ensures { option_map place_view result ≡ (designation (context_of c.now) a.now).ctype }
{
    let scope = Scope {
        program: c.program,
        locals: c.func.locals.all(),
    };
    scope.place_type(a)
}

#[tactic(auto, using(crate::proofs::Links::of_registers))]
fn manner(c: &Context, a: &Place, t: Option<PlaceType>, later: &Later<'_>) -> Manner
    requires { option_map place_view t ≡ (designation (context_of c.now) a.now).ctype }
    ensures { result ≡ manner_of (designation (context_of c.now) a.now) (later_of (context_of c.now) later.now) }
{
    Manner {
        is_event: is_seen(t),
        may_be_bad: is_soft(c, a, later),
    }
}

/// Reads where a place leads.
pub fn fetched_at<'m>(
    alloc: Global,
    c: &Context<'_>,
    a: &Place,
    later: &Later<'_>,
    s: &Option<Spot>,
    marks: &'m [Mark],
) -> Result<Stage<'m, Option<Value>>, NoMemory>
    requires { AreSized c.now.program.now.structures c.now.program.now.target }
    ensures { IfOk result (λ r. progress_of r ≡ fetched_of (context_of c.now) (designation (context_of c.now) a.now) (later_of (context_of c.now) later.now) s.now marks.now) }
{
    let t = place_type(c, a);
    match reached(alloc, c.program, t, s)? {
        None => Ok(Stage::Traps(marks)),
        Some(cell) => ask_value(alloc, Action::Read(cell, manner(c, a, t, later)), marks),
    }
}

/// Reads where a place leads, once that is known.
#[inline(never)]
pub fn fetched<'m>(
    alloc: Global,
    c: &Context<'_>,
    a: &Place,
    later: &Later<'_>,
    s: Stage<'m, Option<Spot>>,
) -> Result<Stage<'m, Option<Value>>, NoMemory>
    requires { AreSized c.now.program.now.structures c.now.program.now.target }
    ensures { IfOk result (λ r. progress_of r ≡ and_then (progress_of s.entry) (fetched_of (context_of c.now) (designation (context_of c.now) a.now) (later_of (context_of c.now) later.now))) }
{
    match s {
        Stage::Known(s, rest) => fetched_at(alloc, c, a, later, &s, rest),
        Stage::Waits(action) => Ok(Stage::Waits(action)),
        Stage::Traps(rest) => Ok(Stage::Traps(rest)),
    }
}

/// Writes where a place leads, and gives the answer.
pub fn stored<'m>(
    alloc: Global,
    c: &Context<'_>,
    a: &Place,
    s: &Option<Spot>,
    v: Option<Value>,
    answer: Option<Value>,
    marks: &'m [Mark],
) -> Result<Stage<'m, Option<Value>>, NoMemory>
    requires { AreSized c.now.program.now.structures c.now.program.now.target }
    ensures { IfOk result (λ r. progress_of r ≡ stored_of (context_of c.now) (designation (context_of c.now) a.now) s.now v answer marks.now) }
{
    let Some(v) = v else {
        return Ok(Stage::Traps(marks));
    };
    let t = place_type(c, a);
    match reached(alloc, c.program, t, s)? {
        None => Ok(Stage::Traps(marks)),
        Some(cell) => ask_write(alloc, cell, is_seen(t), v, answer, marks),
    }
}

fn value_type<'a, 'p: 'a>(c: &Context<'p>, a: &'a Place) -> Option<ValueType<'a>>
    requires { AreSized c.now.program.now.structures c.now.program.now.target }
    ensures { option_map value_view result ≡ value_type_of (context_of c.now) (designation (context_of c.now) a.now) }
{
    place_type(c, a)?.read()
}

fn is_back(op: BinOp) -> bool
    ensures { result ≡ is_back_of op }
{
    matches!(op, BinOp::Sub)
}

fn changed(
    alloc: Global,
    op: BinOp,
    t: IntType,
    target: &Target,
    to: Option<ValueType>,
    v: &Option<Value>,
    w: &Option<Value>,
) -> Result<Option<Value>, NoMemory>
    ensures { IfOk result (λ r. r ≡ changed_of target.now op t (option_map value_view to.entry) v.now w.now) }
{
    match to {
        Some(ValueType::Integer(s)) => {
            let v = conversion(t, target, v);
            Ok(conversion(s, target, &binary(op, t, target, &v, w)))
        }
        Some(ValueType::ToObject(_, _, _)) => movement(alloc, is_back(op), v, w),
        _ => Ok(None),
    }
}

/// What is written behind a read, and whether the answer is that or what was read.
fn written_back<'m>(
    alloc: Global,
    c: &Context<'_>,
    a: &Place,
    op: BinOp,
    t: IntType,
    s: &Option<Spot>,
    w: &Option<Value>,
    old: Stage<'m, Option<Value>>,
) -> Result<Stage<'m, Option<Value>>, NoMemory>
    requires { AreSized c.now.program.now.structures c.now.program.now.target }
    ensures { IfOk result (λ r. progress_of r ≡ and_then (progress_of old.entry) (changed_back (context_of c.now) (designation (context_of c.now) a.now) op t s.now w.now)) }
{
    match old {
        Stage::Known(v, rest) => {
            let new = changed(alloc, op, t, &c.program.target, value_type(c, a), &v, w)?;
            let answer = copy_value(alloc, &new)?;
            stored(alloc, c, a, s, new, answer, rest)
        }
        Stage::Waits(action) => Ok(Stage::Waits(action)),
        Stage::Traps(rest) => Ok(Stage::Traps(rest)),
    }
}

/// `a = e` or `a op= e`, once it is known where a leads and what e gives.
fn changed_by<'m>(
    alloc: Global,
    c: &Context<'_>,
    kind: ToPlace,
    a: &Place,
    s: &Option<Spot>,
    later: &Later<'_>,
    v: Option<Value>,
    marks: &'m [Mark],
) -> Result<Stage<'m, Option<Value>>, NoMemory>
    requires { AreSized c.now.program.now.structures c.now.program.now.target }
    ensures { IfOk result (λ r. progress_of r ≡ change_gives (context_of c.now) kind (designation (context_of c.now) a.now) (later_of (context_of c.now) later.now) (s.now, v) marks.now) }
{
    match kind {
        ToPlace::Assign => {
            let answer = copy_value(alloc, &v)?;
            stored(alloc, c, a, s, v, answer, marks)
        }
        ToPlace::Change(op, t) => {
            let old = fetched_at(alloc, c, a, later, s, marks)?;
            written_back(alloc, c, a, op, t, s, &v, old)
        }
    }
}

/// `a = e` or `a op= e`, once it is known where a leads.
#[inline(never)]
pub fn changed_with<'m>(
    alloc: Global,
    c: &Context<'_>,
    kind: ToPlace,
    a: &Place,
    s: &Option<Spot>,
    later: &Later<'_>,
    operand: Stage<'m, Option<Value>>,
) -> Result<Stage<'m, Option<Value>>, NoMemory>
    requires { AreSized c.now.program.now.structures c.now.program.now.target }
    ensures { IfOk result (λ r. progress_of r ≡ and_then (and_then (progress_of operand.entry) (λ v. known (s.now, v))) (change_gives (context_of c.now) kind (designation (context_of c.now) a.now) (later_of (context_of c.now) later.now))) }
{
    match operand {
        Stage::Known(v, rest) => changed_by(alloc, c, kind, a, s, later, v, rest),
        Stage::Waits(action) => Ok(Stage::Waits(action)),
        Stage::Traps(rest) => Ok(Stage::Traps(rest)),
    }
}

fn sum_or_difference(down: bool) -> BinOp
    ensures { result ≡ sum_or_difference_of down }
{
    if down { BinOp::Sub } else { BinOp::Add }
}

/// The type in which `a + 1` works.
fn one_more_type(target: &Target, t: Option<ValueType>) -> IntType
    ensures { result ≡ one_more_type_of target.now (option_map value_view t.entry) }
{
    match t {
        Some(ValueType::Integer(s)) => usual(s, IntType::Int, target),
        _ => IntType::Int,
    }
}

fn one_more(
    alloc: Global,
    down: bool,
    target: &Target,
    t: Option<ValueType>,
    v: &Option<Value>,
) -> Result<Option<Value>, NoMemory>
    ensures { IfOk result (λ r. r ≡ changed_of target.now (sum_or_difference_of down) (one_more_type_of target.now (option_map value_view t.entry)) (option_map value_view t.entry) v.now (Some (Int (pos 1)))) }
{
    let one = Some(Value::Int(1));
    changed(
        alloc,
        sum_or_difference(down),
        one_more_type(target, t),
        target,
        t,
        v,
        &one,
    )
}

fn moved_on<'m>(
    alloc: Global,
    c: &Context<'_>,
    a: &Place,
    down: bool,
    s: &Option<Spot>,
    old: Stage<'m, Option<Value>>,
) -> Result<Stage<'m, Option<Value>>, NoMemory>
    requires { AreSized c.now.program.now.structures c.now.program.now.target }
    ensures { IfOk result (λ r. progress_of r ≡ and_then (progress_of old.entry) (stepped_back (context_of c.now) (designation (context_of c.now) a.now) down s.now)) }
{
    match old {
        Stage::Known(v, rest) => {
            let new = one_more(alloc, down, &c.program.target, value_type(c, a), &v)?;
            stored(alloc, c, a, s, new, v, rest)
        }
        Stage::Waits(action) => Ok(Stage::Waits(action)),
        Stage::Traps(rest) => Ok(Stage::Traps(rest)),
    }
}

/// `a++` and `a--`, once it is known where a leads.
#[inline(never)]
pub fn stepped_by_one<'m>(
    alloc: Global,
    c: &Context<'_>,
    a: &Place,
    down: bool,
    later: &Later<'_>,
    s: Stage<'m, Option<Spot>>,
) -> Result<Stage<'m, Option<Value>>, NoMemory>
    requires { AreSized c.now.program.now.structures c.now.program.now.target }
    ensures { IfOk result (λ r. progress_of r ≡ and_then (progress_of s.entry) (stepped_with (context_of c.now) (designation (context_of c.now) a.now) down (later_of (context_of c.now) later.now))) }
{
    match s {
        Stage::Known(s, rest) => {
            let old = fetched_at(alloc, c, a, later, &s, rest)?;
            moved_on(alloc, c, a, down, &s, old)
        }
        Stage::Waits(action) => Ok(Stage::Waits(action)),
        Stage::Traps(rest) => Ok(Stage::Traps(rest)),
    }
}

fn pointer_to_spot(s: Option<Spot>) -> Option<Value>
    ensures { result ≡ address_of_spot s }
{
    match s {
        None => None,
        Some(s) => match address_at(s) {
            None => None,
            Some(a) => Some(Value::Place(a)),
        },
    }
}

/// `&a`, once it is known where a leads.
#[inline(never)]
pub fn addressed<'m>(s: Stage<'m, Option<Spot>>) -> Stage<'m, Option<Value>>
    ensures { progress_of result ≡ and_then (progress_of s.entry) (λ s. known (address_of_spot s)) }
{
    match s {
        Stage::Known(s, rest) => Stage::Known(pointer_to_spot(s), rest),
        Stage::Waits(action) => Stage::Waits(action),
        Stage::Traps(rest) => Stage::Traps(rest),
    }
}

fn element_at(
    alloc: Global,
    c: &Context,
    t: Option<PlaceType>,
    s: &Option<Spot>,
    i: &Option<Value>,
) -> Result<Option<Spot>, NoMemory>
    ensures { IfOk result (λ r. r ≡ element_at_of (context_of c.now) (option_map place_view t.entry) s.now i.now) }
{
    match (t, s, integer(i)) {
        (Some(t), Some(s), Some(i)) => element(alloc, c.program, i, t, s),
        _ => Ok(None),
    }
}

/// `a[i]`, once it is known where a leads.
#[inline(never)]
pub fn subscripted<'m>(
    alloc: Global,
    c: &Context<'_>,
    a: &Place,
    s: &Option<Spot>,
    index: Stage<'m, Option<Value>>,
) -> Result<Stage<'m, Option<Spot>>, NoMemory>
    requires { AreSized c.now.program.now.structures c.now.program.now.target }
    ensures { IfOk result (λ r. progress_of r ≡ and_then (and_then (progress_of index.entry) (λ i. known (s.now, i))) (element_gives (context_of c.now) (designation (context_of c.now) a.now))) }
{
    match index {
        Stage::Known(i, rest) => {
            let element = element_at(alloc, c, place_type(c, a), s, &i)?;
            Ok(Stage::Known(element, rest))
        }
        Stage::Waits(action) => Ok(Stage::Waits(action)),
        Stage::Traps(rest) => Ok(Stage::Traps(rest)),
    }
}

fn member_at(
    alloc: Global,
    c: &Context,
    m: u32,
    t: Option<PlaceType>,
    s: &Option<Spot>,
) -> Result<Option<Spot>, NoMemory>
    ensures { IfOk result (λ r. r ≡ of_two (option_map place_view t.entry) s.now (member_in_place (context_of c.now).program m)) }
{
    match (t, s) {
        (Some(t), Some(s)) => member(alloc, c.program, m, t, s),
        _ => Ok(None),
    }
}

/// `a.m`, once it is known where a leads.
#[inline(never)]
pub fn selected<'m>(
    alloc: Global,
    c: &Context<'_>,
    a: &Place,
    m: u32,
    s: Stage<'m, Option<Spot>>,
) -> Result<Stage<'m, Option<Spot>>, NoMemory>
    requires { AreSized c.now.program.now.structures c.now.program.now.target }
    ensures { IfOk result (λ r. progress_of r ≡ and_then (progress_of s.entry) (λ s. known (of_two (designation (context_of c.now) a.now).ctype s (member_in_place (context_of c.now).program m)))) }
{
    match s {
        Stage::Known(s, rest) => {
            Ok(Stage::Known(member_at(alloc, c, m, place_type(c, a), &s)?, rest))
        }
        Stage::Waits(action) => Ok(Stage::Waits(action)),
        Stage::Traps(rest) => Ok(Stage::Traps(rest)),
    }
}

ghost use Rattle.cc_eval.specs.Eval.{changed_back, stepped_back, stepped_with};
ghost use Rattle.cc_eval.specs.Operands.{change_gives, element_gives};
