//! How far what asks for steps has come, from the marks of those that were done.

ghost use Rattle.std.specs.Prelude.{◌≡◌, IfOk, Some, false, true};
ghost use Rattle.std.specs.Option.{option_copied};
ghost use Rattle.cc_eval.specs.declared.action.Action.TheVariants.{Write, Choose, Call, Flag};
ghost use Rattle.cc_eval.specs.Eval.{branch as branch_of, outcome as outcome_of, all_good as all_good_of};
ghost use Rattle.cc_eval.specs.Progress.{known, ask, needs, given as given_of, chosen as chosen_of};
ghost use Rattle.cc_eval.specs.Progress.Progress.{Waits as WaitsFor};
ghost use Rattle.cc_values.specs.Values.{address_in as address_in_of, truth as truth_of};
ghost use Rattle.cc_eval.specs.View.{progress_of};

use crate::action::Action;
use crate::mark::Mark;
use cc_program::num::{Boxed, List, NoMemory};
use cc_program::{Address, Cell, Value};
use cc_values::{address_in, truth};
use std::alloc::Global;

/// How far what asks for steps has come.
#[derive(Drop)]
pub enum Stage<'m, T> {
    /// Its answer, and the marks that it left.
    Known(T, &'m [Mark]),
    /// It waits for a step.
    Waits(Boxed<Action>),
    /// The next step traps; these marks are left.
    Traps(&'m [Mark]),
}

/// A copy of a value that may be bad.
pub fn copy_value(alloc: Global, v: &Option<Value>) -> Result<Option<Value>, NoMemory>
    ensures { IfOk result (λ r. r ≡ v.now) }
{
    match v {
        None => Ok(None),
        Some(v) => Ok(Some(v.copy(alloc)?)),
    }
}

/// What the mark of a read, a call or an intrinsic gives.
fn given(alloc: Global, mark: &Mark) -> Result<Option<Value>, NoMemory>
    ensures { IfOk result (λ r. r ≡ given_of mark.now) }
{
    match mark {
        Mark::Gave(v) => copy_value(alloc, v),
        Mark::Did => Ok(Some(Value::Int(0))),
        Mark::Chose(_) => Ok(None),
    }
}

/// A step is waited for.
fn waits<'m, T>(alloc: Global, action: Action) -> Result<Stage<'m, T>, NoMemory>
    ensures { IfOk result (λ s. progress_of s ≡ WaitsFor action) }
{
    Ok(Stage::Waits(Boxed::new(alloc, action)?))
}

/// What a mark gives, in front of those behind it.
fn answered<'m>(
    alloc: Global,
    mark: &Mark,
    rest: &'m [Mark],
) -> Result<Stage<'m, Option<Value>>, NoMemory>
    ensures { IfOk result (λ s. progress_of s ≡ known (given_of mark.now) rest.now) }
{
    Ok(Stage::Known(given(alloc, mark)?, rest))
}

/// A step that gives a value.
pub fn ask_value<'m>(
    alloc: Global,
    action: Action,
    marks: &'m [Mark],
) -> Result<Stage<'m, Option<Value>>, NoMemory>
    ensures { IfOk result (λ s. progress_of s ≡ ask action given_of marks.now) }
{
    match marks {
        [] => waits(alloc, action),
        [mark, rest @ ..] => answered(alloc, mark, rest),
    }
}

/// A write, after which the answer is known.
pub fn ask_write<'m>(
    alloc: Global,
    cell: Cell,
    is_event: bool,
    value: Value,
    answer: Option<Value>,
    marks: &'m [Mark],
) -> Result<Stage<'m, Option<Value>>, NoMemory>
    ensures { IfOk result (λ s. progress_of s ≡ ask (Write cell is_event value) (λ m. answer) marks.now) }
{
    match marks {
        [] => waits(alloc, Action::Write(cell, is_event, value)),
        [_, rest @ ..] => Ok(Stage::Known(answer, rest)),
    }
}

fn chosen(mark: &Mark) -> Option<bool>
    ensures { result ≡ chosen_of mark.now }
{
    match mark {
        Mark::Gave(_) => None,
        Mark::Did => None,
        Mark::Chose(b) => *b,
    }
}

fn ask_choice<'m>(
    alloc: Global,
    condition: Option<bool>,
    marks: &'m [Mark],
) -> Result<Stage<'m, Option<bool>>, NoMemory>
    ensures { IfOk result (λ s. progress_of s ≡ ask (Choose condition) chosen_of marks.now) }
{
    match marks {
        [] => waits(alloc, Action::Choose(condition)),
        [mark, rest @ ..] => Ok(Stage::Known(chosen(mark), rest)),
    }
}

/// The branch step of a condition: a pure expression goes on with a bad one.
pub fn branch<'m>(
    alloc: Global,
    is_pure: bool,
    v: &Option<Value>,
    marks: &'m [Mark],
) -> Result<Stage<'m, Option<bool>>, NoMemory>
    ensures { IfOk result (λ s. progress_of s ≡ branch_of is_pure v.now marks.now) }
{
    let condition = truth(v);
    if is_pure {
        return ask_choice(alloc, condition, marks);
    }
    match condition {
        None => Ok(Stage::Traps(marks)),
        Some(b) => ask_choice(alloc, Some(b), marks),
    }
}

/// What an arm gives: a bad value traps where the whole is not pure.
pub fn outcome<'m>(is_pure: bool, v: Option<Value>, marks: &'m [Mark]) -> Stage<'m, Option<Value>>
    ensures { progress_of result ≡ outcome_of is_pure v marks.now }
{
    if is_pure {
        return Stage::Known(v, marks);
    }
    match v {
        None => Stage::Traps(marks),
        Some(v) => Stage::Known(Some(v), marks),
    }
}

/// The values, where none of them is bad.
#[tactic(auto, using(crate::proofs::GoodLemmas::of_goods))]
fn all_good(alloc: Global, values: List<Option<Value>>) -> Result<Option<List<Value>>, NoMemory>
    ensures { IfOk result (λ r. r ≡ all_good_of values) }
{
    let mut good = Vec::new(alloc);
    for value in values.into_vec() {
        match value {
            None => return Ok(None),
            Some(v) => good.push(v)?,
        }
    }
    Ok(Some(List::of(good)))
}

fn call_with<'m>(
    alloc: Global,
    callee: &Address,
    args: List<Option<Value>>,
    marks: &'m [Mark],
) -> Result<Stage<'m, Option<Value>>, NoMemory>
    ensures { IfOk result (λ s. progress_of s ≡ needs (all_good_of args) (λ good. ask (Call callee.now good) given_of) marks.now) }
{
    match all_good(alloc, args)? {
        None => Ok(Stage::Traps(marks)),
        Some(good) => ask_value(alloc, Action::Call(callee.copy(alloc)?, good), marks),
    }
}

/// The call of what a value names, with these arguments (C99 6.5.2.2).
pub fn called<'m>(
    alloc: Global,
    callee: &Option<Value>,
    args: List<Option<Value>>,
    marks: &'m [Mark],
) -> Result<Stage<'m, Option<Value>>, NoMemory>
    ensures { IfOk result (λ s. progress_of s ≡ needs (address_in_of callee.now) (λ a. needs (all_good_of args) (λ good. ask (Call a good) given_of)) marks.now) }
{
    match address_in(callee) {
        None => Ok(Stage::Traps(marks)),
        Some(a) => call_with(alloc, a, args, marks),
    }
}

/// `irq_restore` of a value.
pub fn restored<'m>(
    alloc: Global,
    v: &Option<Value>,
    marks: &'m [Mark],
) -> Result<Stage<'m, Option<Value>>, NoMemory>
    ensures { IfOk result (λ s. progress_of s ≡ needs (truth_of v.now) (λ b. ask (Flag b) given_of) marks.now) }
{
    match truth(v) {
        None => Ok(Stage::Traps(marks)),
        Some(b) => ask_value(alloc, Action::Flag(b), marks),
    }
}
