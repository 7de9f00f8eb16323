//! What follows once operands are known.

ghost use Rattle.std.specs.Prelude.{◌≡◌, IfOk, option_map, List as Items};
ghost use Rattle.cc_program.specs.declared.value.Value.TheVariants.{Place};
ghost use Rattle.cc_eval.specs.declared.action.Action.TheVariants.{Flag, Save};
ghost use Rattle.cc_eval.specs.declared.spots.Spot.TheVariants.{Address as AddressSpot};
ghost use Rattle.cc_eval.specs.Eval.{branch as branch_of, outcome as outcome_of, all_good as all_good_of};
ghost use Rattle.cc_eval.specs.Operands.{two_give};
ghost use Rattle.cc_eval.specs.Progress.{and_then, bind, known, ask, needs, given as given_of};
ghost use Rattle.cc_values.specs.Values.{address_in as address_in_of, truth as truth_of, of_truth as of_truth_of, unary as unary_value, conversion as conversion_value};
ghost use Rattle.cc_eval.specs.View.{progress_of};

use crate::action::Action;
use crate::mark::Mark;
use crate::operators::TwoOperands;
use crate::progress::{Stage, ask_value, branch, called, outcome, restored};
use crate::spots::Spot;
use cc_program::Value;
use cc_program::num::{IntType, List, NoMemory, Target, UnOp};
use cc_values::{
    address_in, binary, comparison, conversion, gap, movement, of_truth, truth, unary,
};
use std::alloc::Global;

/// An operator of one operand.
#[inline(never)]
pub fn unary_of<'m>(
    op: UnOp,
    t: IntType,
    target: &Target,
    a: Stage<'m, Option<Value>>,
) -> Stage<'m, Option<Value>>
    ensures { progress_of result ≡ and_then (progress_of a.entry) (λ v. known (unary_value op t target.now v)) }
{
    match a {
        Stage::Known(v, rest) => Stage::Known(unary(op, t, target, &v), rest),
        Stage::Waits(action) => Stage::Waits(action),
        Stage::Traps(rest) => Stage::Traps(rest),
    }
}

/// A conversion.
#[inline(never)]
pub fn converted<'m>(
    t: IntType,
    target: &Target,
    a: Stage<'m, Option<Value>>,
) -> Stage<'m, Option<Value>>
    ensures { progress_of result ≡ and_then (progress_of a.entry) (λ v. known (conversion_value t target.now v)) }
{
    match a {
        Stage::Known(v, rest) => Stage::Known(conversion(t, target, &v), rest),
        Stage::Waits(action) => Stage::Waits(action),
        Stage::Traps(rest) => Stage::Traps(rest),
    }
}

/// What two operands give.
fn of_two(
    alloc: Global,
    kind: TwoOperands,
    target: &Target,
    v: &Option<Value>,
    w: &Option<Value>,
) -> Result<Option<Value>, NoMemory>
    ensures { IfOk result (λ r. (ms : Items Mark) → known r ms ≡ two_give kind target.now (v.now, w.now) ms) }
{
    match kind {
        TwoOperands::Operator(op, t) => Ok(binary(op, t, target, v, w)),
        TwoOperands::Movement(back) => movement(alloc, back, v, w),
        TwoOperands::Difference => Ok(gap(target, v, w)),
        TwoOperands::Comparison(op) => Ok(comparison(op, v, w)),
    }
}

/// What two operands give, once the first is known.
#[inline(never)]
pub fn with_second<'m>(
    alloc: Global,
    kind: TwoOperands,
    target: &Target,
    v: &Option<Value>,
    second: Stage<'m, Option<Value>>,
) -> Result<Stage<'m, Option<Value>>, NoMemory>
    ensures { IfOk result (λ r. progress_of r ≡ and_then (and_then (progress_of second.entry) (λ w. known (v.now, w))) (two_give kind target.now)) }
{
    match second {
        Stage::Known(w, rest) => Ok(Stage::Known(of_two(alloc, kind, target, v, &w)?, rest)),
        Stage::Waits(action) => Ok(Stage::Waits(action)),
        Stage::Traps(rest) => Ok(Stage::Traps(rest)),
    }
}

/// The branch step of a condition.
pub fn condition<'m>(
    alloc: Global,
    is_pure: bool,
    a: Stage<'m, Option<Value>>,
) -> Result<Stage<'m, Option<bool>>, NoMemory>
    ensures { IfOk result (λ r. progress_of r ≡ and_then (progress_of a.entry) (branch_of is_pure)) }
{
    match a {
        Stage::Known(v, rest) => branch(alloc, is_pure, &v, rest),
        Stage::Waits(action) => Ok(Stage::Waits(action)),
        Stage::Traps(rest) => Ok(Stage::Traps(rest)),
    }
}

/// What the chosen arm gives.
pub fn arm_of<'m>(is_pure: bool, a: Stage<'m, Option<Value>>) -> Stage<'m, Option<Value>>
    ensures { progress_of result ≡ and_then (progress_of a.entry) (outcome_of is_pure) }
{
    match a {
        Stage::Known(v, rest) => outcome(is_pure, v, rest),
        Stage::Waits(action) => Stage::Waits(action),
        Stage::Traps(rest) => Stage::Traps(rest),
    }
}

/// What the second operand of `&&` or `||` gives.
pub fn as_condition<'m>(is_pure: bool, b: Stage<'m, Option<Value>>) -> Stage<'m, Option<Value>>
    ensures { progress_of result ≡ and_then (and_then (progress_of b.entry) (λ v. known (of_truth_of (truth_of v)))) (outcome_of is_pure) }
{
    match b {
        Stage::Known(v, rest) => outcome(is_pure, of_truth(truth(&v)), rest),
        Stage::Waits(action) => Stage::Waits(action),
        Stage::Traps(rest) => Stage::Traps(rest),
    }
}

fn pointed_to(alloc: Global, v: &Option<Value>) -> Result<Option<Spot>, NoMemory>
    ensures { IfOk result (λ r. r ≡ option_map AddressSpot (address_in_of v.now)) }
{
    match address_in(v) {
        None => Ok(None),
        Some(a) => Ok(Some(Spot::Address(a.copy(alloc)?))),
    }
}

/// Where `*e` leads.
pub fn spot_of<'m>(
    alloc: Global,
    e: Stage<'m, Option<Value>>,
) -> Result<Stage<'m, Option<Spot>>, NoMemory>
    ensures { IfOk result (λ r. progress_of r ≡ and_then (progress_of e.entry) (λ v. known (option_map AddressSpot (address_in_of v)))) }
{
    match e {
        Stage::Known(v, rest) => Ok(Stage::Known(pointed_to(alloc, &v)?, rest)),
        Stage::Waits(action) => Ok(Stage::Waits(action)),
        Stage::Traps(rest) => Ok(Stage::Traps(rest)),
    }
}

/// The interrupt flag is set or cleared.
pub fn flagged<'m>(
    alloc: Global,
    on: bool,
    marks: &'m [Mark],
) -> Result<Stage<'m, Option<Value>>, NoMemory>
    ensures { IfOk result (λ r. progress_of r ≡ ask (Flag on) given_of marks.now) }
{
    ask_value(alloc, Action::Flag(on), marks)
}

/// The flag is given, and cleared.
pub fn saved<'m>(alloc: Global, marks: &'m [Mark]) -> Result<Stage<'m, Option<Value>>, NoMemory>
    ensures { IfOk result (λ r. progress_of r ≡ ask Save given_of marks.now) }
{
    ask_value(alloc, Action::Save, marks)
}

/// `irq_restore`, once its operand is known.
pub fn restored_by<'m>(
    alloc: Global,
    a: Stage<'m, Option<Value>>,
) -> Result<Stage<'m, Option<Value>>, NoMemory>
    ensures { IfOk result (λ r. progress_of r ≡ and_then (progress_of a.entry) (λ v. needs (truth_of v) (λ b. ask (Flag b) given_of))) }
{
    match a {
        Stage::Known(v, rest) => restored(alloc, &v, rest),
        Stage::Waits(action) => Ok(Stage::Waits(action)),
        Stage::Traps(rest) => Ok(Stage::Traps(rest)),
    }
}

/// A call of what a value names, once the arguments are known.
pub fn called_by<'m>(
    alloc: Global,
    callee: &Option<Value>,
    args: Stage<'m, List<Option<Value>>>,
) -> Result<Stage<'m, Option<Value>>, NoMemory>
    ensures { IfOk result (λ r. progress_of r ≡ and_then (progress_of args.entry) (λ vs. needs (address_in_of callee.now) (λ a. needs (all_good_of vs) (λ good. ask (CallOf a good) given_of)))) }
{
    match args {
        Stage::Known(args, rest) => called(alloc, callee, args, rest),
        Stage::Waits(action) => Ok(Stage::Waits(action)),
        Stage::Traps(rest) => Ok(Stage::Traps(rest)),
    }
}

ghost use Rattle.cc_eval.specs.declared.action.Action.TheVariants.{Call as CallOf};
