//! What an expression does next, and where a place leads.

ghost use Rattle.std.specs.Prelude.{◌≡◌, IfOk, map};
ghost use Rattle.cc_syntax.specs.Sizes.{AreSized};
ghost use Rattle.cc_eval.specs.Eval.{meaning, designation, both_values, place_and_value, both as both_of, either as either_of, chosen_arm as chosen_arm_of, each as each_of, called_with as called_with_of, intrinsic as intrinsic_of, restored as restored_of, sequence as sequence_of, next_of as next_of_whole};
ghost use Rattle.cc_eval.specs.Operands.{one_gives, two_give, place_gives, change_gives, element_gives};
ghost use Rattle.cc_eval.specs.Progress.{and_then};
ghost use Rattle.cc_eval.specs.View.{context_of, later_of, progress_of};

use crate::accesses::{addressed, changed_with, fetched, selected, stepped_by_one, subscripted};
use crate::context::Context;
use crate::effects::{Later, is_pure};
use crate::mark::Mark;
use crate::operations::{
    arm_of, as_condition, called_by, condition, converted, flagged, restored_by, saved, spot_of,
    unary_of, with_second,
};
use crate::operators::{AtPlace, OneOperand, ToPlace, TwoOperands};
use crate::progress::{Stage, outcome};
use crate::spots::Spot;
use cc_program::num::{List, NoMemory};
use cc_program::{Address, Expr, Intr, Part, Place, Root, Value};
use std::alloc::Global;

/// What an expression does next, from the marks of what its steps have done, where `later` stands behind it.
#[cycle(next)]
#[tactic(auto, unfolding(crate::specs::Eval::meaning, crate::specs::Eval::designation))]
pub fn next<'e, 'm>(
    alloc: Global,
    c: &Context<'_>,
    e: &'e Expr,
    later: &'e Later<'e>,
    marks: &'m [Mark],
) -> Result<Stage<'m, Option<Value>>, NoMemory>
    requires { AreSized c.now.program.now.structures c.now.program.now.target }
    ensures { IfOk result (λ s. progress_of s ≡ (meaning (context_of c.now) e.now).next (later_of (context_of c.now) later.now) marks.now) }
{
    match e {
        Expr::Const(n, _) => Ok(Stage::Known(Some(Value::Int(*n)), marks)),
        Expr::Null(_) => Ok(Stage::Known(Some(Value::Place(Address::Null)), marks)),
        Expr::FuncAddr(f) => Ok(Stage::Known(Some(Value::Place(Address::Func(*f))), marks)),
        Expr::Load(a) => at_place(alloc, c, AtPlace::Load, a.get(), later, marks),
        Expr::AddrOf(a) => at_place(alloc, c, AtPlace::Address, a.get(), later, marks),
        Expr::Un(op, t, a) => {
            of_one(
                alloc,
                c,
                OneOperand::Operator(*op, *t),
                a.get(),
                later,
                marks,
            )
        }
        Expr::Bin(op, t, a, b) => {
            let operator = TwoOperands::Operator(*op, *t);
            of_both(alloc, c, operator, a.get(), b.get(), later, marks)
        }
        Expr::Conv(t, a) => of_one(alloc, c, OneOperand::Conversion(*t), a.get(), later, marks),
        Expr::Qualify(_, a) => next(alloc, c, a.get(), later, marks),
        Expr::Move(a, b, back) => {
            let movement = TwoOperands::Movement(*back);
            of_both(alloc, c, movement, a.get(), b.get(), later, marks)
        }
        Expr::Gap(a, b) => {
            of_both(
                alloc,
                c,
                TwoOperands::Difference,
                a.get(),
                b.get(),
                later,
                marks,
            )
        }
        Expr::Compare(op, a, b) => {
            let comparison = TwoOperands::Comparison(*op);
            of_both(alloc, c, comparison, a.get(), b.get(), later, marks)
        }
        Expr::Both(a, b) => {
            let is_pure = is_pure(c, e, later);
            both(alloc, c, is_pure, a.get(), b.get(), later, marks)
        }
        Expr::Either(a, b) => {
            let is_pure = is_pure(c, e, later);
            either(alloc, c, is_pure, a.get(), b.get(), later, marks)
        }
        Expr::Choose(d, a, b) => {
            let is_pure = is_pure(c, e, later);
            chosen_arm(alloc, c, is_pure, d.get(), a.get(), b.get(), later, marks)
        }
        Expr::Assign(a, e) => to_place(alloc, c, ToPlace::Assign, a.get(), e.get(), later, marks),
        Expr::Change(a, op, t, e) => {
            to_place(
                alloc,
                c,
                ToPlace::Change(*op, *t),
                a.get(),
                e.get(),
                later,
                marks,
            )
        }
        Expr::After(a, down) => at_place(alloc, c, AtPlace::Step(*down), a.get(), later, marks),
        Expr::Call(f, args) => {
            let callee = next(
                alloc,
                c,
                f.get(),
                &Later::AllBehind(args.all(), later),
                marks,
            )?;
            call(alloc, c, args, later, callee)
        }
        Expr::Intr(Intr::Off, _) => flagged(alloc, false, marks),
        Expr::Intr(Intr::On, _) => flagged(alloc, true, marks),
        Expr::Intr(Intr::Save, _) => saved(alloc, marks),
        Expr::Intr(Intr::Restore, None) => Ok(Stage::Traps(marks)),
        Expr::Intr(Intr::Restore, Some(a)) => {
            of_one(alloc, c, OneOperand::Restore, a.get(), later, marks)
        }
        Expr::Seq(a, b) => sequence(alloc, c, a.get(), b.get(), later, marks),
    }
}

/// What one operand gives. The calls for each kind of expression stand apart from one another: a function pays at its entry
/// for the values of all its arms.
#[inline(never)]
#[cycle(next)]
fn of_one<'e, 'm>(
    alloc: Global,
    c: &Context<'_>,
    kind: OneOperand,
    a: &'e Expr,
    later: &'e Later<'e>,
    marks: &'m [Mark],
) -> Result<Stage<'m, Option<Value>>, NoMemory>
    requires { AreSized c.now.program.now.structures c.now.program.now.target }
    ensures { IfOk result (λ s. progress_of s ≡ and_then ((meaning (context_of c.now) a.now).next (later_of (context_of c.now) later.now) marks.now) (one_gives kind (context_of c.now).program.target)) }
{
    let operand = next(alloc, c, a, later, marks)?;
    match kind {
        OneOperand::Operator(op, t) => Ok(unary_of(op, t, &c.program.target, operand)),
        OneOperand::Conversion(t) => Ok(converted(t, &c.program.target, operand)),
        OneOperand::Restore => restored_by(alloc, operand),
    }
}

/// What two operands give.
#[inline(never)]
#[cycle(next)]
fn of_both<'e, 'm>(
    alloc: Global,
    c: &Context<'_>,
    kind: TwoOperands,
    a: &'e Expr,
    b: &'e Expr,
    later: &'e Later<'e>,
    marks: &'m [Mark],
) -> Result<Stage<'m, Option<Value>>, NoMemory>
    requires { AreSized c.now.program.now.structures c.now.program.now.target }
    ensures { IfOk result (λ s. progress_of s ≡ and_then (both_values (meaning (context_of c.now) a.now) (meaning (context_of c.now) b.now) (later_of (context_of c.now) later.now) marks.now) (two_give kind (context_of c.now).program.target)) }
{
    match next(alloc, c, a, &Later::Behind(b, later), marks)? {
        Stage::Known(v, rest) => {
            let second = next(alloc, c, b, later, rest)?;
            with_second(alloc, kind, &c.program.target, &v, second)
        }
        Stage::Waits(action) => Ok(Stage::Waits(action)),
        Stage::Traps(rest) => Ok(Stage::Traps(rest)),
    }
}

/// What is done where a place leads.
#[inline(never)]
#[cycle(next)]
fn at_place<'e, 'm>(
    alloc: Global,
    c: &Context<'_>,
    kind: AtPlace,
    a: &'e Place,
    later: &'e Later<'e>,
    marks: &'m [Mark],
) -> Result<Stage<'m, Option<Value>>, NoMemory>
    requires { AreSized c.now.program.now.structures c.now.program.now.target }
    ensures { IfOk result (λ s. progress_of s ≡ and_then ((designation (context_of c.now) a.now).leads (later_of (context_of c.now) later.now) marks.now) (place_gives (context_of c.now) kind (designation (context_of c.now) a.now) (later_of (context_of c.now) later.now))) }
{
    let spot = leads(alloc, c, a, later, marks)?;
    match kind {
        AtPlace::Load => fetched(alloc, c, a, later, spot),
        AtPlace::Address => Ok(addressed(spot)),
        AtPlace::Step(down) => stepped_by_one(alloc, c, a, down, later, spot),
    }
}

/// What an operand changes where a place leads.
#[inline(never)]
#[cycle(next)]
fn to_place<'e, 'm>(
    alloc: Global,
    c: &Context<'_>,
    kind: ToPlace,
    a: &'e Place,
    e: &'e Expr,
    later: &'e Later<'e>,
    marks: &'m [Mark],
) -> Result<Stage<'m, Option<Value>>, NoMemory>
    requires { AreSized c.now.program.now.structures c.now.program.now.target }
    ensures { IfOk result (λ s. progress_of s ≡ and_then (place_and_value (designation (context_of c.now) a.now) (meaning (context_of c.now) e.now) (later_of (context_of c.now) later.now) marks.now) (change_gives (context_of c.now) kind (designation (context_of c.now) a.now) (later_of (context_of c.now) later.now))) }
{
    match leads(alloc, c, a, &Later::Behind(e, later), marks)? {
        Stage::Known(s, rest) => {
            let operand = next(alloc, c, e, later, rest)?;
            changed_with(alloc, c, kind, a, &s, later, operand)
        }
        Stage::Waits(action) => Ok(Stage::Waits(action)),
        Stage::Traps(rest) => Ok(Stage::Traps(rest)),
    }
}

/// Where an element of an array leads.
#[inline(never)]
#[cycle(next)]
fn element<'e, 'm>(
    alloc: Global,
    c: &Context<'_>,
    a: &'e Place,
    i: &'e Expr,
    later: &'e Later<'e>,
    marks: &'m [Mark],
) -> Result<Stage<'m, Option<Spot>>, NoMemory>
    requires { AreSized c.now.program.now.structures c.now.program.now.target }
    ensures { IfOk result (λ s. progress_of s ≡ and_then (place_and_value (designation (context_of c.now) a.now) (meaning (context_of c.now) i.now) (later_of (context_of c.now) later.now) marks.now) (element_gives (context_of c.now) (designation (context_of c.now) a.now))) }
{
    match leads(alloc, c, a, &Later::Behind(i, later), marks)? {
        Stage::Known(s, rest) => {
            let index = next(alloc, c, i, later, rest)?;
            subscripted(alloc, c, a, &s, index)
        }
        Stage::Waits(action) => Ok(Stage::Waits(action)),
        Stage::Traps(rest) => Ok(Stage::Traps(rest)),
    }
}

/// Where a place leads, from the marks of what its steps have done, where `later` stands behind it.
#[cycle(next)]
#[tactic(auto, unfolding(crate::specs::Eval::meaning, crate::specs::Eval::designation))]
pub fn leads<'e, 'm>(
    alloc: Global,
    c: &Context<'_>,
    a: &'e Place,
    later: &'e Later<'e>,
    marks: &'m [Mark],
) -> Result<Stage<'m, Option<Spot>>, NoMemory>
    requires { AreSized c.now.program.now.structures c.now.program.now.target }
    ensures { IfOk result (λ s. progress_of s ≡ (designation (context_of c.now) a.now).leads (later_of (context_of c.now) later.now) marks.now) }
{
    match a {
        Place::Local(r) => {
            let object = Root::Auto {
                activation: c.number,
                func: c.id,
                local: *r,
            };
            Ok(Stage::Known(Some(whole(alloc, object)), marks))
        }
        Place::Static(i) => Ok(Stage::Known(Some(whole(alloc, Root::Static(*i))), marks)),
        Place::Device(d) => Ok(Stage::Known(Some(Spot::Device(*d)), marks)),
        Place::Element(a, i) => element(alloc, c, a.get(), i.get(), later, marks),
        Place::Member(a, m) => {
            selected(
                alloc,
                c,
                a.get(),
                *m,
                leads(alloc, c, a.get(), later, marks)?,
            )
        }
        Place::Deref(e) => spot_of(alloc, next(alloc, c, e.get(), later, marks)?),
    }
}

/// A whole object.
fn whole(alloc: Global, object: Root) -> Spot
    ensures { result ≡ WholeSpot object [] }
{
    Spot::Object(object, List::of(Vec::new(alloc)))
}

/// `a && b`.
#[inline(never)]
#[cycle(next)]
fn both<'e, 'm>(
    alloc: Global,
    c: &Context<'_>,
    is_pure: bool,
    a: &'e Expr,
    b: &'e Expr,
    later: &'e Later<'e>,
    marks: &'m [Mark],
) -> Result<Stage<'m, Option<Value>>, NoMemory>
    requires { AreSized c.now.program.now.structures c.now.program.now.target }
    ensures { IfOk result (λ s. progress_of s ≡ both_of is_pure (meaning (context_of c.now) a.now) (meaning (context_of c.now) b.now) (later_of (context_of c.now) later.now) marks.now) }
{
    match condition(
        alloc,
        is_pure,
        next(alloc, c, a, &Later::Behind(b, later), marks)?,
    )? {
        Stage::Known(None, rest) => Ok(Stage::Known(None, rest)),
        Stage::Known(Some(true), rest) => {
            Ok(as_condition(is_pure, next(alloc, c, b, later, rest)?))
        }
        Stage::Known(Some(false), rest) => Ok(outcome(is_pure, Some(Value::Int(0)), rest)),
        Stage::Waits(action) => Ok(Stage::Waits(action)),
        Stage::Traps(rest) => Ok(Stage::Traps(rest)),
    }
}

/// `a || b`.
#[inline(never)]
#[cycle(next)]
fn either<'e, 'm>(
    alloc: Global,
    c: &Context<'_>,
    is_pure: bool,
    a: &'e Expr,
    b: &'e Expr,
    later: &'e Later<'e>,
    marks: &'m [Mark],
) -> Result<Stage<'m, Option<Value>>, NoMemory>
    requires { AreSized c.now.program.now.structures c.now.program.now.target }
    ensures { IfOk result (λ s. progress_of s ≡ either_of is_pure (meaning (context_of c.now) a.now) (meaning (context_of c.now) b.now) (later_of (context_of c.now) later.now) marks.now) }
{
    match condition(
        alloc,
        is_pure,
        next(alloc, c, a, &Later::Behind(b, later), marks)?,
    )? {
        Stage::Known(None, rest) => Ok(Stage::Known(None, rest)),
        Stage::Known(Some(true), rest) => Ok(outcome(is_pure, Some(Value::Int(1)), rest)),
        Stage::Known(Some(false), rest) => {
            Ok(as_condition(is_pure, next(alloc, c, b, later, rest)?))
        }
        Stage::Waits(action) => Ok(Stage::Waits(action)),
        Stage::Traps(rest) => Ok(Stage::Traps(rest)),
    }
}

/// `d ? a : b`; the other arm counts as a later operand.
#[inline(never)]
#[cycle(next)]
fn chosen_arm<'e, 'm>(
    alloc: Global,
    c: &Context<'_>,
    is_pure: bool,
    d: &'e Expr,
    a: &'e Expr,
    b: &'e Expr,
    later: &'e Later<'e>,
    marks: &'m [Mark],
) -> Result<Stage<'m, Option<Value>>, NoMemory>
    requires { AreSized c.now.program.now.structures c.now.program.now.target }
    ensures { IfOk result (λ s. progress_of s ≡ chosen_arm_of is_pure (meaning (context_of c.now) d.now) (meaning (context_of c.now) a.now) (meaning (context_of c.now) b.now) (later_of (context_of c.now) later.now) marks.now) }
{
    match condition(
        alloc,
        is_pure,
        next(alloc, c, d, &Later::BothBehind(a, b, later), marks)?,
    )? {
        Stage::Known(None, rest) => Ok(Stage::Known(None, rest)),
        Stage::Known(Some(true), rest) => {
            Ok(arm_of(is_pure, next(alloc, c, a, &Later::Behind(b, later), rest)?))
        }
        Stage::Known(Some(false), rest) => Ok(arm_of(is_pure, next(alloc, c, b, later, rest)?)),
        Stage::Waits(action) => Ok(Stage::Waits(action)),
        Stage::Traps(rest) => Ok(Stage::Traps(rest)),
    }
}

/// The arguments of a call, from left to right.
#[cycle(next)]
#[tactic(auto, using(crate::proofs::EachLemmas::of_each))]
fn each<'e, 'm>(
    alloc: Global,
    c: &Context<'_>,
    args: &'e [Expr],
    later: &'e Later<'e>,
    marks: &'m [Mark],
) -> Result<Stage<'m, List<Option<Value>>>, NoMemory>
    requires { AreSized c.now.program.now.structures c.now.program.now.target }
    ensures { IfOk result (λ s. progress_of s ≡ each_of (map (meaning (context_of c.now)) args.now) (later_of (context_of c.now) later.now) marks.now) }
{
    let mut values = Vec::new(alloc);
    let mut left = marks;
    for (i, arg) in args.iter().enumerate() {
        match next(
            alloc,
            c,
            arg,
            &Later::AllBehind(&args[i + 1..], later),
            left,
        )? {
            Stage::Known(v, rest) => {
                values.push(v)?;
                left = rest;
            }
            Stage::Waits(action) => return Ok(Stage::Waits(action)),
            Stage::Traps(rest) => return Ok(Stage::Traps(rest)),
        }
    }
    Ok(Stage::Known(List::of(values), left))
}

/// A call, once it is known what is called (C99 6.5.2.2, 10).
#[inline(never)]
#[cycle(next)]
fn call<'e, 'm>(
    alloc: Global,
    c: &Context<'_>,
    args: &'e List<Expr>,
    later: &'e Later<'e>,
    callee: Stage<'m, Option<Value>>,
) -> Result<Stage<'m, Option<Value>>, NoMemory>
    requires { AreSized c.now.program.now.structures c.now.program.now.target }
    ensures { IfOk result (λ s. progress_of s ≡ and_then (progress_of callee.entry) (called_with_of (map (meaning (context_of c.now)) args.now) (later_of (context_of c.now) later.now))) }
{
    match callee {
        Stage::Known(callee, rest) => {
            called_by(alloc, &callee, each(alloc, c, args.all(), later, rest)?)
        }
        Stage::Waits(action) => Ok(Stage::Waits(action)),
        Stage::Traps(rest) => Ok(Stage::Traps(rest)),
    }
}

/// A comma: a bad left operand would be dropped (C99 6.5.17).
#[inline(never)]
#[cycle(next)]
fn sequence<'e, 'm>(
    alloc: Global,
    c: &Context<'_>,
    a: &'e Expr,
    b: &'e Expr,
    later: &'e Later<'e>,
    marks: &'m [Mark],
) -> Result<Stage<'m, Option<Value>>, NoMemory>
    requires { AreSized c.now.program.now.structures c.now.program.now.target }
    ensures { IfOk result (λ s. progress_of s ≡ sequence_of (meaning (context_of c.now) a.now) (meaning (context_of c.now) b.now) (later_of (context_of c.now) later.now) marks.now) }
{
    match next(alloc, c, a, &Later::Behind(b, later), marks)? {
        Stage::Known(None, rest) => Ok(Stage::Traps(rest)),
        Stage::Known(Some(_), rest) => next(alloc, c, b, later, rest),
        Stage::Waits(action) => Ok(Stage::Waits(action)),
        Stage::Traps(rest) => Ok(Stage::Traps(rest)),
    }
}

/// What a full expression does next: nothing comes behind it that assigns a register.
pub fn next_of<'e, 'm>(
    alloc: Global,
    c: Context<'e>,
    e: &'e Expr,
    marks: &'m [Mark],
) -> Result<Stage<'m, Option<Value>>, NoMemory>
    requires { AreSized c.program.now.structures c.program.now.target }
    ensures { IfOk result (λ s. progress_of s ≡ next_of_whole (context_of c.entry) e.now marks.now) }
{
    next(alloc, &c, e, &Later::Nothing, marks)
}

ghost use Rattle.std.specs.Prelude.{[]};
ghost use Rattle.cc_eval.specs.declared.spots.Spot.TheVariants.{Object as WholeSpot};
