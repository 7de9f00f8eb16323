//! Expressions as operands, as whole right sides, and as expression statements.

ghost use Rattle.std.specs.Prelude.{IfOk, option_map};
ghost use Rattle.cc_lower_accesses.specs.Assigned.{among};
ghost use Rattle.cc_registers.specs.Kept.{AreKept};
ghost use Rattle.cc_lower_accesses.specs.Modes.{operand_of, whole_of, effect_of, place_of, pair_of, placed_of, arguments_of, calling_of, intrinsic_of, condition_in, chosen_of, chosen_void_of, assigned_of};
ghost use Rattle.cc_lower_operands.specs.Branches.{decided_of};
ghost use Rattle.cc_lower_operands.specs.Made.{IsMade};
ghost use Rattle.cc_eval.specs.CcSyntax.Effects.{also, effects_of};
ghost use Rattle.cc_eval.specs.CcSyntax.Sizes.{AreSized};
ghost use Rattle.cc_eval.specs.CcTyped.View.{value_view};

use crate::parts::{
    address, both, boxed, boxed_place, branch_alone, called, chosen, either, element, is_void,
    member, pointed_to, put_if, put_right, put_value, settled_by, with_operand,
};
use cc_eval::typed::ValueType;
use cc_lower_accesses::{Body, assign, fresh, into, set};
use cc_program::num::{Boxed, IntType, List, Name, NoMemory};
use cc_program::{CType, Expr, Intr, Place, Stmt};

/// What an operand becomes: a pure expression, behind statements.
#[cycle(lower)]
pub(crate) fn operand<'p>(
    body: Body<'p>,
    e: &'p Expr,
    later: &[u32],
    locals: &mut Vec<(Name, CType)>,
    out: &mut Vec<Stmt>,
) -> Result<Expr, NoMemory>
    requires sized { AreSized body.program.now.structures body.program.now.target }
    requires kept { AreKept body.func.now body.registers.now }
    ensures { IfOk result (λ v. IsMade (operand_of body.entry.program.now body.entry.func.now e.now (among later.now)) v locals.old.items locals.new.items out.old.items out.new.items) }
{
    match e {
        Expr::Const(_, _) | Expr::Null(_) | Expr::FuncAddr(_) => e.copy(body.alloc),
        Expr::Load(a) => {
            let b = place(body, a.get(), later, locals, out)?;
            body.read_at(a.get(), b, later, locals, out)
        }
        Expr::AddrOf(a) => address(body, place(body, a.get(), later, locals, out)?),
        Expr::Un(_, _, a) | Expr::Conv(_, a) | Expr::Qualify(_, a) => {
            let x = operand(body, a.get(), later, locals, out)?;
            body.with_one(e, x)
        }
        Expr::Bin(_, _, a, b) | Expr::Move(a, b, _) | Expr::Gap(a, b) | Expr::Compare(_, a, b) => {
            let (x, y) = pair(body, a.get(), b.get(), later, locals, out)?;
            body.with_two(e, x, y)
        }
        Expr::Both(a, b) => {
            if body.is_pure(e, later) {
                return e.copy(body.alloc);
            }
            let (x, n, arm) = decided(body, a.get(), b.get(), later, locals, out)?;
            both(body, x, n, arm, out)
        }
        Expr::Either(a, b) => {
            if body.is_pure(e, later) {
                return e.copy(body.alloc);
            }
            let (x, n, arm) = decided(body, a.get(), b.get(), later, locals, out)?;
            either(body, x, n, arm, out)
        }
        Expr::Choose(c, a, b) => {
            if body.is_pure(e, later) {
                return e.copy(body.alloc);
            }
            let t = body.type_of(e);
            choose(body, t, c.get(), a.get(), b.get(), later, locals, out)
        }
        Expr::Assign(a, v) => assigned_value(body, a.get(), v.get(), later, locals, out),
        Expr::Change(a, op, t, v) => {
            let (b, x) = placed(body, a.get(), v.get(), later, locals, out)?;
            body.changed_value(a.get(), *op, *t, b, x, later, locals, out)
        }
        Expr::After(a, down) => {
            let b = place(body, a.get(), later, locals, out)?;
            body.stepped_value(a.get(), *down, b, locals, out)
        }
        Expr::Call(g, args) => {
            let x = call(body, args, g.get(), later, locals, out)?;
            into(body.alloc, body.type_of(e), x, locals, out)
        }
        Expr::Intr(i, a) => {
            let x = intrinsic(body, *i, a, later, locals, out)?;
            into(body.alloc, body.type_of(e), x, locals, out)
        }
        Expr::Seq(a, b) => {
            effect_before(body, a.get(), b.get(), later, locals, out)?;
            operand(body, b.get(), later, locals, out)
        }
    }
}

/// The whole right side of an assignment to a register of a type.
#[cycle(lower)]
fn whole<'p>(
    body: Body<'p>,
    e: &'p Expr,
    t: Option<ValueType<'p>>,
    register: u32,
    later: &[u32],
    locals: &mut Vec<(Name, CType)>,
    out: &mut Vec<Stmt>,
) -> Result<(), NoMemory>
    requires sized { AreSized body.program.now.structures body.program.now.target }
    requires kept { AreKept body.func.now body.registers.now }
    ensures { IfOk result (λ v. IsMade (whole_of body.entry.program.now body.entry.func.now e.now (option_map value_view t.entry) register (among later.now)) v locals.old.items locals.new.items out.old.items out.new.items) }
{
    match e {
        Expr::Load(a) => {
            let b = place(body, a.get(), later, locals, out)?;
            body.whole_read(a.get(), b, t, register, later, locals, out)
        }
        Expr::Call(g, args) => {
            let x = call(body, args, g.get(), later, locals, out)?;
            body.whole_right(body.type_of(e), x, t, register, locals, out)
        }
        Expr::Intr(i, a) => {
            let x = intrinsic(body, *i, a, later, locals, out)?;
            body.whole_right(body.type_of(e), x, t, register, locals, out)
        }
        Expr::Seq(a, b) => {
            effect_before(body, a.get(), b.get(), later, locals, out)?;
            whole(body, b.get(), t, register, later, locals, out)
        }
        _ => {
            let x = operand(body, e, later, locals, out)?;
            set(body.alloc, register, x, out)
        }
    }
}

/// An expression statement.
#[cycle(lower)]
pub(crate) fn effect<'p>(
    body: Body<'p>,
    e: &'p Expr,
    later: &[u32],
    locals: &mut Vec<(Name, CType)>,
    out: &mut Vec<Stmt>,
) -> Result<(), NoMemory>
    requires sized { AreSized body.program.now.structures body.program.now.target }
    requires kept { AreKept body.func.now body.registers.now }
    ensures { IfOk result (λ v. IsMade (effect_of body.entry.program.now body.entry.func.now e.now (among later.now)) v locals.old.items locals.new.items out.old.items out.new.items) }
{
    match e {
        Expr::Load(a) => {
            let t = body.value_of(a.get());
            let n = fresh(body.alloc, t, locals)?;
            let b = place(body, a.get(), later, locals, out)?;
            body.whole_read(a.get(), b, t, n, later, locals, out)
        }
        Expr::Both(_, _) | Expr::Either(_, _) => {
            let is_pure = body.is_pure(e, later);
            let x = operand(body, e, later, locals, out)?;
            branch_alone(body, is_pure, body.type_of(e), x, locals, out)
        }
        Expr::Choose(c, a, b) => {
            let t = body.type_of(e);
            if is_void(t) {
                return choose_void(body, c.get(), a.get(), b.get(), later, locals, out);
            }
            let is_pure = body.is_pure(e, later);
            let x = operand(body, e, later, locals, out)?;
            branch_alone(body, is_pure, t, x, locals, out)
        }
        Expr::Assign(a, v) => {
            match body.register_of(a.get()) {
                None => {
                    let (b, x) = placed(body, a.get(), v.get(), later, locals, out)?;
                    assign(body.alloc, b, x, out)
                }
                Some(r) => {
                    let t = body.value_of(a.get());
                    whole(body, v.get(), t, r, later, locals, out)
                }
            }
        }
        Expr::Change(a, op, t, v) => {
            let (b, x) = placed(body, a.get(), v.get(), later, locals, out)?;
            body.change_alone(a.get(), *op, *t, b, x, later, locals, out)
        }
        Expr::After(a, down) => {
            let b = place(body, a.get(), later, locals, out)?;
            body.step_alone(a.get(), *down, b, later, locals, out)
        }
        Expr::Call(g, args) => {
            put_right(body, call(body, args, g.get(), later, locals, out)?, out)
        }
        Expr::Intr(i, a) => { put_right(body, intrinsic(body, *i, a, later, locals, out)?, out) }
        Expr::Seq(a, b) => {
            effect_before(body, a.get(), b.get(), later, locals, out)?;
            effect(body, b.get(), later, locals, out)
        }
        _ => {
            let x = operand(body, e, later, locals, out)?;
            body.unused(body.type_of(e), x, locals, out)
        }
    }
}

/// A place with its operands lowered.
#[cycle(lower)]
fn place<'p>(
    body: Body<'p>,
    a: &'p Place,
    later: &[u32],
    locals: &mut Vec<(Name, CType)>,
    out: &mut Vec<Stmt>,
) -> Result<Place, NoMemory>
    requires sized { AreSized body.program.now.structures body.program.now.target }
    requires kept { AreKept body.func.now body.registers.now }
    ensures { IfOk result (λ v. IsMade (place_of body.entry.program.now body.entry.func.now a.now (among later.now)) v locals.old.items locals.new.items out.old.items out.new.items) }
{
    match a {
        Place::Local(r) => Ok(Place::Local(*r)),
        Place::Static(i) => Ok(Place::Static(*i)),
        Place::Device(d) => Ok(Place::Device(*d)),
        Place::Element(b, i) => {
            let (b, x) = placed(body, b.get(), i.get(), later, locals, out)?;
            element(body, b, x)
        }
        Place::Member(b, m) => member(body, place(body, b.get(), later, locals, out)?, *m),
        Place::Deref(e) => pointed_to(body, operand(body, e.get(), later, locals, out)?),
    }
}

/// An operand before another one.
#[cycle(lower)]
fn operand_before<'p>(
    body: Body<'p>,
    a: &'p Expr,
    b: &'p Expr,
    later: &[u32],
    locals: &mut Vec<(Name, CType)>,
    out: &mut Vec<Stmt>,
) -> Result<Boxed<Expr>, NoMemory>
    requires sized { AreSized body.program.now.structures body.program.now.target }
    requires kept { AreKept body.func.now body.registers.now }
    ensures { IfOk result (λ v. IsMade (operand_of body.entry.program.now body.entry.func.now a.now (also (effects_of body.entry.func.now b.now).assigned (among later.now))) v locals.old.items locals.new.items out.old.items out.new.items) }
{
    let behind = body.with(b, later)?;
    boxed(body, operand(body, a, &behind, locals, out)?)
}

/// An expression statement before an operand.
#[cycle(lower)]
fn effect_before<'p>(
    body: Body<'p>,
    a: &'p Expr,
    b: &'p Expr,
    later: &[u32],
    locals: &mut Vec<(Name, CType)>,
    out: &mut Vec<Stmt>,
) -> Result<(), NoMemory>
    requires sized { AreSized body.program.now.structures body.program.now.target }
    requires kept { AreKept body.func.now body.registers.now }
    ensures { IfOk result (λ v. IsMade (effect_of body.entry.program.now body.entry.func.now a.now (also (effects_of body.entry.func.now b.now).assigned (among later.now))) v locals.old.items locals.new.items out.old.items out.new.items) }
{
    let behind = body.with(b, later)?;
    effect(body, a, &behind, locals, out)
}

/// A place before an operand.
#[cycle(lower)]
fn place_before<'p>(
    body: Body<'p>,
    a: &'p Place,
    e: &'p Expr,
    later: &[u32],
    locals: &mut Vec<(Name, CType)>,
    out: &mut Vec<Stmt>,
) -> Result<Boxed<Place>, NoMemory>
    requires sized { AreSized body.program.now.structures body.program.now.target }
    requires kept { AreKept body.func.now body.registers.now }
    ensures { IfOk result (λ v. IsMade (place_of body.entry.program.now body.entry.func.now a.now (also (effects_of body.entry.func.now e.now).assigned (among later.now))) v locals.old.items locals.new.items out.old.items out.new.items) }
{
    let behind = body.with(e, later)?;
    boxed_place(body, place(body, a, &behind, locals, out)?)
}

/// The condition of a `?:`, before both arms.
#[cycle(lower)]
fn condition<'p>(
    body: Body<'p>,
    c: &'p Expr,
    a: &'p Expr,
    b: &'p Expr,
    later: &[u32],
    locals: &mut Vec<(Name, CType)>,
    out: &mut Vec<Stmt>,
) -> Result<Boxed<Expr>, NoMemory>
    requires sized { AreSized body.program.now.structures body.program.now.target }
    requires kept { AreKept body.func.now body.registers.now }
    ensures { IfOk result (λ v. IsMade (condition_in body.entry.program.now body.entry.func.now c.now a.now b.now (among later.now)) v locals.old.items locals.new.items out.old.items out.new.items) }
{
    let behind = body.with(b, later)?;
    let behind = body.with(a, &behind)?;
    boxed(body, operand(body, c, &behind, locals, out)?)
}

/// Two operands, from left to right.
#[cycle(lower)]
fn pair<'p>(
    body: Body<'p>,
    a: &'p Expr,
    b: &'p Expr,
    later: &[u32],
    locals: &mut Vec<(Name, CType)>,
    out: &mut Vec<Stmt>,
) -> Result<(Expr, Expr), NoMemory>
    requires sized { AreSized body.program.now.structures body.program.now.target }
    requires kept { AreKept body.func.now body.registers.now }
    ensures { IfOk result (λ v. IsMade (pair_of body.entry.program.now body.entry.func.now a.now b.now (among later.now)) v locals.old.items locals.new.items out.old.items out.new.items) }
{
    let x = operand_before(body, a, b, later, locals, out)?;
    let y = operand(body, b, later, locals, out)?;
    Ok((x.into_inner(), y))
}

/// A place, and an operand behind it.
#[cycle(lower)]
fn placed<'p>(
    body: Body<'p>,
    a: &'p Place,
    e: &'p Expr,
    later: &[u32],
    locals: &mut Vec<(Name, CType)>,
    out: &mut Vec<Stmt>,
) -> Result<(Place, Expr), NoMemory>
    requires sized { AreSized body.program.now.structures body.program.now.target }
    requires kept { AreKept body.func.now body.registers.now }
    ensures { IfOk result (λ v. IsMade (placed_of body.entry.program.now body.entry.func.now a.now e.now (among later.now)) v locals.old.items locals.new.items out.old.items out.new.items) }
{
    let b = place_before(body, a, e, later, locals, out)?;
    let x = operand(body, e, later, locals, out)?;
    Ok((b.into_inner(), x))
}

/// The arguments of a call, from left to right.
#[cycle(lower)]
fn arguments<'p>(
    body: Body<'p>,
    args: &'p [Expr],
    later: &[u32],
    locals: &mut Vec<(Name, CType)>,
    out: &mut Vec<Stmt>,
) -> Result<Vec<Expr>, NoMemory>
    requires sized { AreSized body.program.now.structures body.program.now.target }
    requires kept { AreKept body.func.now body.registers.now }
    ensures { IfOk result (λ v. IsMade (arguments_of body.entry.program.now body.entry.func.now args.now (among later.now)) v.items locals.old.items locals.new.items out.old.items out.new.items) }
{
    let mut values = Vec::new(body.alloc);
    for (i, arg) in args.iter().enumerate() {
        let behind = body.with_all(&args[i + 1..], later)?;
        values.push(operand(body, arg, &behind, locals, out)?)?;
    }
    Ok(values)
}

/// A call of a function or a register, as a right side.
#[cycle(lower)]
fn call<'p>(
    body: Body<'p>,
    args: &'p List<Expr>,
    g: &'p Expr,
    later: &[u32],
    locals: &mut Vec<(Name, CType)>,
    out: &mut Vec<Stmt>,
) -> Result<Expr, NoMemory>
    requires sized { AreSized body.program.now.structures body.program.now.target }
    requires kept { AreKept body.func.now body.registers.now }
    ensures { IfOk result (λ v. IsMade (calling_of body.entry.program.now body.entry.func.now g.now args.now (among later.now)) v locals.old.items locals.new.items out.old.items out.new.items) }
{
    let behind = body.with_all(args.all(), later)?;
    let callee = boxed(body, operand(body, g, &behind, locals, out)?)?;
    let values = arguments(body, args.all(), later, locals, out)?;
    called(body, g, callee, values, locals, out)
}

/// A call of an intrinsic, as a right side.
#[cycle(lower)]
fn intrinsic<'p>(
    body: Body<'p>,
    i: Intr,
    a: &'p Option<Boxed<Expr>>,
    later: &[u32],
    locals: &mut Vec<(Name, CType)>,
    out: &mut Vec<Stmt>,
) -> Result<Expr, NoMemory>
    requires sized { AreSized body.program.now.structures body.program.now.target }
    requires kept { AreKept body.func.now body.registers.now }
    ensures { IfOk result (λ v. IsMade (intrinsic_of body.entry.program.now body.entry.func.now i a.now (among later.now)) v locals.old.items locals.new.items out.old.items out.new.items) }
{
    match a {
        None => Ok(Expr::Intr(i, None)),
        Some(a) => with_operand(body, i, operand(body, a.get(), later, locals, out)?),
    }
}

/// What `&&` and `||` begin with: the first operand, a register for the value, and the arm that sets it to the truth of the
/// second operand.
#[cycle(lower)]
fn decided<'p>(
    body: Body<'p>,
    a: &'p Expr,
    b: &'p Expr,
    later: &[u32],
    locals: &mut Vec<(Name, CType)>,
    out: &mut Vec<Stmt>,
) -> Result<(Boxed<Expr>, u32, List<Stmt>), NoMemory>
    requires sized { AreSized body.program.now.structures body.program.now.target }
    requires kept { AreKept body.func.now body.registers.now }
    ensures { IfOk result (λ v. IsMade (decided_of body.entry.program.now body.entry.func.now a.now b.now (among later.now)) v locals.old.items locals.new.items out.old.items out.new.items) }
{
    let x = operand_before(body, a, b, later, locals, out)?;
    let n = fresh(body.alloc, Some(ValueType::Integer(IntType::Int)), locals)?;
    let mut arm = Vec::new(body.alloc);
    let y = operand(body, b, later, locals, &mut arm)?;
    Ok((x, n, settled_by(body, b, y, n, arm)?))
}

/// The value of a `?:` that is not pure.
#[cycle(lower)]
fn choose<'p>(
    body: Body<'p>,
    t: Option<ValueType<'p>>,
    c: &'p Expr,
    a: &'p Expr,
    b: &'p Expr,
    later: &[u32],
    locals: &mut Vec<(Name, CType)>,
    out: &mut Vec<Stmt>,
) -> Result<Expr, NoMemory>
    requires sized { AreSized body.program.now.structures body.program.now.target }
    requires kept { AreKept body.func.now body.registers.now }
    ensures { IfOk result (λ v. IsMade (chosen_of body.entry.program.now body.entry.func.now (option_map value_view t.entry) c.now a.now b.now (among later.now)) v locals.old.items locals.new.items out.old.items out.new.items) }
{
    let x = condition(body, c, a, b, later, locals, out)?;
    let n = fresh(body.alloc, t, locals)?;
    let behind = body.with(b, later)?;
    let mut these = Vec::new(body.alloc);
    whole(body, a, t, n, &behind, locals, &mut these)?;
    let mut those = Vec::new(body.alloc);
    whole(body, b, t, n, later, locals, &mut those)?;
    chosen(body, x, n, these, those, out)
}

/// A `?:` without value.
#[cycle(lower)]
fn choose_void<'p>(
    body: Body<'p>,
    c: &'p Expr,
    a: &'p Expr,
    b: &'p Expr,
    later: &[u32],
    locals: &mut Vec<(Name, CType)>,
    out: &mut Vec<Stmt>,
) -> Result<(), NoMemory>
    requires sized { AreSized body.program.now.structures body.program.now.target }
    requires kept { AreKept body.func.now body.registers.now }
    ensures { IfOk result (λ v. IsMade (chosen_void_of body.entry.program.now body.entry.func.now c.now a.now b.now (among later.now)) v locals.old.items locals.new.items out.old.items out.new.items) }
{
    let x = condition(body, c, a, b, later, locals, out)?;
    let mut these = Vec::new(body.alloc);
    effect_before(body, a, b, later, locals, &mut these)?;
    let mut those = Vec::new(body.alloc);
    effect(body, b, later, locals, &mut those)?;
    put_if(x, List::of(these), List::of(those), out)
}

/// The value of an assignment.
#[cycle(lower)]
fn assigned_value<'p>(
    body: Body<'p>,
    a: &'p Place,
    e: &'p Expr,
    later: &[u32],
    locals: &mut Vec<(Name, CType)>,
    out: &mut Vec<Stmt>,
) -> Result<Expr, NoMemory>
    requires sized { AreSized body.program.now.structures body.program.now.target }
    requires kept { AreKept body.func.now body.registers.now }
    ensures { IfOk result (λ v. IsMade (assigned_of body.entry.program.now body.entry.func.now a.now e.now (among later.now)) v locals.old.items locals.new.items out.old.items out.new.items) }
{
    let b = place_before(body, a, e, later, locals, out)?;
    let t = body.value_of(a);
    let n = fresh(body.alloc, t, locals)?;
    whole(body, e, t, n, later, locals, out)?;
    put_value(body, b, n, out)
}
