//! Expressions and places with other numbers of locals and devices.

ghost use Rattle.std.specs.Prelude.{◌≡◌, IfOk, map};
ghost use Rattle.cc_lower_numbers.specs.Renamed.{number_at as number_at_of, expr_renamed, place_renamed};

use cc_program::num::{Boxed, List, NoMemory, at};
use cc_program::{Expr, Place};
use std::alloc::Global;

/// The number that a table has for one; what it has none for stays.
pub fn number_at(numbers: &[u32], i: u32) -> u32
    ensures { result ≡ number_at_of numbers.now i }
{
    match at(numbers, i as usize) {
        None => i,
        Some(number) => *number,
    }
}

/// The expression, with these numbers.
#[cycle(rename)]
#[tactic(auto, unfolding(crate::specs::Renamed::expr_renamed, crate::specs::Renamed::place_renamed))]
pub fn rename_expr(
    alloc: Global,
    locals: &[u32],
    devices: &[u32],
    e: Expr,
) -> Result<Expr, NoMemory>
    ensures { IfOk result (λ r. r ≡ expr_renamed (number_at_of locals.now) (number_at_of devices.now) e) }
{
    match e {
        Expr::Const(n, t) => Ok(Expr::Const(n, t)),
        Expr::Null(t) => Ok(Expr::Null(t)),
        Expr::FuncAddr(f) => Ok(Expr::FuncAddr(f)),
        Expr::Load(p) => Ok(Expr::Load(rename_boxed_place(alloc, locals, devices, p)?)),
        Expr::AddrOf(p) => Ok(Expr::AddrOf(rename_boxed_place(alloc, locals, devices, p)?)),
        Expr::Un(op, t, a) => Ok(Expr::Un(op, t, rename_boxed(alloc, locals, devices, a)?)),
        Expr::Bin(op, t, a, b) => {
            let (a, b) = rename_two(alloc, locals, devices, a, b)?;
            Ok(Expr::Bin(op, t, a, b))
        }
        Expr::Conv(t, a) => Ok(Expr::Conv(t, rename_boxed(alloc, locals, devices, a)?)),
        Expr::Qualify(t, a) => {
            let a = rename_boxed(alloc, locals, devices, a)?;
            Ok(Expr::Qualify(t, a))
        }
        Expr::Move(a, b, back) => {
            let (a, b) = rename_two(alloc, locals, devices, a, b)?;
            Ok(Expr::Move(a, b, back))
        }
        Expr::Gap(a, b) => {
            let (a, b) = rename_two(alloc, locals, devices, a, b)?;
            Ok(Expr::Gap(a, b))
        }
        Expr::Compare(op, a, b) => {
            let (a, b) = rename_two(alloc, locals, devices, a, b)?;
            Ok(Expr::Compare(op, a, b))
        }
        Expr::Both(a, b) => {
            let (a, b) = rename_two(alloc, locals, devices, a, b)?;
            Ok(Expr::Both(a, b))
        }
        Expr::Either(a, b) => {
            let (a, b) = rename_two(alloc, locals, devices, a, b)?;
            Ok(Expr::Either(a, b))
        }
        Expr::Choose(a, b, c) => {
            let a = rename_boxed(alloc, locals, devices, a)?;
            let (b, c) = rename_two(alloc, locals, devices, b, c)?;
            Ok(Expr::Choose(a, b, c))
        }
        Expr::Assign(p, a) => {
            let a = rename_boxed(alloc, locals, devices, a)?;
            Ok(Expr::Assign(rename_boxed_place(alloc, locals, devices, p)?, a))
        }
        Expr::Change(p, op, t, a) => {
            let a = rename_boxed(alloc, locals, devices, a)?;
            Ok(Expr::Change(rename_boxed_place(alloc, locals, devices, p)?, op, t, a))
        }
        Expr::After(p, down) => Ok(Expr::After(
            rename_boxed_place(alloc, locals, devices, p)?,
            down,
        )),
        Expr::Call(f, args) => {
            let args = rename_args(alloc, locals, devices, args)?;
            Ok(Expr::Call(rename_boxed(alloc, locals, devices, f)?, args))
        }
        Expr::Intr(i, None) => Ok(Expr::Intr(i, None)),
        Expr::Intr(i, Some(a)) => Ok(Expr::Intr(i, Some(rename_boxed(alloc, locals, devices, a)?))),
        Expr::Seq(a, b) => {
            let (a, b) = rename_two(alloc, locals, devices, a, b)?;
            Ok(Expr::Seq(a, b))
        }
    }
}

#[cycle(rename)]
#[tactic(auto, unfolding(crate::specs::Renamed::expr_renamed, crate::specs::Renamed::place_renamed))]
pub fn rename_boxed(
    alloc: Global,
    locals: &[u32],
    devices: &[u32],
    e: Boxed<Expr>,
) -> Result<Boxed<Expr>, NoMemory>
    ensures { IfOk result (λ r. r ≡ expr_renamed (number_at_of locals.now) (number_at_of devices.now) e) }
{
    Boxed::new(alloc, rename_expr(alloc, locals, devices, e.into_inner())?)
}

#[cycle(rename)]
#[tactic(auto, unfolding(crate::specs::Renamed::expr_renamed, crate::specs::Renamed::place_renamed))]
fn rename_two(
    alloc: Global,
    locals: &[u32],
    devices: &[u32],
    a: Boxed<Expr>,
    b: Boxed<Expr>,
) -> Result<(Boxed<Expr>, Boxed<Expr>), NoMemory>
    ensures { IfOk result (λ r. r ≡ (expr_renamed (number_at_of locals.now) (number_at_of devices.now) a, expr_renamed (number_at_of locals.now) (number_at_of devices.now) b)) }
{
    let a = rename_boxed(alloc, locals, devices, a)?;
    let b = rename_boxed(alloc, locals, devices, b)?;
    Ok((a, b))
}

#[cycle(rename)]
#[tactic(auto, unfolding(crate::specs::Renamed::expr_renamed, crate::specs::Renamed::place_renamed))]
fn rename_args(
    alloc: Global,
    locals: &[u32],
    devices: &[u32],
    args: List<Expr>,
) -> Result<List<Expr>, NoMemory>
    ensures { IfOk result (λ r. r ≡ map (λ e. expr_renamed (number_at_of locals.now) (number_at_of devices.now) e) args) }
{
    let mut renamed = Vec::new(alloc);
    for arg in args.into_vec() {
        renamed.push(rename_expr(alloc, locals, devices, arg)?)?;
    }
    Ok(List::of(renamed))
}

#[cycle(rename)]
#[tactic(auto, unfolding(crate::specs::Renamed::expr_renamed, crate::specs::Renamed::place_renamed))]
fn rename_place(alloc: Global, locals: &[u32], devices: &[u32], p: Place) -> Result<Place, NoMemory>
    ensures { IfOk result (λ r. r ≡ place_renamed (number_at_of locals.now) (number_at_of devices.now) p) }
{
    match p {
        Place::Local(local) => Ok(Place::Local(number_at(locals, local))),
        Place::Static(object) => Ok(Place::Static(object)),
        Place::Device(device) => Ok(Place::Device(number_at(devices, device))),
        Place::Element(p, e) => {
            let e = rename_boxed(alloc, locals, devices, e)?;
            Ok(Place::Element(rename_boxed_place(alloc, locals, devices, p)?, e))
        }
        Place::Member(p, m) => {
            Ok(Place::Member(rename_boxed_place(alloc, locals, devices, p)?, m))
        }
        Place::Deref(e) => Ok(Place::Deref(rename_boxed(alloc, locals, devices, e)?)),
    }
}

#[cycle(rename)]
#[tactic(auto, unfolding(crate::specs::Renamed::expr_renamed, crate::specs::Renamed::place_renamed))]
fn rename_boxed_place(
    alloc: Global,
    locals: &[u32],
    devices: &[u32],
    p: Boxed<Place>,
) -> Result<Boxed<Place>, NoMemory>
    ensures { IfOk result (λ r. r ≡ place_renamed (number_at_of locals.now) (number_at_of devices.now) p) }
{
    Boxed::new(alloc, rename_place(alloc, locals, devices, p.into_inner())?)
}
