//! Expressions and places with the ids of the program.

ghost use Rattle.std.specs.Prelude.{◌≡◌, IfOk, slice_get, map, option_map};
ghost use Rattle.std.specs.Option.{option_copied};
ghost use Rattle.cc_unit.specs.Renumbered.{object_by as object_by_of, func_by as func_by_of, device_by as device_by_of, expr_renumbered, place_renumbered};

use crate::ids::{Id, Ids};
use crate::types::renumber_boxed_type;
use cc_program::num::{Boxed, List, NoMemory, at};
use cc_program::{Expr, Place};
use std::alloc::Global;

/// The id of an object, by its position among the names.
pub fn object_at(ids: &Ids, i: u32) -> u32
    ensures { result ≡ object_by_of (slice_get ids.now.names i) }
{
    match at(ids.names.all(), i as usize) {
        Some(Id::Object(id)) => *id,
        _ => 0,
    }
}

/// The id of a function.
pub fn func_at(ids: &Ids, i: u32) -> u32
    ensures { result ≡ func_by_of (slice_get ids.now.names i) }
{
    match at(ids.names.all(), i as usize) {
        Some(Id::Func(id)) => *id,
        _ => 0,
    }
}

/// The place of what one source has as a device.
fn device_at(ids: &Ids, i: u32) -> Place
    ensures { result ≡ device_by_of (slice_get ids.now.names i) }
{
    match at(ids.names.all(), i as usize) {
        Some(Id::Device(id)) => Place::Device(*id),
        Some(Id::Object(id)) => Place::Static(*id),
        _ => Place::Static(0),
    }
}

/// The expression, with the ids of the program.
#[cycle(renumber)]
#[tactic(auto, unfolding(crate::specs::Renumbered::expr_renumbered, crate::specs::Renumbered::place_renumbered))]
pub fn renumber_expr(alloc: Global, ids: &Ids, e: &Expr) -> Result<Expr, NoMemory>
    ensures { IfOk result (λ r. r ≡ expr_renumbered ids.now e.now) }
{
    match e {
        Expr::Const(n, t) => Ok(Expr::Const(*n, *t)),
        Expr::Null(t) => Ok(Expr::Null(renumber_boxed_type(alloc, ids.structures.all(), t.get())?)),
        Expr::FuncAddr(f) => Ok(Expr::FuncAddr(func_at(ids, *f))),
        Expr::Load(p) => Ok(Expr::Load(renumber_boxed_place(alloc, ids, p.get())?)),
        Expr::AddrOf(p) => Ok(Expr::AddrOf(renumber_boxed_place(alloc, ids, p.get())?)),
        Expr::Un(op, t, a) => Ok(Expr::Un(*op, *t, renumber_boxed(alloc, ids, a.get())?)),
        Expr::Bin(op, t, a, b) => {
            let (a, b) = renumber_two(alloc, ids, a, b)?;
            Ok(Expr::Bin(*op, *t, a, b))
        }
        Expr::Conv(t, a) => Ok(Expr::Conv(*t, renumber_boxed(alloc, ids, a.get())?)),
        Expr::Qualify(t, a) => {
            let a = renumber_boxed(alloc, ids, a.get())?;
            Ok(Expr::Qualify(
                renumber_boxed_type(alloc, ids.structures.all(), t.get())?,
                a,
            ))
        }
        Expr::Move(a, b, back) => {
            let (a, b) = renumber_two(alloc, ids, a, b)?;
            Ok(Expr::Move(a, b, *back))
        }
        Expr::Gap(a, b) => {
            let (a, b) = renumber_two(alloc, ids, a, b)?;
            Ok(Expr::Gap(a, b))
        }
        Expr::Compare(op, a, b) => {
            let (a, b) = renumber_two(alloc, ids, a, b)?;
            Ok(Expr::Compare(*op, a, b))
        }
        Expr::Both(a, b) => {
            let (a, b) = renumber_two(alloc, ids, a, b)?;
            Ok(Expr::Both(a, b))
        }
        Expr::Either(a, b) => {
            let (a, b) = renumber_two(alloc, ids, a, b)?;
            Ok(Expr::Either(a, b))
        }
        Expr::Choose(a, b, c) => {
            let a = renumber_boxed(alloc, ids, a.get())?;
            let (b, c) = renumber_two(alloc, ids, b, c)?;
            Ok(Expr::Choose(a, b, c))
        }
        Expr::Assign(p, a) => {
            let a = renumber_boxed(alloc, ids, a.get())?;
            Ok(Expr::Assign(renumber_boxed_place(alloc, ids, p.get())?, a))
        }
        Expr::Change(p, op, t, a) => {
            let a = renumber_boxed(alloc, ids, a.get())?;
            Ok(Expr::Change(renumber_boxed_place(alloc, ids, p.get())?, *op, *t, a))
        }
        Expr::After(p, down) => Ok(Expr::After(renumber_boxed_place(alloc, ids, p.get())?, *down)),
        Expr::Call(f, args) => {
            let args = renumber_args(alloc, ids, args)?;
            Ok(Expr::Call(renumber_boxed(alloc, ids, f.get())?, args))
        }
        Expr::Intr(i, None) => Ok(Expr::Intr(*i, None)),
        Expr::Intr(i, Some(a)) => Ok(Expr::Intr(*i, Some(renumber_boxed(alloc, ids, a.get())?))),
        Expr::Seq(a, b) => {
            let (a, b) = renumber_two(alloc, ids, a, b)?;
            Ok(Expr::Seq(a, b))
        }
    }
}

#[cycle(renumber)]
#[tactic(auto, unfolding(crate::specs::Renumbered::expr_renumbered, crate::specs::Renumbered::place_renumbered))]
pub fn renumber_boxed(alloc: Global, ids: &Ids, e: &Expr) -> Result<Boxed<Expr>, NoMemory>
    ensures { IfOk result (λ r. r ≡ expr_renumbered ids.now e.now) }
{
    Boxed::new(alloc, renumber_expr(alloc, ids, e)?)
}

#[cycle(renumber)]
#[tactic(auto, unfolding(crate::specs::Renumbered::expr_renumbered, crate::specs::Renumbered::place_renumbered))]
fn renumber_two(
    alloc: Global,
    ids: &Ids,
    a: &Boxed<Expr>,
    b: &Boxed<Expr>,
) -> Result<(Boxed<Expr>, Boxed<Expr>), NoMemory>
    ensures { IfOk result (λ r. r ≡ (expr_renumbered ids.now a.now, expr_renumbered ids.now b.now)) }
{
    let a = renumber_boxed(alloc, ids, a.get())?;
    let b = renumber_boxed(alloc, ids, b.get())?;
    Ok((a, b))
}

#[cycle(renumber)]
#[tactic(auto, unfolding(crate::specs::Renumbered::expr_renumbered, crate::specs::Renumbered::place_renumbered))]
fn renumber_args(alloc: Global, ids: &Ids, args: &List<Expr>) -> Result<List<Expr>, NoMemory>
    ensures { IfOk result (λ r. r ≡ map (λ e. expr_renumbered ids.now e) args.now) }
{
    let mut renumbered = Vec::new(alloc);
    for arg in args.all() {
        renumbered.push(renumber_expr(alloc, ids, arg)?)?;
    }
    Ok(List::of(renumbered))
}

#[cycle(renumber)]
#[tactic(auto, unfolding(crate::specs::Renumbered::expr_renumbered, crate::specs::Renumbered::place_renumbered))]
fn renumber_place(alloc: Global, ids: &Ids, p: &Place) -> Result<Place, NoMemory>
    ensures { IfOk result (λ r. r ≡ place_renumbered ids.now p.now) }
{
    match p {
        Place::Local(local) => Ok(Place::Local(*local)),
        Place::Static(object) => Ok(Place::Static(object_at(ids, *object))),
        Place::Device(device) => Ok(device_at(ids, *device)),
        Place::Element(p, e) => {
            let e = renumber_boxed(alloc, ids, e.get())?;
            Ok(Place::Element(renumber_boxed_place(alloc, ids, p.get())?, e))
        }
        Place::Member(p, m) => { Ok(Place::Member(renumber_boxed_place(alloc, ids, p.get())?, *m)) }
        Place::Deref(e) => Ok(Place::Deref(renumber_boxed(alloc, ids, e.get())?)),
    }
}

#[cycle(renumber)]
#[tactic(auto, unfolding(crate::specs::Renumbered::expr_renumbered, crate::specs::Renumbered::place_renumbered))]
fn renumber_boxed_place(alloc: Global, ids: &Ids, p: &Place) -> Result<Boxed<Place>, NoMemory>
    ensures { IfOk result (λ r. r ≡ place_renumbered ids.now p.now) }
{
    Boxed::new(alloc, renumber_place(alloc, ids, p)?)
}
