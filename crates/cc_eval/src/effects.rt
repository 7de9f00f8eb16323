//! What is known of expressions before they run: the registers that they assign, and whether they are pure.

ghost use Rattle.std.specs.Prelude.{◌≡◌, ◌||◌, map};
ghost use Rattle.cc_syntax.specs.Effects.{is_soft as is_soft_of, only, all_assigned, effects_of, place_effects_of};
ghost use Rattle.cc_eval.specs.View.{context_of, later_of};

use crate::context::Context;
use cc_program::{Expr, Func, Place};
use cc_typed::is_register;

/// The later operands of a full expression.
#[derive(Clone, Copy)]
pub enum Later<'p> {
    Nothing,
    Behind(&'p Expr, &'p Later<'p>),
    BothBehind(&'p Expr, &'p Expr, &'p Later<'p>),
    AllBehind(&'p [Expr], &'p Later<'p>),
}

/// Whether an expression assigns a register.
#[cycle(assigns)]
#[tactic(auto, unfolding(cc_syntax::specs::Effects::effects_of, cc_syntax::specs::Effects::place_effects_of))]
pub fn is_assigned(f: &Func, e: &Expr, register: u32) -> bool
    ensures { result ≡ (effects_of f.now e.now).assigned register }
{
    match e {
        Expr::Const(_, _) | Expr::Null(_) | Expr::FuncAddr(_) => false,
        Expr::Load(a) => is_assigned_at(f, a.get(), register),
        Expr::AddrOf(a) => is_assigned_at(f, a.get(), register),
        Expr::Un(_, _, a) => is_assigned(f, a.get(), register),
        Expr::Bin(_, _, a, b) => is_assigned(f, a.get(), register)
            || is_assigned(f, b.get(), register),
        Expr::Conv(_, a) => is_assigned(f, a.get(), register),
        Expr::Qualify(_, a) => is_assigned(f, a.get(), register),
        Expr::Move(a, b, _) => is_assigned(f, a.get(), register)
            || is_assigned(f, b.get(), register),
        Expr::Gap(a, b) => is_assigned(f, a.get(), register) || is_assigned(f, b.get(), register),
        Expr::Compare(_, a, b) => is_assigned(f, a.get(), register)
            || is_assigned(f, b.get(), register),
        Expr::Both(a, b) => is_assigned(f, a.get(), register) || is_assigned(f, b.get(), register),
        Expr::Either(a, b) => is_assigned(f, a.get(), register)
            || is_assigned(f, b.get(), register),
        Expr::Choose(d, a, b) => {
            is_assigned(f, d.get(), register)
                || is_assigned(f, a.get(), register)
                || is_assigned(f, b.get(), register)
        }
        Expr::Assign(a, e) => {
            is_only(place_register(f, a.get()), register)
                || is_assigned_at(f, a.get(), register)
                || is_assigned(f, e.get(), register)
        }
        Expr::Change(a, _, _, e) => {
            is_only(place_register(f, a.get()), register)
                || is_assigned_at(f, a.get(), register)
                || is_assigned(f, e.get(), register)
        }
        Expr::After(a, _) => {
            is_only(place_register(f, a.get()), register) || is_assigned_at(f, a.get(), register)
        }
        Expr::Call(callee, args) => {
            is_assigned(f, callee.get(), register) || is_one_assigned(f, args.all(), register)
        }
        Expr::Intr(_, None) => false,
        Expr::Intr(_, Some(a)) => is_assigned(f, a.get(), register),
        Expr::Seq(a, b) => is_assigned(f, a.get(), register) || is_assigned(f, b.get(), register),
    }
}

/// Whether the operands of a place assign a register.
#[cycle(assigns)]
#[tactic(auto, unfolding(cc_syntax::specs::Effects::effects_of, cc_syntax::specs::Effects::place_effects_of))]
pub fn is_assigned_at(f: &Func, a: &Place, register: u32) -> bool
    ensures { result ≡ (place_effects_of f.now a.now).assigned register }
{
    match a {
        Place::Local(_) | Place::Static(_) | Place::Device(_) => false,
        Place::Element(a, i) => is_assigned_at(f, a.get(), register)
            || is_assigned(f, i.get(), register),
        Place::Member(a, _) => is_assigned_at(f, a.get(), register),
        Place::Deref(e) => is_assigned(f, e.get(), register),
    }
}

fn either(a: bool, b: bool) -> bool
    ensures { result ≡ (a || b) }
{
    a || b
}

/// Whether one of the expressions assigns a register.
#[cycle(assigns)]
#[tactic(auto, using(crate::proofs::EffectLemmas::of_assigned))]
pub fn is_one_assigned(f: &Func, es: &[Expr], register: u32) -> bool
    ensures { result ≡ all_assigned (map (effects_of f.now) es.now) register }
{
    let mut found = false;
    for e in es {
        found = either(is_assigned(f, e, register), found);
    }
    found
}

fn is_only(place: Option<u32>, register: u32) -> bool
    ensures { result ≡ only place register }
{
    match place {
        None => false,
        Some(n) => n == register,
    }
}

/// The register that a place is, if it is one.
#[tactic(auto, unfolding(cc_syntax::specs::Effects::place_effects_of))]
pub fn place_register(f: &Func, a: &Place) -> Option<u32>
    ensures { result ≡ (place_effects_of f.now a.now).register }
{
    match a {
        Place::Local(r) => { if is_register(f, *r) { Some(*r) } else { None } }
        _ => None,
    }
}

/// Whether a later operand assigns a register.
pub fn is_later(c: &Context, register: u32, later: &Later<'_>) -> bool
    ensures { result ≡ later_of (context_of c.now) later.now register }
{
    match later {
        Later::Nothing => false,
        Later::Behind(e, more) => is_assigned(c.func, e, register) || is_later(c, register, more),
        Later::BothBehind(a, b, more) => {
            either(
                is_assigned(c.func, a, register),
                is_assigned(c.func, b, register),
            ) || is_later(c, register, more)
        }
        Later::AllBehind(es, more) => is_one_assigned(c.func, es, register)
            || is_later(c, register, more),
    }
}

/// Whether a place is a register that no later operand assigns.
pub fn is_soft(c: &Context, a: &Place, later: &Later<'_>) -> bool
    ensures { result ≡ is_soft_of (place_effects_of c.now.func.now a.now).register (later_of (context_of c.now) later.now) }
{
    match place_register(c.func, a) {
        None => false,
        Some(r) => !is_later(c, r, later),
    }
}

/// Whether an expression is pure: it has no call, intrinsic, assignment, `++`, `--` or comma, and reads nothing
/// but registers, none of which a later operand assigns.
#[cycle(pure)]
#[tactic(auto, unfolding(cc_syntax::specs::Effects::effects_of, cc_syntax::specs::Effects::place_effects_of))]
pub fn is_pure(c: &Context, e: &Expr, later: &Later<'_>) -> bool
    ensures { result ≡ (effects_of c.now.func.now e.now).pure (later_of (context_of c.now) later.now) }
{
    match e {
        Expr::Const(_, _) | Expr::Null(_) | Expr::FuncAddr(_) => true,
        Expr::Load(a) => is_soft(c, a.get(), later),
        Expr::AddrOf(a) => is_pure_at(c, a.get(), later),
        Expr::Un(_, _, a) => is_pure(c, a.get(), later),
        Expr::Bin(_, _, a, b) => is_pure(c, a.get(), later) && is_pure(c, b.get(), later),
        Expr::Conv(_, a) => is_pure(c, a.get(), later),
        Expr::Qualify(_, a) => is_pure(c, a.get(), later),
        Expr::Move(a, b, _) => is_pure(c, a.get(), later) && is_pure(c, b.get(), later),
        Expr::Gap(a, b) => is_pure(c, a.get(), later) && is_pure(c, b.get(), later),
        Expr::Compare(_, a, b) => is_pure(c, a.get(), later) && is_pure(c, b.get(), later),
        Expr::Both(a, b) => is_pure(c, a.get(), later) && is_pure(c, b.get(), later),
        Expr::Either(a, b) => is_pure(c, a.get(), later) && is_pure(c, b.get(), later),
        Expr::Choose(d, a, b) => {
            is_pure(c, d.get(), later) && is_pure(c, a.get(), later) && is_pure(c, b.get(), later)
        }
        _ => false,
    }
}

/// Whether the operands of a place are pure.
#[cycle(pure)]
#[tactic(auto, unfolding(cc_syntax::specs::Effects::effects_of, cc_syntax::specs::Effects::place_effects_of))]
fn is_pure_at(c: &Context, a: &Place, later: &Later<'_>) -> bool
    ensures { result ≡ (place_effects_of c.now.func.now a.now).pure (later_of (context_of c.now) later.now) }
{
    match a {
        Place::Local(_) | Place::Static(_) | Place::Device(_) => true,
        Place::Element(a, i) => is_pure_at(c, a.get(), later) && is_pure(c, i.get(), later),
        Place::Member(a, _) => is_pure_at(c, a.get(), later),
        Place::Deref(e) => is_pure(c, e.get(), later),
    }
}
