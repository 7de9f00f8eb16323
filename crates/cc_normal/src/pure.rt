//! Pure expressions, which read nothing but registers, and the operands of statements.

ghost use Rattle.std.specs.Prelude.{◌≡◌, ◌&&◌, is_some};
ghost use Rattle.cc_normal.specs.Kept.{AreKept};
ghost use Rattle.cc_syntax.specs.Effects.{no_one, effects_of, place_effects_of};
ghost use Rattle.cc_syntax.specs.Normal.{is_operand as is_operand_of, is_optional_operand as is_optional_operand_of, is_register_place as is_register_place_of, is_other_place as is_other_place_of};

use crate::folding::{folding_of, is_folded_place};
use crate::registers::is_kept_register;
use cc_program::num::{Boxed, Target};
use cc_syntax::{Expr, Func, Place};

/// Where an expression stands: the target, and the function.
#[derive(Clone, Copy)]
pub struct Body<'p> {
    pub target: &'p Target,
    pub func: &'p Func,
    /// Of the first locals, whether they are registers.
    pub kept: &'p [bool],
}

/// Whether a place is a register.
#[tactic(auto, unfolding(cc_syntax::specs::Effects::place_effects_of))]
fn is_register_place(f: &Func, kept: &[bool], a: &Place) -> bool
    requires { AreKept f.now kept.now }
    ensures { result ≡ is_some (place_effects_of f.now a.now).register }
{
    match a {
        Place::Local(r) => {
            if is_kept_register(f, kept, *r) {
                true
            } else {
                false
            }
        }
        _ => false,
    }
}

/// Whether an expression is pure, where nothing later assigns a register.
#[cycle(pure)]
#[tactic(auto, unfolding(cc_syntax::specs::Effects::effects_of, cc_syntax::specs::Effects::place_effects_of))]
fn is_pure(f: &Func, kept: &[bool], e: &Expr) -> bool
    requires { AreKept f.now kept.now }
    ensures { result ≡ (effects_of f.now e.now).pure no_one }
{
    match e {
        Expr::Const(_, _) | Expr::Null(_) | Expr::FuncAddr(_) => true,
        Expr::Load(a) => is_register_place(f, kept, a.get()),
        Expr::AddrOf(a) => is_pure_place(f, kept, a.get()),
        Expr::Un(_, _, a) | Expr::Conv(_, a) | Expr::Qualify(_, a) => is_pure(f, kept, a.get()),
        Expr::Bin(_, _, a, b)
        | Expr::Move(a, b, _)
        | Expr::Gap(a, b)
        | Expr::Compare(_, a, b)
        | Expr::Both(a, b)
        | Expr::Either(a, b) => is_pure(f, kept, a.get()) && is_pure(f, kept, b.get()),
        Expr::Choose(c, a, b) => is_pure(f, kept, c.get())
            && is_pure(f, kept, a.get())
            && is_pure(f, kept, b.get()),
        Expr::Assign(_, _) | Expr::Change(_, _, _, _) | Expr::After(_, _) => false,
        Expr::Call(_, _) | Expr::Intr(_, _) | Expr::Seq(_, _) => false,
    }
}

/// Whether the expressions in a place are pure.
#[cycle(pure)]
#[tactic(auto, unfolding(cc_syntax::specs::Effects::effects_of, cc_syntax::specs::Effects::place_effects_of))]
fn is_pure_place(f: &Func, kept: &[bool], a: &Place) -> bool
    requires { AreKept f.now kept.now }
    ensures { result ≡ (place_effects_of f.now a.now).pure no_one }
{
    match a {
        Place::Local(_) | Place::Static(_) | Place::Device(_) => true,
        Place::Element(a, i) => is_pure_place(f, kept, a.get()) && is_pure(f, kept, i.get()),
        Place::Member(a, _) => is_pure_place(f, kept, a.get()),
        Place::Deref(e) => is_pure(f, kept, e.get()),
    }
}

impl<'p> Body<'p> {
    /// Whether an expression is an operand: pure, and folded.
    pub fn is_operand(self, e: &Expr) -> bool
        requires { AreKept self.func.now self.kept.now }
        ensures { result ≡ is_operand_of self.entry.target.now self.entry.func.now e.now }
    {
        is_pure(self.func, self.kept, e) && folding_of(e, self.target).is_folded
    }

    /// Whether an expression, where there is one, is an operand.
    pub fn is_optional_operand(self, e: &Option<Boxed<Expr>>) -> bool
        requires { AreKept self.func.now self.kept.now }
        ensures { result ≡ is_optional_operand_of self.entry.target.now self.entry.func.now e.now }
    {
        match e {
            None => true,
            Some(e) => self.is_operand(e.get()),
        }
    }

    /// Whether a place is a register.
    pub fn is_register_place(self, a: &Place) -> bool
        requires { AreKept self.func.now self.kept.now }
        ensures { result ≡ is_register_place_of self.entry.target.now self.entry.func.now a.now }
    {
        is_register_place(self.func, self.kept, a)
    }

    /// Whether a place is no register, and its operands are pure and folded.
    pub fn is_other_place(self, a: &Place) -> bool
        requires { AreKept self.func.now self.kept.now }
        ensures { result ≡ is_other_place_of self.entry.target.now self.entry.func.now a.now }
    {
        !is_register_place(self.func, self.kept, a)
            && is_pure_place(self.func, self.kept, a)
            && is_folded_place(a, self.target)
    }
}
