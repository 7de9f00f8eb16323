//! Registers: scalar locals that are not volatile and whose address is not taken.

ghost use Rattle.std.specs.Prelude.{◌≡◌, ◌||◌, map, slice_get};
ghost use Rattle.std.specs.List.{list_any};
ghost use Rattle.std.specs.Option.{option_copied, option_map};
ghost use Rattle.cc_program.specs.declared.stmt.Case.{out-Case};
ghost use Rattle.cc_syntax.specs.Registers.{is_address_taken as is_address_taken_of, place_use, is_taken_in_optional as is_taken_in_optional_of, is_taken_in as is_taken_in_of, is_addressed as is_addressed_of, may_be_register as may_be_register_of, is_register as is_register_of};

use crate::values::scalar_value;
use cc_program::num::{Boxed, List, Name, at};
use cc_syntax::{CType, Case, Expr, Func, Place, Stmt};

#[tactic(auto, unfolding(cc_syntax::specs::Registers::place_use))]
fn is_local(local: u32, place: &Place) -> bool
    ensures { result ≡ (place_use local place.now).is_local }
{
    match place {
        Place::Local(r) => *r == local,
        _ => false,
    }
}

/// Whether the address of a local is taken in an expression.
#[cycle(takes)]
#[tactic(auto, unfolding(cc_syntax::specs::Registers::is_address_taken, cc_syntax::specs::Registers::place_use))]
fn is_address_taken(local: u32, e: &Expr) -> bool
    ensures { result ≡ is_address_taken_of local e.now }
{
    match e {
        Expr::Const(_, _) | Expr::Null(_) | Expr::FuncAddr(_) => false,
        Expr::Load(a) | Expr::After(a, _) => is_address_taken_in(local, a.get()),
        Expr::AddrOf(a) => is_local(local, a.get()) || is_address_taken_in(local, a.get()),
        Expr::Un(_, _, a) | Expr::Conv(_, a) | Expr::Qualify(_, a) => is_address_taken(
            local,
            a.get(),
        ),
        Expr::Bin(_, _, a, b)
        | Expr::Move(a, b, _)
        | Expr::Gap(a, b)
        | Expr::Compare(_, a, b)
        | Expr::Both(a, b)
        | Expr::Either(a, b)
        | Expr::Seq(a, b) => is_address_taken(local, a.get()) || is_address_taken(local, b.get()),
        Expr::Choose(c, a, b) => {
            is_address_taken(local, c.get())
                || is_address_taken(local, a.get())
                || is_address_taken(local, b.get())
        }
        Expr::Assign(a, b) | Expr::Change(a, _, _, b) => {
            is_address_taken_in(local, a.get()) || is_address_taken(local, b.get())
        }
        Expr::Call(f, args) => is_address_taken(local, f.get()) || any_address_taken(local, args),
        Expr::Intr(_, None) => false,
        Expr::Intr(_, Some(a)) => is_address_taken(local, a.get()),
    }
}

#[cycle(takes)]
#[tactic(auto, using(crate::proofs::ListLemmas::of_any))]
fn any_address_taken(local: u32, args: &List<Expr>) -> bool
    ensures { result ≡ list_any (λ b. b) (map (is_address_taken_of local) args.now) }
{
    for arg in args.all() {
        if is_address_taken(local, arg) {
            return true;
        }
    }
    false
}

#[cycle(takes)]
#[tactic(auto, unfolding(cc_syntax::specs::Registers::is_address_taken, cc_syntax::specs::Registers::place_use))]
fn is_address_taken_in(local: u32, a: &Place) -> bool
    ensures { result ≡ (place_use local a.now).address_taken }
{
    match a {
        Place::Local(_) | Place::Static(_) | Place::Device(_) => false,
        Place::Element(a, i) => {
            is_address_taken_in(local, a.get()) || is_address_taken(local, i.get())
        }
        Place::Member(a, _) => is_address_taken_in(local, a.get()),
        Place::Deref(e) => is_address_taken(local, e.get()),
    }
}

fn is_taken_in_optional(local: u32, e: &Option<Boxed<Expr>>) -> bool
    ensures { result ≡ is_taken_in_optional_of local e.now }
{
    match e {
        None => false,
        Some(e) => is_address_taken(local, e.get()),
    }
}

/// Whether the address of a local is taken in a statement.
#[cycle(taken)]
fn is_taken_in(local: u32, s: &Stmt) -> bool
    ensures { result ≡ is_taken_in_of local s.now }
{
    match s {
        Stmt::Do(e) => is_address_taken(local, e.get()),
        Stmt::If(e, a, b) => {
            is_address_taken(local, e.get()) || any_taken(local, a) || any_taken(local, b)
        }
        Stmt::While(e, a) => is_address_taken(local, e.get()) || any_taken(local, a),
        Stmt::DoWhile(a, e) => any_taken(local, a) || is_address_taken(local, e.get()),
        Stmt::For(first, test, step, a) => {
            is_taken_in_optional(local, first)
                || is_taken_in_optional(local, test)
                || is_taken_in_optional(local, step)
                || any_taken(local, a)
        }
        Stmt::Switch(e, cases) => is_address_taken(local, e.get()) || any_case_taken(local, cases),
        Stmt::Return(e) => is_taken_in_optional(local, e),
        Stmt::Block(a) => any_taken(local, a),
        Stmt::Break | Stmt::Continue | Stmt::Empty => false,
    }
}

#[cycle(taken)]
#[tactic(auto, using(crate::proofs::ListLemmas::of_any))]
fn any_taken(local: u32, list: &List<Stmt>) -> bool
    ensures { result ≡ list_any (λ b. b) (map (is_taken_in_of local) list.now) }
{
    for s in list.all() {
        if is_taken_in(local, s) {
            return true;
        }
    }
    false
}

#[cycle(taken)]
fn any_case_taken(local: u32, cases: &List<Case>) -> bool
    ensures { result ≡ list_any (λ c. list_any (λ b. b) (map (is_taken_in_of local) (out-Case c).body)) cases.now }
{
    for case in cases.all() {
        if any_taken(local, &case.body) {
            return true;
        }
    }
    false
}

fn may_be_register(local: Option<&(Name, CType)>) -> bool
    ensures { result ≡ may_be_register_of (option_copied local.entry) }
{
    match local {
        None => false,
        Some((_, t)) => scalar_value(t).is_some() && !t.volatile,
    }
}

fn is_addressed(f: &Func, local: u32) -> bool
    ensures { result ≡ is_addressed_of f.now local }
{
    any_taken(local, &f.body)
}

/// Whether a local of the function is a register.
#[tactic(auto, unfolding(cc_syntax::specs::Registers::is_register))]
pub fn is_register(f: &Func, local: u32) -> bool
    ensures { result ≡ is_register_of f.now local }
{
    may_be_register(at(f.locals.all(), local as usize)) && !is_addressed(f, local)
}
