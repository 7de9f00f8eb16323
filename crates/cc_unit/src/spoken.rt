//! Which objects, devices and functions expressions and statements speak of.

ghost use Rattle.std.specs.Prelude.{◌≡◌, ◌++◌, OnOk, map};
ghost use Rattle.cc_unit.specs.Mentioned.{all_of, in_expr, in_place, in_maybe, in_stmt, in_case};

use cc_program::num::{Boxed, NoMemory};
use cc_program::{Case, Expr, Place, Stmt};

#[cycle(expressions)]
#[tactic(auto, using(crate::proofs::Behind::of_spoken), unfolding(crate::specs::Mentioned::in_expr, crate::specs::Mentioned::in_place))]
fn put_expr(e: &Expr, numbers: &mut Vec<u32>) -> Result<(), NoMemory>
    ensures { OnOk result (numbers.new.items ≡ numbers.old.items ++ in_expr e.now) }
{
    match e {
        Expr::Const(_, _) | Expr::Null(_) => Ok(()),
        Expr::FuncAddr(f) => {
            numbers.push(*f)?;
            Ok(())
        }
        Expr::Load(p) => put_place(p.get(), numbers),
        Expr::AddrOf(p) => put_place(p.get(), numbers),
        Expr::After(p, _) => put_place(p.get(), numbers),
        Expr::Un(_, _, a) => put_expr(a.get(), numbers),
        Expr::Conv(_, a) => put_expr(a.get(), numbers),
        Expr::Qualify(_, a) => put_expr(a.get(), numbers),
        Expr::Bin(_, _, a, b) => put_two(a, b, numbers),
        Expr::Move(a, b, _) => put_two(a, b, numbers),
        Expr::Gap(a, b) => put_two(a, b, numbers),
        Expr::Compare(_, a, b) => put_two(a, b, numbers),
        Expr::Both(a, b) => put_two(a, b, numbers),
        Expr::Either(a, b) => put_two(a, b, numbers),
        Expr::Seq(a, b) => put_two(a, b, numbers),
        Expr::Choose(c, a, b) => {
            put_expr(c.get(), numbers)?;
            put_two(a, b, numbers)
        }
        Expr::Assign(p, a) => {
            put_place(p.get(), numbers)?;
            put_expr(a.get(), numbers)
        }
        Expr::Change(p, _, _, a) => {
            put_place(p.get(), numbers)?;
            put_expr(a.get(), numbers)
        }
        Expr::Call(f, args) => {
            put_expr(f.get(), numbers)?;
            put_args(args.all(), numbers)
        }
        Expr::Intr(_, None) => Ok(()),
        Expr::Intr(_, Some(a)) => put_expr(a.get(), numbers),
    }
}

#[cycle(expressions)]
#[tactic(auto, using(crate::proofs::Behind::of_spoken), unfolding(crate::specs::Mentioned::in_expr, crate::specs::Mentioned::in_place))]
fn put_two(a: &Boxed<Expr>, b: &Boxed<Expr>, numbers: &mut Vec<u32>) -> Result<(), NoMemory>
    ensures { OnOk result (numbers.new.items ≡ numbers.old.items ++ (in_expr a.now ++ in_expr b.now)) }
{
    put_expr(a.get(), numbers)?;
    put_expr(b.get(), numbers)
}

#[cycle(expressions)]
#[tactic(auto, using(crate::proofs::Behind::of_spoken), unfolding(crate::specs::Mentioned::in_expr, crate::specs::Mentioned::in_place))]
fn put_args(args: &[Expr], numbers: &mut Vec<u32>) -> Result<(), NoMemory>
    ensures { OnOk result (numbers.new.items ≡ numbers.old.items ++ all_of (map (λ e. in_expr e) args.now)) }
{
    for arg in args {
        put_expr(arg, numbers)?;
    }
    Ok(())
}

#[cycle(expressions)]
#[tactic(auto, using(crate::proofs::Behind::of_spoken), unfolding(crate::specs::Mentioned::in_expr, crate::specs::Mentioned::in_place))]
fn put_place(p: &Place, numbers: &mut Vec<u32>) -> Result<(), NoMemory>
    ensures { OnOk result (numbers.new.items ≡ numbers.old.items ++ in_place p.now) }
{
    match p {
        Place::Local(_) => Ok(()),
        Place::Static(object) => {
            numbers.push(*object)?;
            Ok(())
        }
        Place::Device(device) => {
            numbers.push(*device)?;
            Ok(())
        }
        Place::Element(p, e) => {
            put_place(p.get(), numbers)?;
            put_expr(e.get(), numbers)
        }
        Place::Member(p, _) => put_place(p.get(), numbers),
        Place::Deref(e) => put_expr(e.get(), numbers),
    }
}

fn put_maybe(e: &Option<Boxed<Expr>>, numbers: &mut Vec<u32>) -> Result<(), NoMemory>
    ensures { OnOk result (numbers.new.items ≡ numbers.old.items ++ in_maybe e.now) }
{
    match e {
        None => Ok(()),
        Some(e) => put_expr(e.get(), numbers),
    }
}

/// Adds what the clauses of a `for` speak of.
fn put_clauses(
    first: &Option<Boxed<Expr>>,
    test: &Option<Boxed<Expr>>,
    again: &Option<Boxed<Expr>>,
    numbers: &mut Vec<u32>,
) -> Result<(), NoMemory>
    ensures { OnOk result (numbers.new.items ≡ numbers.old.items ++ (in_maybe first.now ++ (in_maybe test.now ++ in_maybe again.now))) }
{
    put_maybe(first, numbers)?;
    put_maybe(test, numbers)?;
    put_maybe(again, numbers)
}

#[cycle(statements)]
#[tactic(auto, using(crate::proofs::Layers::of_statements))]
fn put_stmt(s: &Stmt, numbers: &mut Vec<u32>) -> Result<(), NoMemory>
    ensures { OnOk result (numbers.new.items ≡ numbers.old.items ++ in_stmt s.now) }
{
    match s {
        Stmt::Do(e) => put_expr(e.get(), numbers),
        Stmt::If(e, a, b) => {
            put_expr(e.get(), numbers)?;
            put_stmts(a.all(), numbers)?;
            put_stmts(b.all(), numbers)
        }
        Stmt::While(e, a) => {
            put_expr(e.get(), numbers)?;
            put_stmts(a.all(), numbers)
        }
        Stmt::DoWhile(a, e) => {
            put_stmts(a.all(), numbers)?;
            put_expr(e.get(), numbers)
        }
        Stmt::For(first, test, again, a) => {
            put_clauses(first, test, again, numbers)?;
            put_stmts(a.all(), numbers)
        }
        Stmt::Switch(e, cases) => {
            put_expr(e.get(), numbers)?;
            put_cases(cases.all(), numbers)
        }
        Stmt::Break | Stmt::Continue | Stmt::Empty => Ok(()),
        Stmt::Return(e) => put_maybe(e, numbers),
        Stmt::Block(a) => put_stmts(a.all(), numbers),
    }
}

/// Adds what statements speak of.
#[cycle(statements)]
#[tactic(auto, using(crate::proofs::Layers::of_statements))]
pub fn put_stmts(list: &[Stmt], numbers: &mut Vec<u32>) -> Result<(), NoMemory>
    ensures { OnOk result (numbers.new.items ≡ numbers.old.items ++ all_of (map (λ s. in_stmt s) list.now)) }
{
    for s in list {
        put_stmt(s, numbers)?;
    }
    Ok(())
}

#[cycle(statements)]
#[tactic(auto, using(crate::proofs::Layers::of_statements))]
fn put_cases(cases: &[Case], numbers: &mut Vec<u32>) -> Result<(), NoMemory>
    ensures { OnOk result (numbers.new.items ≡ numbers.old.items ++ all_of (map (λ c. in_case c) cases.now)) }
{
    for case in cases {
        put_case(case, numbers)?;
    }
    Ok(())
}

#[cycle(statements)]
#[tactic(auto, using(crate::proofs::Layers::of_statements))]
fn put_case(case: &Case, numbers: &mut Vec<u32>) -> Result<(), NoMemory>
    ensures { OnOk result (numbers.new.items ≡ numbers.old.items ++ in_case case.now) }
{
    put_stmts(case.body.all(), numbers)
}
