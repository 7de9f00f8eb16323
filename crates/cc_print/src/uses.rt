//! Which intrinsics a program uses, and their prototypes.

ghost use Rattle.std.specs.Prelude.{◌≡◌, OnOk, map};
ghost use Rattle.cc_program.specs.declared.expr.Expr.{out-Expr};
ghost use Rattle.cc_program.specs.declared.stmt.Case.{out-Case};
ghost use Rattle.cc_pieces.specs.View.{pieces_of};
ghost use Rattle.cc_bodies.specs.Stmts.{effect_at};
ghost use Rattle.cc_print.specs.Units.{is_intr, acts as acts_of, effect_acts, any_true, stmt_acts as stmt_acts_of, is_used as is_used_of, intrinsic_result, intrinsic_parameter, intrinsic_line, intrinsic_prototype};
ghost use Rattle.std.specs.List.{list_any};

use cc_bodies::{intrinsic_name, put_ended};
use cc_lex::Mark;
use cc_pieces::{Piece, Symbol, mark, put_all, put_int_name, word};
use cc_program::num::{IntType, NoMemory};
use cc_program::words::Word;
use cc_program::{Case, Expr, Intr, Program, Stmt};

fn is_same(i: Intr, j: Intr) -> bool
    ensures { result ≡ is_intr i j }
{
    match (i, j) {
        (Intr::Off, Intr::Off) => true,
        (Intr::On, Intr::On) => true,
        (Intr::Save, Intr::Save) => true,
        (Intr::Restore, Intr::Restore) => true,
        _ => false,
    }
}

fn acts(i: Intr, e: &Expr) -> bool
    ensures { result ≡ acts_of i (effect_at (out-Expr e.now)) }
{
    match e {
        Expr::Intr(j, _) => is_same(i, *j),
        _ => false,
    }
}

fn acts_in(i: Intr, e: &Expr) -> bool
    ensures { result ≡ effect_acts i (effect_at (out-Expr e.now)) }
{
    match e {
        Expr::Intr(j, _) => is_same(i, *j),
        Expr::Assign(_, e) => acts(i, e.get()),
        _ => false,
    }
}

#[cycle(acting)]
fn stmt_acts(i: Intr, s: &Stmt) -> bool
    ensures { result ≡ stmt_acts_of i s.now }
{
    match s {
        Stmt::Do(e) => acts_in(i, e.get()),
        Stmt::If(_, a, b) => list_acts(i, a.all()) || list_acts(i, b.all()),
        Stmt::While(_, a) => list_acts(i, a.all()),
        Stmt::DoWhile(a, _) => list_acts(i, a.all()),
        Stmt::For(_, _, _, a) => list_acts(i, a.all()),
        Stmt::Switch(_, cases) => cases_act(i, cases.all()),
        Stmt::Block(a) => list_acts(i, a.all()),
        Stmt::Break => false,
        Stmt::Continue => false,
        Stmt::Return(_) => false,
        Stmt::Empty => false,
    }
}

#[cycle(acting)]
fn list_acts(i: Intr, list: &[Stmt]) -> bool
    ensures { result ≡ any_true (map (stmt_acts_of i) list.now) }
{
    for s in list {
        if stmt_acts(i, s) {
            return true;
        }
    }
    false
}

#[cycle(acting)]
fn cases_act(i: Intr, cases: &[Case]) -> bool
    ensures { result ≡ any_true (map (λ c. any_true (map (stmt_acts_of i) (out-Case c).body)) cases.now) }
{
    for case in cases {
        if list_acts(i, case.body.all()) {
            return true;
        }
    }
    false
}

/// Whether a function of the program uses the intrinsic.
fn is_used(i: Intr, p: &Program) -> bool
    ensures { result ≡ is_used_of i p.now }
{
    p.funcs.all().iter().any(|f| list_acts(i, f.body.all()))
}

fn put_intrinsic_result(out: &mut Vec<Symbol>, i: Intr) -> Result<(), NoMemory>
    ensures { OnOk result (pieces_of out.new.items ≡ intrinsic_result i (pieces_of out.old.items)) }
{
    match i {
        Intr::Off => word(out, Word::Void),
        Intr::On => word(out, Word::Void),
        Intr::Save => put_int_name(out, IntType::UChar),
        Intr::Restore => word(out, Word::Void),
    }
}

fn put_intrinsic_parameter(out: &mut Vec<Symbol>, i: Intr) -> Result<(), NoMemory>
    ensures { OnOk result (pieces_of out.new.items ≡ intrinsic_parameter i (pieces_of out.old.items)) }
{
    match i {
        Intr::Off => word(out, Word::Void),
        Intr::On => word(out, Word::Void),
        Intr::Save => word(out, Word::Void),
        Intr::Restore => put_int_name(out, IntType::UChar),
    }
}

fn put_intrinsic_line<'p>(out: &mut Vec<Symbol>, p: &'p Program, i: Intr) -> Result<(), NoMemory>
    ensures { OnOk result (pieces_of out.new.items ≡ intrinsic_line p.now i (pieces_of out.old.items)) }
{
    put_ended(out)?;
    mark(out, Mark::RParen)?;
    put_intrinsic_parameter(out, i)?;
    put_all(
        out,
        &[
            Piece::Space,
            Piece::Name(intrinsic_name(&p.roles, i).all()),
            Piece::Punct(Mark::LParen),
        ],
    )?;
    put_intrinsic_result(out, i)
}

/// Puts the prototype of an intrinsic in front, where the program uses it.
pub fn put_intrinsic_prototype<'p>(
    out: &mut Vec<Symbol>,
    p: &'p Program,
    i: Intr,
) -> Result<(), NoMemory>
    ensures { OnOk result (pieces_of out.new.items ≡ intrinsic_prototype p.now i (pieces_of out.old.items)) }
{
    if is_used(i, p) {
        put_intrinsic_line(out, p, i)
    } else {
        Ok(())
    }
}
