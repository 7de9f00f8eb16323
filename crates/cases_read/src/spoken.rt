//! What bodies speak of: each object, device and function, in the order of the tree.

use crate::written::{write_device, write_function_name, write_object_name};
use cases_script::Page;
use cc_program::num::{Boxed, List};
use cc_program::{Case, Expr, Place, Program, Stmt};

#[cycle(expressions)]
fn write_place(page: &mut Page, p: &Program, place: &Place) {
    match place {
        Place::Local(_) => {}
        Place::Static(object) => {
            page.put(" ");
            write_object_name(page, p, *object);
        }
        Place::Device(device) => {
            page.put(" ");
            write_device(page, p, *device);
        }
        Place::Element(place, index) => {
            write_place(page, p, place.get());
            write_expr(page, p, index.get());
        }
        Place::Member(place, _) => write_place(page, p, place.get()),
        Place::Deref(e) => write_expr(page, p, e.get()),
    }
}

#[cycle(expressions)]
fn write_expr(page: &mut Page, p: &Program, e: &Expr) {
    match e {
        Expr::Const(_, _) | Expr::Null(_) | Expr::Intr(_, None) => {}
        Expr::FuncAddr(function) => {
            page.put(" ");
            write_function_name(page, p, *function);
        }
        Expr::Load(place) | Expr::AddrOf(place) | Expr::After(place, _) => {
            write_place(page, p, place.get());
        }
        Expr::Un(_, _, a) | Expr::Conv(_, a) | Expr::Qualify(_, a) | Expr::Intr(_, Some(a)) =>
            write_expr(page, p, a.get()),
        Expr::Bin(_, _, a, b)
        | Expr::Move(a, b, _)
        | Expr::Gap(a, b)
        | Expr::Compare(_, a, b)
        | Expr::Both(a, b)
        | Expr::Either(a, b)
        | Expr::Seq(a, b) => {
            write_expr(page, p, a.get());
            write_expr(page, p, b.get());
        }
        Expr::Choose(test, a, b) => {
            write_expr(page, p, test.get());
            write_expr(page, p, a.get());
            write_expr(page, p, b.get());
        }
        Expr::Assign(place, value) | Expr::Change(place, _, _, value) => {
            write_place(page, p, place.get());
            write_expr(page, p, value.get());
        }
        Expr::Call(function, args) => {
            write_expr(page, p, function.get());
            for arg in args.all() {
                write_expr(page, p, arg);
            }
        }
    }
}

fn write_maybe(page: &mut Page, p: &Program, e: &Option<Boxed<Expr>>) {
    if let Some(e) = e {
        write_expr(page, p, e.get());
    }
}

#[cycle(statements)]
fn write_stmt(page: &mut Page, p: &Program, statement: &Stmt) {
    match statement {
        Stmt::Break | Stmt::Continue | Stmt::Empty => {}
        Stmt::Do(e) => write_expr(page, p, e.get()),
        Stmt::Return(e) => write_maybe(page, p, e),
        Stmt::Block(body) => write_stmts(page, p, body),
        Stmt::If(test, these, those) => {
            write_expr(page, p, test.get());
            write_stmts(page, p, these);
            write_stmts(page, p, those);
        }
        Stmt::While(test, body) => {
            write_expr(page, p, test.get());
            write_stmts(page, p, body);
        }
        Stmt::DoWhile(body, test) => {
            write_stmts(page, p, body);
            write_expr(page, p, test.get());
        }
        Stmt::For(first, test, step, body) => {
            write_maybe(page, p, first);
            write_maybe(page, p, test);
            write_maybe(page, p, step);
            write_stmts(page, p, body);
        }
        Stmt::Switch(operand, cases) => {
            write_expr(page, p, operand.get());
            for case in cases.all() {
                write_case(page, p, case);
            }
        }
    }
}

#[cycle(statements)]
fn write_case(page: &mut Page, p: &Program, case: &Case) {
    write_stmts(page, p, &case.body);
}

/// Writes what statements speak of, with a blank in front of each.
#[cycle(statements)]
pub fn write_stmts(page: &mut Page, p: &Program, statements: &List<Stmt>) {
    for statement in statements.all() {
        write_stmt(page, p, statement);
    }
}
