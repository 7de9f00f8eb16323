//! Statements.

use crate::expressions::write_expr;
use cases_script::Page;
use cc_program::num::{Boxed, List};
use cc_program::{Case, Expr, Stmt};

fn write_word(page: &mut Page, word: &str, e: &Boxed<Expr>) {
    page.put(word);
    write_expr(page, e.get());
}

fn write_maybe(page: &mut Page, e: &Option<Boxed<Expr>>) {
    page.put(" ");
    match e {
        None => page.put("-"),
        Some(e) => write_expr(page, e.get()),
    }
}

fn write_labels(page: &mut Page, case: &Case) {
    let mut front = " {";
    for label in case.labels.all() {
        page.put(front);
        match label {
            None => page.put("default"),
            Some(n) => page.show(*n),
        }
        front = " ";
    }
    page.put(":");
}

/// Writes the expressions that stand in front of bodies.
fn write_front(page: &mut Page, statement: &Stmt) {
    match statement {
        Stmt::Do(e) => write_word(page, "(do ", e),
        Stmt::If(e, _, _) => write_word(page, "(if ", e),
        Stmt::While(e, _) => write_word(page, "(while ", e),
        Stmt::DoWhile(_, _) => page.put("(until"),
        Stmt::For(first, test, step, _) => {
            page.put("(for");
            write_maybe(page, first);
            write_maybe(page, test);
            write_maybe(page, step);
        }
        Stmt::Switch(e, _) => write_word(page, "(switch ", e),
        Stmt::Break => page.put("break"),
        Stmt::Continue => page.put("continue"),
        Stmt::Return(None) => page.put("return"),
        Stmt::Return(Some(e)) => write_word(page, "(return ", e),
        Stmt::Empty => page.put("empty"),
        Stmt::Block(_) => {}
    }
}

#[cycle(statements)]
fn write_stmt(page: &mut Page, statement: &Stmt) {
    write_front(page, statement);
    match statement {
        Stmt::Do(_) | Stmt::Return(Some(_)) => page.put(")"),
        Stmt::Break | Stmt::Continue | Stmt::Return(None) | Stmt::Empty => {}
        Stmt::Block(body) => write_stmts(page, "[", body),
        Stmt::While(_, body) | Stmt::For(_, _, _, body) => {
            write_stmts(page, " [", body);
            page.put(")");
        }
        Stmt::If(_, these, those) => {
            write_stmts(page, " [", these);
            write_stmts(page, " [", those);
            page.put(")");
        }
        Stmt::DoWhile(body, e) => {
            write_stmts(page, " [", body);
            write_word(page, " ", e);
            page.put(")");
        }
        Stmt::Switch(_, cases) => {
            for case in cases.all() {
                write_case(page, case);
            }
            page.put(")");
        }
    }
}

#[cycle(statements)]
fn write_case(page: &mut Page, case: &Case) {
    write_labels(page, case);
    write_stmts(page, " [", &case.body);
    page.put("}");
}

/// Writes statements behind what opens their list.
#[cycle(statements)]
pub fn write_stmts(page: &mut Page, open: &str, statements: &List<Stmt>) {
    page.put(open);
    let mut is_first = true;
    for statement in statements.all() {
        page.put(if is_first { "" } else { " " });
        write_stmt(page, statement);
        is_first = false;
    }
    page.put("]");
}
