//! Places and expressions.

use crate::types::{int_word, put_number, write_type};
use cases_script::Page;
use cc_program::num::{BinOp, UnOp};
use cc_program::{Expr, Intr, Place};

fn unary_word(op: UnOp) -> &'static str {
    match op {
        UnOp::Neg => "-",
        UnOp::Not => "~",
        UnOp::Lnot => "!",
    }
}

fn binary_word(op: BinOp) -> &'static str {
    match op {
        BinOp::Add => "+",
        BinOp::Sub => "-",
        BinOp::Mul => "*",
        BinOp::Div => "/",
        BinOp::Rem => "%",
        BinOp::And => "&",
        BinOp::Or => "|",
        BinOp::Xor => "^",
        BinOp::Shl => "<<",
        BinOp::Shr => ">>",
        BinOp::Lt => "<",
        BinOp::Le => "<=",
        BinOp::Gt => ">",
        BinOp::Ge => ">=",
        BinOp::Eq => "==",
        BinOp::Ne => "!=",
    }
}

fn intrinsic_word(i: Intr) -> &'static str {
    match i {
        Intr::Off => "irq_off",
        Intr::On => "irq_on",
        Intr::Save => "irq_save",
        Intr::Restore => "irq_restore",
    }
}

/// Writes what stands in front of the operands.
fn write_head(page: &mut Page, e: &Expr) {
    match e {
        Expr::Const(n, t) => {
            page.show(*n);
            page.put(":");
            page.put(int_word(*t));
        }
        Expr::Null(t) => {
            page.put("(null ");
            write_type(page, t.get());
        }
        Expr::FuncAddr(f) => put_number(page, "(fun g", *f),
        Expr::Load(_) => {}
        Expr::AddrOf(_) => page.put("(& "),
        Expr::Un(op, t, _) => write_operator(page, unary_word(*op), "", int_word(*t)),
        Expr::Bin(op, t, _, _) => write_operator(page, binary_word(*op), "", int_word(*t)),
        Expr::Change(_, op, t, _) => write_operator(page, binary_word(*op), "=", int_word(*t)),
        Expr::Conv(t, _) => write_operator(page, "to", "", int_word(*t)),
        Expr::Qualify(t, _) => {
            page.put("(qualify ");
            write_type(page, t.get());
            page.put(" ");
        }
        Expr::Move(_, _, back) => page.put(if *back { "(move- " } else { "(move " }),
        Expr::Gap(_, _) => page.put("(gap "),
        Expr::Compare(op, _, _) => write_operator(page, "cmp", "", binary_word(*op)),
        Expr::Both(_, _) => page.put("(&& "),
        Expr::Either(_, _) => page.put("(|| "),
        Expr::Choose(_, _, _) => page.put("(? "),
        Expr::Assign(_, _) => page.put("(= "),
        Expr::After(_, _) => page.put("("),
        Expr::Call(_, _) => page.put("(call "),
        Expr::Intr(i, _) => {
            page.put("(");
            page.put(intrinsic_word(*i));
        }
        Expr::Seq(_, _) => page.put("(, "),
    }
}

fn write_operator(page: &mut Page, word: &str, end: &str, t: &str) {
    page.put("(");
    page.put(word);
    page.put(end);
    page.put(" ");
    page.put(t);
    page.put(" ");
}

/// Writes the operands, with a blank between two.
#[cycle(expressions)]
fn write_operands(page: &mut Page, e: &Expr) {
    match e {
        Expr::Const(_, _) | Expr::Null(_) | Expr::FuncAddr(_) => {}
        Expr::Load(a) | Expr::AddrOf(a) | Expr::After(a, _) => write_place(page, a.get()),
        Expr::Un(_, _, a) | Expr::Conv(_, a) | Expr::Qualify(_, a) => write_expr(page, a.get()),
        Expr::Bin(_, _, a, b)
        | Expr::Move(a, b, _)
        | Expr::Gap(a, b)
        | Expr::Compare(_, a, b)
        | Expr::Both(a, b)
        | Expr::Either(a, b)
        | Expr::Seq(a, b) => {
            write_expr(page, a.get());
            page.put(" ");
            write_expr(page, b.get());
        }
        Expr::Choose(c, a, b) => {
            write_expr(page, c.get());
            page.put(" ");
            write_expr(page, a.get());
            page.put(" ");
            write_expr(page, b.get());
        }
        Expr::Assign(a, b) | Expr::Change(a, _, _, b) => {
            write_place(page, a.get());
            page.put(" ");
            write_expr(page, b.get());
        }
        Expr::Call(f, args) => {
            write_expr(page, f.get());
            for arg in args.all() {
                page.put(" ");
                write_expr(page, arg);
            }
        }
        Expr::Intr(_, None) => {}
        Expr::Intr(_, Some(a)) => {
            page.put(" ");
            write_expr(page, a.get());
        }
    }
}

/// Writes what stands behind the operands.
fn write_end(page: &mut Page, e: &Expr) {
    match e {
        Expr::Const(_, _) | Expr::Load(_) => {}
        Expr::After(_, down) => page.put(if *down { " --)" } else { " ++)" }),
        _ => page.put(")"),
    }
}

/// Writes an expression.
#[cycle(expressions)]
pub fn write_expr(page: &mut Page, e: &Expr) {
    write_head(page, e);
    write_operands(page, e);
    write_end(page, e);
}

#[cycle(expressions)]
fn write_place(page: &mut Page, a: &Place) {
    match a {
        Place::Local(local) => put_number(page, "l", *local),
        Place::Static(object) => put_number(page, "g", *object),
        Place::Device(device) => put_number(page, "d", *device),
        Place::Element(a, i) => {
            page.put("(elem ");
            write_place(page, a.get());
            page.put(" ");
            write_expr(page, i.get());
            page.put(")");
        }
        Place::Member(a, member) => {
            page.put("(. ");
            write_place(page, a.get());
            put_number(page, " ", *member);
            page.put(")");
        }
        Place::Deref(e) => {
            page.put("(deref ");
            write_expr(page, e.get());
            page.put(")");
        }
    }
}
