//! Constants and operators.

use crate::builder::{Terms, put};
use crate::types::boxed_type;
use crate::words::{bin_op, int_type};
use cc_program::num::{BinOp, UnOp};
use cc_syntax::Expr;

fn unary(head: &str) -> Option<UnOp> {
    match head {
        "neg" => Some(UnOp::Neg),
        "not" => Some(UnOp::Not),
        "lnot" => Some(UnOp::Lnot),
        _ => None,
    }
}

fn is_pair(head: &str) -> bool {
    matches!(head, "move" | "back" | "gap" | "both" | "either" | "seq")
}

/// An operator of two operands.
fn pair(terms: &mut Terms, head: &str) -> Option<Expr> {
    let second = terms.expr()?;
    let first = terms.expr()?;
    match head {
        "move" => Some(Expr::Move(first, second, false)),
        "back" => Some(Expr::Move(first, second, true)),
        "gap" => Some(Expr::Gap(first, second)),
        "both" => Some(Expr::Both(first, second)),
        "either" => Some(Expr::Either(first, second)),
        _ => Some(Expr::Seq(first, second)),
    }
}

fn comparison(terms: &mut Terms, op: BinOp) -> Option<Expr> {
    let second = terms.expr()?;
    Some(Expr::Compare(op, terms.expr()?, second))
}

fn binary(terms: &mut Terms, op: BinOp, rest: &str) -> Option<Expr> {
    let t = int_type(rest)?;
    let second = terms.expr()?;
    Some(Expr::Bin(op, t, terms.expr()?, second))
}

fn prefix(terms: &mut Terms, op: UnOp, rest: &str) -> Option<Expr> {
    let t = int_type(rest)?;
    Some(Expr::Un(op, t, terms.expr()?))
}

fn choice(terms: &mut Terms) -> Option<Expr> {
    let second = terms.expr()?;
    let first = terms.expr()?;
    Some(Expr::Choose(terms.expr()?, first, second))
}

fn conversion(terms: &mut Terms, rest: &str) -> Option<Expr> {
    let t = int_type(rest)?;
    Some(Expr::Conv(t, terms.expr()?))
}

fn qualified(terms: &mut Terms) -> Option<Expr> {
    let t = boxed_type(terms)?;
    Some(Expr::Qualify(t, terms.expr()?))
}

fn is_other(head: &str) -> bool {
    matches!(
        head,
        "null" | "func" | "conv" | "qualify" | "choose" | "cmp"
    )
}

fn other(terms: &mut Terms, head: &str, rest: &str) -> Option<Expr> {
    match head {
        "null" => Some(Expr::Null(boxed_type(terms)?)),
        "func" => Some(Expr::FuncAddr(rest.parse().ok()?)),
        "conv" => conversion(terms, rest),
        "qualify" => qualified(terms),
        "cmp" => comparison(terms, bin_op(rest)?),
        _ => choice(terms),
    }
}

fn constant(head: &str, rest: &str) -> Option<Expr> {
    let n = head.parse().ok()?;
    Some(Expr::Const(n, int_type(rest)?))
}

/// The expression that an operator of integers makes, or a constant.
fn integer(terms: &mut Terms, head: &str, rest: &str) -> Option<Expr> {
    match (unary(head), bin_op(head)) {
        (Some(op), _) => prefix(terms, op, rest),
        (None, Some(op)) => binary(terms, op, rest),
        (None, None) => constant(head, rest),
    }
}

/// The expression that a word makes.
fn made(terms: &mut Terms, head: &str, rest: &str) -> Option<Expr> {
    if is_pair(head) {
        pair(terms, head)
    } else if is_other(head) {
        other(terms, head, rest)
    } else {
        integer(terms, head, rest)
    }
}

fn is_constant(head: &str) -> bool {
    head.parse::<i128>().is_ok()
}

/// Whether a word is a constant or an operator.
pub fn is_word(head: &str) -> bool {
    is_pair(head)
        || is_other(head)
        || unary(head).is_some()
        || bin_op(head).is_some()
        || is_constant(head)
}

/// Reads a constant or an operator.
pub fn read(terms: &mut Terms, head: &str, rest: &str) -> Option<()> {
    let made = made(terms, head, rest);
    put(&mut terms.exprs, made)
}
