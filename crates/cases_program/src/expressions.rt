//! Places, what is read and assigned there, and calls.

use crate::builder::{Terms, last_few, put};
use crate::words::operation;
use cc_syntax::{Expr, Intr, Place};

fn is_place(head: &str) -> bool {
    matches!(
        head,
        "local" | "static" | "device" | "element" | "member" | "deref"
    )
}

fn variable(head: &str, number: u32) -> Place {
    match head {
        "local" => Place::Local(number),
        "static" => Place::Static(number),
        _ => Place::Device(number),
    }
}

fn element(terms: &mut Terms) -> Option<Place> {
    let index = terms.expr()?;
    Some(Place::Element(terms.place()?, index))
}

fn member(terms: &mut Terms, number: u32) -> Option<Place> {
    Some(Place::Member(terms.place()?, number))
}

fn place(terms: &mut Terms, head: &str, rest: &str) -> Option<Place> {
    match head {
        "element" => element(terms),
        "member" => member(terms, rest.parse().ok()?),
        "deref" => Some(Place::Deref(terms.expr()?)),
        _ => Some(variable(head, rest.parse().ok()?)),
    }
}

fn intrinsic(head: &str) -> Option<Intr> {
    match head {
        "off" => Some(Intr::Off),
        "on" => Some(Intr::On),
        "save" => Some(Intr::Save),
        "restore" => Some(Intr::Restore),
        _ => None,
    }
}

fn intrinsic_call(terms: &mut Terms, i: Intr, rest: &str) -> Option<Expr> {
    if rest == "1" {
        Some(Expr::Intr(i, Some(terms.expr()?)))
    } else {
        Some(Expr::Intr(i, None))
    }
}

fn is_access(head: &str) -> bool {
    matches!(
        head,
        "load" | "addr" | "after" | "assign" | "change" | "call"
    )
}

fn call(terms: &mut Terms, count: usize) -> Option<Expr> {
    let args = last_few(&mut terms.exprs, count)?;
    Some(Expr::Call(terms.expr()?, args))
}

fn assign(terms: &mut Terms) -> Option<Expr> {
    let value = terms.expr()?;
    Some(Expr::Assign(terms.place()?, value))
}

fn change(terms: &mut Terms, rest: &str) -> Option<Expr> {
    let (op, t) = operation(rest)?;
    let value = terms.expr()?;
    Some(Expr::Change(terms.place()?, op, t, value))
}

/// What is done with the last place alone.
fn read_at(terms: &mut Terms, head: &str, rest: &str) -> Option<Expr> {
    let place = terms.place()?;
    match head {
        "load" => Some(Expr::Load(place)),
        "addr" => Some(Expr::AddrOf(place)),
        _ => Some(Expr::After(place, rest == "down")),
    }
}

fn access(terms: &mut Terms, head: &str, rest: &str) -> Option<Expr> {
    match head {
        "assign" => assign(terms),
        "change" => change(terms, rest),
        "call" => call(terms, rest.parse().ok()?),
        _ => read_at(terms, head, rest),
    }
}

/// The expression that a word makes.
fn made(terms: &mut Terms, head: &str, rest: &str) -> Option<Expr> {
    match intrinsic(head) {
        Some(i) => intrinsic_call(terms, i, rest),
        None => access(terms, head, rest),
    }
}

/// Whether a word is one of places, accesses and calls.
pub fn is_word(head: &str) -> bool {
    is_place(head) || is_access(head) || intrinsic(head).is_some()
}

/// Reads a word of places, accesses and calls.
pub fn read(terms: &mut Terms, head: &str, rest: &str) -> Option<()> {
    if is_place(head) {
        let place = place(terms, head, rest);
        return put(&mut terms.places, place);
    }
    let made = made(terms, head, rest);
    put(&mut terms.exprs, made)
}
