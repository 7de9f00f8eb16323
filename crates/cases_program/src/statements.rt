//! Statements.

use crate::builder::{Bodies, Terms, last_few, put, taken};
use cc_program::num::{Boxed, List};
use cc_syntax::{Case, Expr, Stmt};
use std::alloc::Global;
use std::mem;

fn begin(alloc: Global, bodies: &mut Bodies) -> Option<()> {
    let before = mem::replace(&mut bodies.list, Vec::new(alloc));
    bodies.open.push(before).ok()
}

fn end(alloc: Global, bodies: &mut Bodies) -> Option<()> {
    let before = bodies.open.pop()?;
    let list = taken(alloc, &mut bodies.list);
    bodies.list = before;
    bodies.ended.push(list).ok()
}

fn label(word: &str) -> Option<Option<i128>> {
    if word == "default" {
        Some(None)
    } else {
        Some(Some(word.parse().ok()?))
    }
}

fn labels(alloc: Global, words: &str) -> Option<List<Option<i128>>> {
    let mut labels = Vec::new(alloc);
    for word in words.split(',') {
        if !word.is_empty() {
            labels.push(label(word)?).ok()?;
        }
    }
    Some(List::of(labels))
}

fn case(alloc: Global, ended: &mut Vec<List<Stmt>>, rest: &str) -> Option<Case> {
    let labels = labels(alloc, rest)?;
    let body = ended.pop()?;
    Some(Case { labels, body })
}

fn branch(terms: &mut Terms, ended: &mut Vec<List<Stmt>>) -> Option<Stmt> {
    let test = terms.expr()?;
    let second = ended.pop()?;
    let first = ended.pop()?;
    Some(Stmt::If(test, first, second))
}

/// An expression of a `for`, which is missing where the mark is 0.
fn clause(terms: &mut Terms, mark: Option<&u8>) -> Option<Boxed<Expr>> {
    if mark == Some(&b'0') {
        None
    } else {
        terms.expr()
    }
}

fn counted(terms: &mut Terms, body: List<Stmt>, marks: &[u8]) -> Stmt {
    let step = clause(terms, marks.get(2));
    let test = clause(terms, marks.get(1));
    let first = clause(terms, marks.first());
    Stmt::For(first, test, step, body)
}

fn switch(terms: &mut Terms, cases: &mut Vec<Case>, count: usize) -> Option<Stmt> {
    let operand = terms.expr()?;
    Some(Stmt::Switch(operand, last_few(cases, count)?))
}

fn returned(terms: &mut Terms, rest: &str) -> Option<Stmt> {
    if rest == "1" {
        Some(Stmt::Return(Some(terms.expr()?)))
    } else {
        Some(Stmt::Return(None))
    }
}

fn is_loop(head: &str) -> bool {
    matches!(head, "while" | "dowhile" | "for" | "block")
}

fn looped(terms: &mut Terms, body: List<Stmt>, head: &str, rest: &str) -> Option<Stmt> {
    match head {
        "while" => Some(Stmt::While(terms.expr()?, body)),
        "dowhile" => Some(Stmt::DoWhile(body, terms.expr()?)),
        "block" => Some(Stmt::Block(body)),
        _ => Some(counted(terms, body, rest.as_bytes())),
    }
}

fn is_other(head: &str) -> bool {
    matches!(
        head,
        "do" | "break" | "continue" | "return" | "empty" | "switch" | "if"
    )
}

/// The statement that a word makes.
fn made(terms: &mut Terms, bodies: &mut Bodies, head: &str, rest: &str) -> Option<Stmt> {
    if is_loop(head) {
        return looped(terms, bodies.ended.pop()?, head, rest);
    }
    match head {
        "if" => branch(terms, &mut bodies.ended),
        "switch" => switch(terms, &mut bodies.cases, rest.parse().ok()?),
        "do" => Some(Stmt::Do(terms.expr()?)),
        "return" => returned(terms, rest),
        "break" => Some(Stmt::Break),
        "continue" => Some(Stmt::Continue),
        _ => Some(Stmt::Empty),
    }
}

/// Whether a word is one of statements.
pub fn is_word(head: &str) -> bool {
    is_loop(head) || is_other(head) || matches!(head, "{" | "}" | "case")
}

/// Reads a word of statements.
pub fn read(terms: &mut Terms, bodies: &mut Bodies, head: &str, rest: &str) -> Option<()> {
    match head {
        "{" => begin(terms.alloc, bodies),
        "}" => end(terms.alloc, bodies),
        "case" => {
            let case = case(terms.alloc, &mut bodies.ended, rest);
            put(&mut bodies.cases, case)
        }
        _ => {
            let made = made(terms, bodies, head, rest);
            put(&mut bodies.list, made)
        }
    }
}
