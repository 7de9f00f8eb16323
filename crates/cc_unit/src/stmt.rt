//! Statements with the ids of the program.

ghost use Rattle.std.specs.Prelude.{◌≡◌, IfOk, map, option_map};
ghost use Rattle.cc_unit.specs.Renumbered.{expr_renumbered, stmt_renumbered, case_renumbered};

use crate::expr::renumber_boxed;
use crate::ids::Ids;
use cc_program::num::{Boxed, List, NoMemory};
use cc_program::{Case, Expr, Stmt, copy_list};
use std::alloc::Global;

#[cycle(renumber)]
#[tactic(auto, unfolding(crate::specs::Renumbered::stmt_renumbered, crate::specs::Renumbered::case_renumbered))]
fn renumber_stmt(alloc: Global, ids: &Ids, s: &Stmt) -> Result<Stmt, NoMemory>
    ensures { IfOk result (λ r. r ≡ stmt_renumbered ids.now s.now) }
{
    match s {
        Stmt::Do(e) => Ok(Stmt::Do(renumber_boxed(alloc, ids, e.get())?)),
        Stmt::If(e, these, those) => {
            let these = renumber_stmts(alloc, ids, these)?;
            let those = renumber_stmts(alloc, ids, those)?;
            Ok(Stmt::If(renumber_boxed(alloc, ids, e.get())?, these, those))
        }
        Stmt::While(e, body) => {
            let body = renumber_stmts(alloc, ids, body)?;
            Ok(Stmt::While(renumber_boxed(alloc, ids, e.get())?, body))
        }
        Stmt::DoWhile(body, e) => {
            let body = renumber_stmts(alloc, ids, body)?;
            Ok(Stmt::DoWhile(body, renumber_boxed(alloc, ids, e.get())?))
        }
        Stmt::For(first, test, again, body) => {
            let body = renumber_stmts(alloc, ids, body)?;
            let first = renumber_optional(alloc, ids, first)?;
            let test = renumber_optional(alloc, ids, test)?;
            let again = renumber_optional(alloc, ids, again)?;
            Ok(Stmt::For(first, test, again, body))
        }
        Stmt::Switch(e, cases) => {
            let cases = renumber_cases(alloc, ids, cases)?;
            Ok(Stmt::Switch(renumber_boxed(alloc, ids, e.get())?, cases))
        }
        Stmt::Break => Ok(Stmt::Break),
        Stmt::Continue => Ok(Stmt::Continue),
        Stmt::Return(e) => Ok(Stmt::Return(renumber_optional(alloc, ids, e)?)),
        Stmt::Empty => Ok(Stmt::Empty),
        Stmt::Block(body) => Ok(Stmt::Block(renumber_stmts(alloc, ids, body)?)),
    }
}

/// The statements, with the ids of the program.
#[cycle(renumber)]
#[tactic(auto, unfolding(crate::specs::Renumbered::stmt_renumbered, crate::specs::Renumbered::case_renumbered))]
pub fn renumber_stmts(alloc: Global, ids: &Ids, list: &List<Stmt>) -> Result<List<Stmt>, NoMemory>
    ensures { IfOk result (λ r. r ≡ map (λ s. stmt_renumbered ids.now s) list.now) }
{
    let mut renumbered = Vec::new(alloc);
    for s in list.all() {
        renumbered.push(renumber_stmt(alloc, ids, s)?)?;
    }
    Ok(List::of(renumbered))
}

#[cycle(renumber)]
#[tactic(auto, unfolding(crate::specs::Renumbered::stmt_renumbered, crate::specs::Renumbered::case_renumbered))]
fn renumber_cases(alloc: Global, ids: &Ids, cases: &List<Case>) -> Result<List<Case>, NoMemory>
    ensures { IfOk result (λ r. r ≡ map (λ c. case_renumbered ids.now c) cases.now) }
{
    let mut renumbered = Vec::new(alloc);
    for case in cases.all() {
        renumbered.push(renumber_case(alloc, ids, case)?)?;
    }
    Ok(List::of(renumbered))
}

#[cycle(renumber)]
#[tactic(auto, unfolding(crate::specs::Renumbered::stmt_renumbered, crate::specs::Renumbered::case_renumbered))]
fn renumber_case(alloc: Global, ids: &Ids, case: &Case) -> Result<Case, NoMemory>
    ensures { IfOk result (λ r. r ≡ case_renumbered ids.now case.now) }
{
    let labels = copy_list(alloc, &case.labels)?;
    Ok(Case {
        labels,
        body: renumber_stmts(alloc, ids, &case.body)?,
    })
}

fn renumber_optional(
    alloc: Global,
    ids: &Ids,
    e: &Option<Boxed<Expr>>,
) -> Result<Option<Boxed<Expr>>, NoMemory>
    ensures { IfOk result (λ r. r ≡ option_map (λ e. expr_renumbered ids.now e) e.now) }
{
    match e {
        None => Ok(None),
        Some(e) => Ok(Some(renumber_boxed(alloc, ids, e.get())?)),
    }
}
