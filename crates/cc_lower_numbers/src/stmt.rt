//! Statements with other numbers of locals and devices.

ghost use Rattle.std.specs.Prelude.{◌≡◌, IfOk, map, option_map};
ghost use Rattle.cc_lower_numbers.specs.Renamed.{number_at, expr_renamed, stmt_renamed, case_renamed};

use crate::expr::rename_boxed;
use cc_program::num::{Boxed, List, NoMemory};
use cc_program::{Case, Expr, Stmt};
use std::alloc::Global;

#[cycle(rename)]
#[tactic(auto, unfolding(crate::specs::Renamed::stmt_renamed, crate::specs::Renamed::case_renamed))]
fn rename_stmt(alloc: Global, locals: &[u32], devices: &[u32], s: Stmt) -> Result<Stmt, NoMemory>
    ensures { IfOk result (λ r. r ≡ stmt_renamed (number_at locals.now) (number_at devices.now) s) }
{
    match s {
        Stmt::Do(e) => Ok(Stmt::Do(rename_boxed(alloc, locals, devices, e)?)),
        Stmt::If(e, these, those) => {
            let these = rename_stmts(alloc, locals, devices, these)?;
            let those = rename_stmts(alloc, locals, devices, those)?;
            Ok(Stmt::If(rename_boxed(alloc, locals, devices, e)?, these, those))
        }
        Stmt::While(e, body) => {
            let body = rename_stmts(alloc, locals, devices, body)?;
            Ok(Stmt::While(rename_boxed(alloc, locals, devices, e)?, body))
        }
        Stmt::DoWhile(body, e) => {
            let body = rename_stmts(alloc, locals, devices, body)?;
            Ok(Stmt::DoWhile(body, rename_boxed(alloc, locals, devices, e)?))
        }
        Stmt::For(first, test, again, body) => {
            let body = rename_stmts(alloc, locals, devices, body)?;
            let first = rename_optional(alloc, locals, devices, first)?;
            let test = rename_optional(alloc, locals, devices, test)?;
            let again = rename_optional(alloc, locals, devices, again)?;
            Ok(Stmt::For(first, test, again, body))
        }
        Stmt::Switch(e, cases) => {
            let cases = rename_cases(alloc, locals, devices, cases)?;
            Ok(Stmt::Switch(rename_boxed(alloc, locals, devices, e)?, cases))
        }
        Stmt::Break => Ok(Stmt::Break),
        Stmt::Continue => Ok(Stmt::Continue),
        Stmt::Return(e) => Ok(Stmt::Return(rename_optional(alloc, locals, devices, e)?)),
        Stmt::Empty => Ok(Stmt::Empty),
        Stmt::Block(body) => Ok(Stmt::Block(rename_stmts(alloc, locals, devices, body)?)),
    }
}

/// The statements, with these numbers.
#[cycle(rename)]
#[tactic(auto, unfolding(crate::specs::Renamed::stmt_renamed, crate::specs::Renamed::case_renamed))]
pub fn rename_stmts(
    alloc: Global,
    locals: &[u32],
    devices: &[u32],
    list: List<Stmt>,
) -> Result<List<Stmt>, NoMemory>
    ensures { IfOk result (λ r. r ≡ map (λ s. stmt_renamed (number_at locals.now) (number_at devices.now) s) list) }
{
    let mut renamed = Vec::new(alloc);
    for s in list.into_vec() {
        renamed.push(rename_stmt(alloc, locals, devices, s)?)?;
    }
    Ok(List::of(renamed))
}

#[cycle(rename)]
#[tactic(auto, unfolding(crate::specs::Renamed::stmt_renamed, crate::specs::Renamed::case_renamed))]
fn rename_cases(
    alloc: Global,
    locals: &[u32],
    devices: &[u32],
    cases: List<Case>,
) -> Result<List<Case>, NoMemory>
    ensures { IfOk result (λ r. r ≡ map (λ c. case_renamed (number_at locals.now) (number_at devices.now) c) cases) }
{
    let mut renamed = Vec::new(alloc);
    for case in cases.into_vec() {
        renamed.push(rename_case(alloc, locals, devices, case)?)?;
    }
    Ok(List::of(renamed))
}

#[cycle(rename)]
#[tactic(auto, unfolding(crate::specs::Renamed::stmt_renamed, crate::specs::Renamed::case_renamed))]
fn rename_case(alloc: Global, locals: &[u32], devices: &[u32], case: Case) -> Result<Case, NoMemory>
    ensures { IfOk result (λ r. r ≡ case_renamed (number_at locals.now) (number_at devices.now) case) }
{
    let Case { labels, body } = case;
    Ok(Case {
        labels,
        body: rename_stmts(alloc, locals, devices, body)?,
    })
}

fn rename_optional(
    alloc: Global,
    locals: &[u32],
    devices: &[u32],
    e: Option<Boxed<Expr>>,
) -> Result<Option<Boxed<Expr>>, NoMemory>
    ensures { IfOk result (λ r. r ≡ option_map (λ e. expr_renamed (number_at locals.now) (number_at devices.now) e) e) }
{
    match e {
        None => Ok(None),
        Some(e) => Ok(Some(rename_boxed(alloc, locals, devices, e)?)),
    }
}
