//! Statements by their kind, lists of them, and cases.

ghost use Rattle.std.specs.Prelude.{◌≡◌, ◌++◌, ◌∷◌, [], IfOk};
ghost use Rattle.cc_lower_statements.specs.Statements.{optional_statement, lower as lower_of, lower_case as lower_case_of, lower_list as lower_list_of, lower_cases as lower_cases_of};

use crate::loops::{push_continue, push_do, push_expression, push_for, push_while};
use cc_program::num::{Boxed, List, NoMemory};
use cc_program::{Case, Expr, Stmt, copy_list};
use std::alloc::Global;

/// A choice between statements.
fn choice(alloc: Global, e: &Expr, these: Vec<Stmt>, those: Vec<Stmt>) -> Result<Stmt, NoMemory>
    ensures { IfOk result (λ s. s ≡ Stmt.If e.now these.items those.items) }
{
    Ok(Stmt::If(
        Boxed::new(alloc, e.copy(alloc)?)?,
        List::of(these),
        List::of(those),
    ))
}

/// What a statement becomes, behind others; the step of the innermost `for` stands before each `continue`.
#[cycle(lower)]
#[tactic(auto, using(crate::proofs::CodeEquations::lowered_statements, std::proofs::lemmas::Grind::common_steps))]
fn lower(
    alloc: Global,
    s: &Stmt,
    step: &Option<Boxed<Expr>>,
    out: Vec<Stmt>,
) -> Result<Vec<Stmt>, NoMemory>
    ensures { IfOk result (λ v. v.items ≡ out.items ++ lower_of s.now (optional_statement step.now)) }
{
    let mut out = out;
    match s {
        Stmt::Do(e) => push_expression(alloc, e.get(), out),
        Stmt::If(e, these, those) => {
            let these = lower_list(alloc, these, step, Vec::new(alloc))?;
            let those = lower_list(alloc, those, step, Vec::new(alloc))?;
            out.push(choice(alloc, e.get(), these, those)?)?;
            Ok(out)
        }
        Stmt::While(e, body) => {
            let no_step = None;
            let body = lower_list(alloc, body, &no_step, Vec::new(alloc))?;
            push_while(alloc, e.get(), body, out)
        }
        Stmt::DoWhile(body, e) => {
            let no_step = None;
            let body = lower_list(alloc, body, &no_step, Vec::new(alloc))?;
            push_do(alloc, body, e.get(), out)
        }
        Stmt::For(first, test, again, body) => {
            let body = lower_list(alloc, body, again, Vec::new(alloc))?;
            push_for(alloc, first, test, again, body, out)
        }
        Stmt::Switch(e, cases) => {
            let cases = lower_cases(alloc, cases, step)?;
            out.push(Stmt::Switch(Boxed::new(alloc, e.get().copy(alloc)?)?, cases))?;
            Ok(out)
        }
        Stmt::Break => {
            out.push(Stmt::Break)?;
            Ok(out)
        }
        Stmt::Continue => push_continue(alloc, step, out),
        Stmt::Return(e) => {
            out.push(Stmt::Return(copied(alloc, e)?))?;
            Ok(out)
        }
        Stmt::Empty => Ok(out),
        Stmt::Block(body) => lower_list(alloc, body, step, out),
    }
}

/// What statements become, behind others.
#[cycle(lower)]
#[tactic(auto, using(crate::proofs::CodeEquations::list_rules, std::proofs::lemmas::Grind::common_steps))]
pub fn lower_list(
    alloc: Global,
    list: &List<Stmt>,
    step: &Option<Boxed<Expr>>,
    out: Vec<Stmt>,
) -> Result<Vec<Stmt>, NoMemory>
    ensures { IfOk result (λ v. v.items ≡ out.items ++ lower_list_of list.now (optional_statement step.now)) }
{
    let mut out = out;
    for s in list.all() {
        out = lower(alloc, s, step, out)?;
    }
    Ok(out)
}

/// The cases of a `switch`, in their order.
#[cycle(lower)]
#[tactic(auto, using(crate::proofs::CodeEquations::list_rules, std::proofs::lemmas::Grind::common_steps))]
fn lower_cases(
    alloc: Global,
    cases: &List<Case>,
    step: &Option<Boxed<Expr>>,
) -> Result<List<Case>, NoMemory>
    ensures { IfOk result (λ r. r ≡ lower_cases_of cases.now (optional_statement step.now)) }
{
    let mut out = Vec::new(alloc);
    for case in cases.all() {
        out.push(lower_case(alloc, case, step)?)?;
    }
    Ok(List::of(out))
}

/// A case with the same labels.
#[cycle(lower)]
#[tactic(auto, using(crate::proofs::CodeEquations::lowered_cases))]
fn lower_case(alloc: Global, case: &Case, step: &Option<Boxed<Expr>>) -> Result<Case, NoMemory>
    ensures { IfOk result (λ r. r ≡ lower_case_of case.now (optional_statement step.now)) }
{
    let labels = copy_list(alloc, &case.labels)?;
    let body = lower_list(alloc, &case.body, step, Vec::new(alloc))?;
    Ok(Case {
        labels,
        body: List::of(body),
    })
}

/// A copy of an expression that may be missing.
fn copied(alloc: Global, e: &Option<Boxed<Expr>>) -> Result<Option<Boxed<Expr>>, NoMemory>
    ensures { IfOk result (λ r. r ≡ e.now) }
{
    match e {
        None => Ok(None),
        Some(e) => Ok(Some(Boxed::new(alloc, e.get().copy(alloc)?)?)),
    }
}
