//! The statements that loops become.

ghost use Rattle.std.specs.Prelude.{◌≡◌, ◌++◌, ◌∷◌, [], Some, IfOk};
ghost use Rattle.cc_lower_statements.specs.Statements.{is_nonzero_constant as is_nonzero_constant_of, needed_test, guarded as guarded_of, endless_loop, optional_statement};

use cc_program::num::{Boxed, IntType, List, NoMemory};
use cc_program::{Expr, Stmt};
use std::alloc::Global;

/// Whether an expression is a constant other than 0.
#[tactic(auto, unfolding(crate::specs::Statements::is_nonzero_constant))]
pub fn is_nonzero_constant(e: &Expr) -> bool
    ensures { result ≡ is_nonzero_constant_of e.now }
{
    match e {
        Expr::Const(n, _) => *n != 0,
        Expr::Null(_)
        | Expr::FuncAddr(_)
        | Expr::Load(_)
        | Expr::AddrOf(_)
        | Expr::Un(_, _, _)
        | Expr::Bin(_, _, _, _)
        | Expr::Conv(_, _)
        | Expr::Qualify(_, _)
        | Expr::Move(_, _, _)
        | Expr::Gap(_, _)
        | Expr::Compare(_, _, _)
        | Expr::Both(_, _)
        | Expr::Either(_, _)
        | Expr::Choose(_, _, _)
        | Expr::Assign(_, _)
        | Expr::Change(_, _, _, _)
        | Expr::After(_, _)
        | Expr::Call(_, _)
        | Expr::Intr(_, _)
        | Expr::Seq(_, _) => false,
    }
}

/// The statement of an expression, behind others.
#[tactic(auto, using(crate::proofs::CodeEquations::made_statements))]
pub fn push_expression(alloc: Global, e: &Expr, out: Vec<Stmt>) -> Result<Vec<Stmt>, NoMemory>
    ensures { IfOk result (λ v. v.items ≡ out.items ++ Stmt.Do e.now ∷ []) }
{
    let mut out = out;
    out.push(Stmt::Do(Boxed::new(alloc, e.copy(alloc)?)?))?;
    Ok(out)
}

/// The statement of an expression that may be missing, behind others.
#[tactic(auto, using(crate::proofs::CodeEquations::made_statements, std::proofs::lemmas::Grind::common_steps))]
fn push_optional(
    alloc: Global,
    e: &Option<Boxed<Expr>>,
    out: Vec<Stmt>,
) -> Result<Vec<Stmt>, NoMemory>
    ensures { IfOk result (λ v. v.items ≡ out.items ++ optional_statement e.now) }
{
    match e {
        None => Ok(out),
        Some(e) => push_expression(alloc, e.get(), out),
    }
}

/// Statements behind a test that leaves the loop where it fails.
#[tactic(auto, using(crate::proofs::CodeEquations::made_statements))]
fn behind_test(alloc: Global, e: &Expr, body: Vec<Stmt>) -> Result<Vec<Stmt>, NoMemory>
    ensures { IfOk result (λ v. v.items ≡ guarded_of (Some e.now) body.items) }
{
    let mut leaving = Vec::new(alloc);
    leaving.push(Stmt::Break)?;
    let mut out = Vec::new(alloc);
    out.push(Stmt::If(
        Boxed::new(alloc, e.copy(alloc)?)?,
        List::of(body),
        List::of(leaving),
    ))?;
    Ok(out)
}

/// Statements behind the test of a loop; a constant other than 0 is left out.
fn guarded(alloc: Global, e: &Expr, body: Vec<Stmt>) -> Result<Vec<Stmt>, NoMemory>
    ensures { IfOk result (λ v. v.items ≡ guarded_of (needed_test (Some e.now)) body.items) }
{
    if is_nonzero_constant(e) {
        return Ok(body);
    }
    behind_test(alloc, e, body)
}

/// Statements behind the test of a loop, which may be missing.
fn guarded_if(
    alloc: Global,
    e: &Option<Boxed<Expr>>,
    body: Vec<Stmt>,
) -> Result<Vec<Stmt>, NoMemory>
    ensures { IfOk result (λ v. v.items ≡ guarded_of (needed_test e.now) body.items) }
{
    match e {
        None => Ok(body),
        Some(e) => guarded(alloc, e.get(), body),
    }
}

/// A loop that is left by `break` alone, behind other statements.
#[tactic(auto, using(crate::proofs::CodeEquations::made_statements))]
fn push_endless(alloc: Global, body: Vec<Stmt>, out: Vec<Stmt>) -> Result<Vec<Stmt>, NoMemory>
    ensures { IfOk result (λ v. v.items ≡ out.items ++ endless_loop body.items ∷ []) }
{
    let mut out = out;
    out.push(Stmt::While(
        Boxed::new(alloc, Expr::Const(1, IntType::Int))?,
        List::of(body),
    ))?;
    Ok(out)
}

/// A `while` whose body is `body`, behind other statements.
pub fn push_while(
    alloc: Global,
    e: &Expr,
    body: Vec<Stmt>,
    out: Vec<Stmt>,
) -> Result<Vec<Stmt>, NoMemory>
    ensures { IfOk result (λ v. v.items ≡ out.items ++ endless_loop (guarded_of (needed_test (Some e.now)) body.items) ∷ []) }
{
    push_endless(alloc, guarded(alloc, e, body)?, out)
}

/// A `do` whose body is `body`, behind other statements.
pub fn push_do(
    alloc: Global,
    body: Vec<Stmt>,
    e: &Expr,
    out: Vec<Stmt>,
) -> Result<Vec<Stmt>, NoMemory>
    ensures { IfOk result (λ v. v.items ≡ out.items ++ endless_loop (body.items ++ guarded_of (needed_test (Some e.now)) []) ∷ []) }
{
    let test = guarded(alloc, e, Vec::new(alloc))?;
    push_endless(alloc, appended(body, test)?, out)
}

/// A `for` whose body is `body`, behind other statements.
#[tactic(auto, using(std::proofs::lemmas::Grind::common_steps))]
pub fn push_for(
    alloc: Global,
    first: &Option<Boxed<Expr>>,
    test: &Option<Boxed<Expr>>,
    step: &Option<Boxed<Expr>>,
    body: Vec<Stmt>,
    out: Vec<Stmt>,
) -> Result<Vec<Stmt>, NoMemory>
    ensures { IfOk result (λ v. v.items ≡ out.items ++ optional_statement first.now ++ endless_loop (guarded_of (needed_test test.now) (body.items ++ optional_statement step.now)) ∷ []) }
{
    let out = push_optional(alloc, first, out)?;
    let body = push_optional(alloc, step, body)?;
    push_endless(alloc, guarded_if(alloc, test, body)?, out)
}

/// A `continue` behind the step of its loop, behind other statements.
#[tactic(auto, using(std::proofs::lemmas::Grind::common_steps))]
pub fn push_continue(
    alloc: Global,
    step: &Option<Boxed<Expr>>,
    out: Vec<Stmt>,
) -> Result<Vec<Stmt>, NoMemory>
    ensures { IfOk result (λ v. v.items ≡ out.items ++ optional_statement step.now ++ Stmt.Continue ∷ []) }
{
    let mut out = push_optional(alloc, step, out)?;
    out.push(Stmt::Continue)?;
    Ok(out)
}

/// Statements behind others.
#[tactic(auto, using(std::proofs::lemmas::Grind::common_steps))]
fn appended(first: Vec<Stmt>, then: Vec<Stmt>) -> Result<Vec<Stmt>, NoMemory>
    ensures { IfOk result (λ v. v.items ≡ first.items ++ then.items) }
{
    let mut out = first;
    for s in then {
        out.push(s)?;
    }
    Ok(out)
}
