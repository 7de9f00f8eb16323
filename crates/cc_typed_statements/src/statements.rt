//! Choices and loops of which the parts have types (C99 6.8.4.1, 6.8.5).

ghost use Rattle.std.specs.Prelude.{◌≡◌, ◌∷◌, [], IfOk, option_map, Ok as OkOf};
ghost use Rattle.cc_operands.specs.Verdicts.{Judges};
ghost use Rattle.cc_operands.specs.View.{operand_view};
ghost use Rattle.cc_typed_statements.specs.Statements.{if_of, while_of, do_of, for_of};

use crate::conditions::{condition, maybe_condition};
use cc_operands::syntax::{Expr, Stmt};
use cc_operands::{Breach, Operand};
use cc_program::num::{Boxed, List, NoMemory};
use std::alloc::Global;

/// A statement alone.
pub fn one(alloc: Global, statement: Stmt) -> Result<List<Stmt>, NoMemory>
    ensures { IfOk result (λ r. r ≡ statement ∷ []) }
{
    let mut statements = Vec::new(alloc);
    statements.push(statement)?;
    Ok(List::of(statements))
}

/// A construct that is a statement alone.
pub fn sole_statement(alloc: Global, statement: Stmt) -> Result<List<Stmt>, Breach>
    ensures { Judges (λ ss. ss) result (OkOf (statement ∷ [])) }
{
    Ok(one(alloc, statement)?)
}

/// `if` (C99 6.8.4.1).
pub fn if_statement(
    alloc: Global,
    x: Operand,
    these: List<Stmt>,
    those: List<Stmt>,
) -> Result<List<Stmt>, Breach>
    ensures { Judges (λ ss. ss) result (if_of (operand_view x) these those) }
{
    match condition(x) {
        Err(rule) => Err(Breach::Breaks(rule)),
        Ok(e) => sole_statement(alloc, Stmt::If(e, these, those)),
    }
}

/// `while` (C99 6.8.5.1).
pub fn while_statement(alloc: Global, x: Operand, body: List<Stmt>) -> Result<List<Stmt>, Breach>
    ensures { Judges (λ ss. ss) result (while_of (operand_view x) body) }
{
    match condition(x) {
        Err(rule) => Err(Breach::Breaks(rule)),
        Ok(e) => sole_statement(alloc, Stmt::While(e, body)),
    }
}

/// `do` (C99 6.8.5.2).
pub fn do_statement(alloc: Global, body: List<Stmt>, x: Operand) -> Result<List<Stmt>, Breach>
    ensures { Judges (λ ss. ss) result (do_of body (operand_view x)) }
{
    match condition(x) {
        Err(rule) => Err(Breach::Breaks(rule)),
        Ok(e) => sole_statement(alloc, Stmt::DoWhile(body, e)),
    }
}

/// `for` (C99 6.8.5.3): what is done first, the test, and what is done behind each turn.
pub fn for_statement(
    alloc: Global,
    first: Option<Boxed<Expr>>,
    test: Option<Operand>,
    step: Option<Boxed<Expr>>,
    body: List<Stmt>,
) -> Result<List<Stmt>, Breach>
    ensures { Judges (λ ss. ss) result (for_of first (option_map operand_view test) step body) }
{
    match maybe_condition(test) {
        Err(rule) => Err(Breach::Breaks(rule)),
        Ok(test) => sole_statement(alloc, Stmt::For(first, test, step, body)),
    }
}
