//! Conditions, and what stands around bodies (C99 6.8.2, 6.8.4.1, 6.8.5).

ghost use Rattle.std.specs.Prelude.{◌≡◌, IfOk, option_map};
ghost use Rattle.cc_typed_statements.specs.Conditions.{condition as condition_of, maybe_condition as maybe_condition_of, effect as effect_of, body_of as body_of_list, then_one as then_one_of, joined as joined_of};
ghost use Rattle.cc_operands.specs.Verdicts.{Judges};
ghost use Rattle.cc_operands.specs.View.{operand_view};

use cc_operands::syntax::{Expr, Stmt};
use cc_operands::{Breach, Operand, Rule};
use cc_program::num::{Boxed, List, NoMemory};
use std::alloc::Global;

/// A condition, which is scalar (C99 6.8.4.1, 1; 6.8.5, 2).
pub fn condition(x: Operand) -> Result<Boxed<Expr>, Rule>
    ensures { result ≡ condition_of (operand_view x) }
{
    if x.is_void() {
        Err(Rule::VoidUsed)
    } else if x.ctype.is_scalar() {
        Ok(x.value)
    } else {
        Err(Rule::NoScalar)
    }
}

/// The condition of a `for`, if it has one.
pub fn maybe_condition(x: Option<Operand>) -> Result<Option<Boxed<Expr>>, Rule>
    ensures { result ≡ maybe_condition_of (option_map operand_view x) }
{
    match x {
        None => Ok(None),
        Some(x) => Ok(Some(condition(x)?)),
    }
}

/// An expression for what it does (C99 6.8.3).
pub fn effect(x: Operand) -> Result<Boxed<Expr>, Breach>
    ensures { Judges (λ e. e) result (effect_of (operand_view x)) }
{
    if x.structure {
        Err(Breach::Breaks(Rule::StructureValue))
    } else {
        Ok(x.value)
    }
}

/// The body of a statement: of a block its own list.
#[tactic(auto, using(crate::proofs::Bodies::of_bodies))]
pub fn body_of(statements: List<Stmt>) -> Result<List<Stmt>, NoMemory>
    ensures { IfOk result (λ r. r ≡ body_of_list statements) }
{
    let mut statements = statements.into_vec();
    if statements.len() != 1 {
        return Ok(List::of(statements));
    }
    match statements.pop() {
        None => Ok(List::of(statements)),
        Some(Stmt::Block(inner)) => Ok(inner),
        Some(statement) => {
            statements.push(statement)?;
            Ok(List::of(statements))
        }
    }
}

fn then_one(
    alloc: Global,
    before: Option<Boxed<Expr>>,
    e: Boxed<Expr>,
) -> Result<Boxed<Expr>, NoMemory>
    ensures { IfOk result (λ r. Some r ≡ then_one_of before e) }
{
    match before {
        None => Ok(e),
        Some(before) => Boxed::new(alloc, Expr::Seq(before, e)),
    }
}

/// Several assignments in front of a `for`, one after the other.
#[tactic(auto, using(crate::proofs::Bodies::of_bodies))]
pub fn joined(alloc: Global, assignments: List<Expr>) -> Result<Option<Boxed<Expr>>, NoMemory>
    ensures { IfOk result (λ r. r ≡ joined_of assignments) }
{
    let mut before = None;
    for e in assignments.into_vec() {
        let e = Boxed::new(alloc, e)?;
        before = Some(then_one(alloc, before, e)?);
    }
    Ok(before)
}
