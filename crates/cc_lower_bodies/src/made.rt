//! Statements of each kind, over what their parts became.

ghost use Rattle.std.specs.Prelude.{◌≡◌, ◌++◌, ◌∷◌, [], map, length, IfOk, OnOk};
ghost use Rattle.cc_registers.specs.Kept.{AreKept};
ghost use Rattle.cc_lower_accesses.specs.Modes.{as_locals};
ghost use Rattle.cc_lower_bodies.specs.Conditions.{condition_view, nest};
ghost use Rattle.cc_lower_expressions.specs.Statements.{lower as lower_of};
ghost use Rattle.cc_eval.specs.CcSyntax.Sizes.{AreSized};

use crate::conditions::{Condition, guarded};
use cc_lower_accesses::Body;
use cc_lower_operands::operand;
use cc_program::num::{Boxed, List, Name, NoMemory};
use cc_program::{CType, Case, Expr, Stmt};
use std::alloc::Global;

/// Puts a statement behind others.
pub fn put(s: Stmt, out: &mut Vec<Stmt>) -> Result<(), NoMemory>
    ensures { OnOk result (out.new.items ≡ out.old.items ++ s ∷ []) }
{
    Ok(out.push(s)?)
}

/// Puts statements behind others.
#[tactic(auto, using(std::proofs::lemmas::Grind::common_steps))]
fn put_all(list: Vec<Stmt>, out: &mut Vec<Stmt>) -> Result<(), NoMemory>
    ensures { OnOk result (out.new.items ≡ out.old.items ++ list.items) }
{
    for s in list {
        out.push(s)?;
    }
    Ok(())
}

/// Puts statements that are done where all conditions hold behind others.
pub fn put_guarded(
    alloc: Global,
    conditions: Vec<Condition>,
    these: List<Stmt>,
    out: &mut Vec<Stmt>,
) -> Result<(), NoMemory>
    ensures { OnOk result (out.new.items ≡ out.old.items ++ nest (map condition_view conditions.items) these) }
{
    let all = guarded(alloc, conditions, these.into_vec())?;
    put_all(all, out)
}

/// Puts an `if` behind others.
pub fn put_if(
    alloc: Global,
    x: Expr,
    these: List<Stmt>,
    those: List<Stmt>,
    out: &mut Vec<Stmt>,
) -> Result<(), NoMemory>
    ensures { OnOk result (out.new.items ≡ out.old.items ++ Stmt.If x these those ∷ []) }
{
    let x = Boxed::new(alloc, x)?;
    put(Stmt::If(x, these, those), out)
}

/// Puts a `switch` behind others.
pub fn put_switch(
    alloc: Global,
    x: Expr,
    cases: List<Case>,
    out: &mut Vec<Stmt>,
) -> Result<(), NoMemory>
    ensures { OnOk result (out.new.items ≡ out.old.items ++ Stmt.Switch x cases ∷ []) }
{
    let x = Boxed::new(alloc, x)?;
    put(Stmt::Switch(x, cases), out)
}

/// Puts a `return` behind others, and in front of it the statements of its operand.
#[tactic(auto, using(crate::proofs::StatementRules::return_rules, cc_lower_accesses::proofs::AccessRules::locals_rules))]
pub fn put_return<'p>(
    body: Body<'p>,
    e: &'p Option<Boxed<Expr>>,
    locals: &mut Vec<(Name, CType)>,
    out: &mut Vec<Stmt>,
) -> Result<(), NoMemory>
    requires sized { AreSized body.program.now.structures body.program.now.target }
    requires kept { AreKept body.func.now body.registers.now }
    ensures locals { OnOk result (locals.new.items ≡ locals.old.items ++ as_locals (lower_of body.entry.program.now body.entry.func.now (Stmt.Return e.now) (length locals.old.items)).temps) }
    ensures statements { OnOk result (out.new.items ≡ out.old.items ++ (lower_of body.entry.program.now body.entry.func.now (Stmt.Return e.now) (length locals.old.items)).stmts) }
{
    match e {
        None => put(Stmt::Return(None), out),
        Some(e) => {
            let x = operand(body, e.get(), &[], locals, out)?;
            let x = Boxed::new(body.alloc, x)?;
            put(Stmt::Return(Some(x)), out)?;
            Ok(())
        }
    }
}

/// Puts a `while` behind others.
pub fn put_while(
    alloc: Global,
    e: &Boxed<Expr>,
    made: List<Stmt>,
    out: &mut Vec<Stmt>,
) -> Result<(), NoMemory>
    ensures { OnOk result (out.new.items ≡ out.old.items ++ Stmt.While e.now made ∷ []) }
{
    let e = copied(alloc, e)?;
    put(Stmt::While(e, made), out)
}

/// Puts a `do` behind others.
pub fn put_do_while(
    alloc: Global,
    made: List<Stmt>,
    e: &Boxed<Expr>,
    out: &mut Vec<Stmt>,
) -> Result<(), NoMemory>
    ensures { OnOk result (out.new.items ≡ out.old.items ++ Stmt.DoWhile made e.now ∷ []) }
{
    let e = copied(alloc, e)?;
    put(Stmt::DoWhile(made, e), out)
}

/// Puts a `for` behind others.
pub fn put_for(
    alloc: Global,
    first: &Option<Boxed<Expr>>,
    test: &Option<Boxed<Expr>>,
    again: &Option<Boxed<Expr>>,
    made: List<Stmt>,
    out: &mut Vec<Stmt>,
) -> Result<(), NoMemory>
    ensures { OnOk result (out.new.items ≡ out.old.items ++ Stmt.For first.now test.now again.now made ∷ []) }
{
    let first = copied_if(alloc, first)?;
    let test = copied_if(alloc, test)?;
    let again = copied_if(alloc, again)?;
    put(Stmt::For(first, test, again, made), out)
}

/// A copy of an expression.
fn copied(alloc: Global, e: &Boxed<Expr>) -> Result<Boxed<Expr>, NoMemory>
    ensures { IfOk result (λ r. r ≡ e.now) }
{
    Boxed::new(alloc, e.get().copy(alloc)?)
}

/// A copy of an expression that may be missing.
fn copied_if(alloc: Global, e: &Option<Boxed<Expr>>) -> Result<Option<Boxed<Expr>>, NoMemory>
    ensures { IfOk result (λ r. r ≡ e.now) }
{
    match e {
        None => Ok(None),
        Some(e) => Ok(Some(copied(alloc, e)?)),
    }
}
