//! Statements by their kind, lists of them, and cases.

ghost use Rattle.std.specs.Prelude.{◌≡◌, ◌++◌, length, IfOk, OnOk};
ghost use Rattle.cc_registers.specs.Kept.{AreKept};
ghost use Rattle.cc_lower_accesses.specs.Modes.{as_locals};
ghost use Rattle.cc_lower_bodies.specs.Lists.{list_made, cases_made, guarded_of};
ghost use Rattle.cc_lower_expressions.specs.Statements.{lower as lower_of, lower_case as lower_case_of};
ghost use Rattle.cc_eval.specs.CcSyntax.Sizes.{AreSized};

use crate::conditions::put_conditions;
use crate::made::{
    put, put_do_while, put_for, put_guarded, put_if, put_return, put_switch, put_while,
};
use cc_lower_accesses::Body;
use cc_lower_operands::{effect, operand};
use cc_program::num::{List, Name, NoMemory};
use cc_program::{CType, Case, Expr, Stmt, copy_list};
use std::alloc::Global;

/// What a statement becomes, behind others.
#[cycle(statements)]
#[tactic(auto, using(crate::proofs::StatementRules::statement_rules, cc_lower_accesses::proofs::AccessRules::locals_rules))]
fn lower<'p>(
    body: Body<'p>,
    s: &'p Stmt,
    locals: &mut Vec<(Name, CType)>,
    out: &mut Vec<Stmt>,
) -> Result<(), NoMemory>
    requires sized { AreSized body.program.now.structures body.program.now.target }
    requires kept { AreKept body.func.now body.registers.now }
    ensures locals { OnOk result (locals.new.items ≡ locals.old.items ++ as_locals (lower_of body.entry.program.now body.entry.func.now s.now (length locals.old.items)).temps) }
    ensures statements { OnOk result (out.new.items ≡ out.old.items ++ (lower_of body.entry.program.now body.entry.func.now s.now (length locals.old.items)).stmts) }
{
    match s {
        Stmt::Do(e) => effect(body, e.get(), &[], locals, out),
        Stmt::If(e, these, those) => {
            if those.all().is_empty() {
                return if_alone(body, these, e.get(), locals, out);
            }
            let x = operand(body, e.get(), &[], locals, out)?;
            let made = lower_list(body, these, locals)?;
            let other = lower_list(body, those, locals)?;
            put_if(body.alloc, x, made, other, out)?;
            Ok(())
        }
        Stmt::While(e, these) => {
            let made = lower_list(body, these, locals)?;
            put_while(body.alloc, e, made, out)
        }
        Stmt::DoWhile(these, e) => {
            let made = lower_list(body, these, locals)?;
            put_do_while(body.alloc, made, e, out)
        }
        Stmt::For(first, test, again, these) => {
            let made = lower_list(body, these, locals)?;
            put_for(body.alloc, first, test, again, made, out)
        }
        Stmt::Switch(e, cases) => switch(body, cases, e.get(), locals, out),
        Stmt::Break => put(Stmt::Break, out),
        Stmt::Continue => put(Stmt::Continue, out),
        Stmt::Return(e) => put_return(body, e, locals, out),
        Stmt::Empty => put(Stmt::Empty, out),
        Stmt::Block(these) => {
            let made = lower_list(body, these, locals)?;
            put(Stmt::Block(made), out)
        }
    }
}

/// An `if` without `else`.
#[cycle(statements)]
#[tactic(auto, using(crate::proofs::StatementRules::choice_rules, cc_lower_accesses::proofs::AccessRules::locals_rules))]
fn if_alone<'p>(
    body: Body<'p>,
    these: &'p List<Stmt>,
    e: &'p Expr,
    locals: &mut Vec<(Name, CType)>,
    out: &mut Vec<Stmt>,
) -> Result<(), NoMemory>
    requires sized { AreSized body.program.now.structures body.program.now.target }
    requires kept { AreKept body.func.now body.registers.now }
    ensures locals { OnOk result (locals.new.items ≡ locals.old.items ++ as_locals (guarded_of body.entry.program.now body.entry.func.now e.now these.now (length locals.old.items)).temps) }
    ensures statements { OnOk result (out.new.items ≡ out.old.items ++ (guarded_of body.entry.program.now body.entry.func.now e.now these.now (length locals.old.items)).stmts) }
{
    let mut conditions = Vec::new(body.alloc);
    put_conditions(body, e, &[], locals, &mut conditions)?;
    let these = lower_list(body, these, locals)?;
    put_guarded(body.alloc, conditions, these, out)
}

/// A `switch`.
#[cycle(statements)]
#[tactic(auto, using(crate::proofs::StatementRules::choice_rules, cc_lower_accesses::proofs::AccessRules::locals_rules))]
fn switch<'p>(
    body: Body<'p>,
    cases: &'p List<Case>,
    e: &'p Expr,
    locals: &mut Vec<(Name, CType)>,
    out: &mut Vec<Stmt>,
) -> Result<(), NoMemory>
    requires sized { AreSized body.program.now.structures body.program.now.target }
    requires kept { AreKept body.func.now body.registers.now }
    ensures locals { OnOk result (locals.new.items ≡ locals.old.items ++ as_locals (lower_of body.entry.program.now body.entry.func.now (Stmt.Switch e.now cases.now) (length locals.old.items)).temps) }
    ensures statements { OnOk result (out.new.items ≡ out.old.items ++ (lower_of body.entry.program.now body.entry.func.now (Stmt.Switch e.now cases.now) (length locals.old.items)).stmts) }
{
    let x = operand(body, e, &[], locals, out)?;
    let made = lower_cases(body, cases, locals)?;
    put_switch(body.alloc, x, made, out)
}

/// What statements become, in their order.
#[cycle(statements)]
#[tactic(auto, using(crate::proofs::ListLemmas::list_rules, cc_lower_accesses::proofs::AccessRules::locals_rules))]
pub fn lower_list<'p>(
    body: Body<'p>,
    list: &'p List<Stmt>,
    locals: &mut Vec<(Name, CType)>,
) -> Result<List<Stmt>, NoMemory>
    requires sized { AreSized body.program.now.structures body.program.now.target }
    requires kept { AreKept body.func.now body.registers.now }
    ensures value { IfOk result (λ r. r ≡ (list_made body.entry.program.now body.entry.func.now list.now (length locals.old.items)).stmts) }
    ensures locals { OnOk result (locals.new.items ≡ locals.old.items ++ as_locals (list_made body.entry.program.now body.entry.func.now list.now (length locals.old.items)).temps) }
{
    let mut out = Vec::new(body.alloc);
    for s in list.all() {
        lower(body, s, locals, &mut out)?;
    }
    Ok(List::of(out))
}

/// The cases of a `switch`, in their order.
#[cycle(statements)]
#[tactic(auto, using(crate::proofs::ListLemmas::list_rules, cc_lower_accesses::proofs::AccessRules::locals_rules))]
fn lower_cases<'p>(
    body: Body<'p>,
    cases: &'p List<Case>,
    locals: &mut Vec<(Name, CType)>,
) -> Result<List<Case>, NoMemory>
    requires sized { AreSized body.program.now.structures body.program.now.target }
    requires kept { AreKept body.func.now body.registers.now }
    ensures value { IfOk result (λ r. r ≡ (cases_made body.entry.program.now body.entry.func.now cases.now (length locals.old.items)).value) }
    ensures locals { OnOk result (locals.new.items ≡ locals.old.items ++ as_locals (cases_made body.entry.program.now body.entry.func.now cases.now (length locals.old.items)).temps) }
{
    let mut out = Vec::new(body.alloc);
    for case in cases.all() {
        let made = lower_case(body, case, locals)?;
        out.push(made)?;
    }
    Ok(List::of(out))
}

/// A case with the same labels.
#[cycle(statements)]
#[tactic(auto, using(crate::proofs::ListLemmas::case_rules))]
fn lower_case<'p>(
    body: Body<'p>,
    case: &'p Case,
    locals: &mut Vec<(Name, CType)>,
) -> Result<Case, NoMemory>
    requires sized { AreSized body.program.now.structures body.program.now.target }
    requires kept { AreKept body.func.now body.registers.now }
    ensures value { IfOk result (λ r. r ≡ (lower_case_of body.entry.program.now body.entry.func.now case.now (length locals.old.items)).value) }
    ensures locals { OnOk result (locals.new.items ≡ locals.old.items ++ as_locals (lower_case_of body.entry.program.now body.entry.func.now case.now (length locals.old.items)).temps) }
{
    let labels = copy_list(body.alloc, &case.labels)?;
    let made = lower_list(body, &case.body, locals)?;
    Ok(Case { labels, body: made })
}
