//! Conditions of an `if` without `else`: an `&&` that is not pure is two of them.

ghost use Rattle.std.specs.Prelude.{◌≡◌, ◌++◌, map, length, IfOk, OnOk};
ghost use Rattle.cc_lower_accesses.specs.Assigned.{among};
ghost use Rattle.cc_registers.specs.Kept.{AreKept};
ghost use Rattle.cc_lower_accesses.specs.Modes.{as_locals};
ghost use Rattle.cc_lower_bodies.specs.Conditions.{condition_view, nest, alone_of, conditions_of};
ghost use Rattle.cc_eval.specs.CcSyntax.Sizes.{AreSized};

use cc_lower_accesses::Body;
use cc_lower_operands::operand;
use cc_program::num::{Boxed, List, Name, NoMemory};
use cc_program::{CType, Expr, Stmt};
use std::alloc::Global;

/// A condition, and the statements in front of the `if` that it is the operand of.
#[derive(Drop)]
pub struct Condition {
    first: Vec<Stmt>,
    operand: Expr,
}

/// Puts a condition, lowered as an operand, behind others.
#[tactic(auto, using(crate::proofs::ConditionLemmas::alone_rules))]
fn put_condition<'p>(
    body: Body<'p>,
    e: &'p Expr,
    later: &[u32],
    locals: &mut Vec<(Name, CType)>,
    out: &mut Vec<Condition>,
) -> Result<(), NoMemory>
    requires sized { AreSized body.program.now.structures body.program.now.target }
    requires kept { AreKept body.func.now body.registers.now }
    ensures conditions { OnOk result (map condition_view out.new.items ≡ map condition_view out.old.items ++ (alone_of body.entry.program.now body.entry.func.now e.now (among later.now) (length locals.old.items)).value) }
    ensures locals { OnOk result (locals.new.items ≡ locals.old.items ++ as_locals (alone_of body.entry.program.now body.entry.func.now e.now (among later.now) (length locals.old.items)).temps) }
{
    let mut first = Vec::new(body.alloc);
    let x = operand(body, e, later, locals, &mut first)?;
    Ok(out.push(Condition { first, operand: x })?)
}

/// Puts the conditions that a condition is, from left to right, behind others; later operands of the full expression assign
/// the registers of a list.
#[tactic(auto, using(crate::proofs::ConditionLemmas::condition_rules, cc_lower_accesses::proofs::AccessRules::locals_rules))]
pub fn put_conditions<'p>(
    body: Body<'p>,
    e: &'p Expr,
    later: &[u32],
    locals: &mut Vec<(Name, CType)>,
    out: &mut Vec<Condition>,
) -> Result<(), NoMemory>
    requires sized { AreSized body.program.now.structures body.program.now.target }
    requires kept { AreKept body.func.now body.registers.now }
    ensures conditions { OnOk result (map condition_view out.new.items ≡ map condition_view out.old.items ++ (conditions_of body.entry.program.now body.entry.func.now e.now (among later.now) (length locals.old.items)).value) }
    ensures locals { OnOk result (locals.new.items ≡ locals.old.items ++ as_locals (conditions_of body.entry.program.now body.entry.func.now e.now (among later.now) (length locals.old.items)).temps) }
{
    match e {
        Expr::Both(a, b) => {
            if body.is_pure(e, later) {
                return put_condition(body, e, later, locals, out);
            }
            let behind = body.with(b.get(), later)?;
            put_conditions(body, a.get(), &behind, locals, out)?;
            put_conditions(body, b.get(), later, locals, out)
        }
        _ => put_condition(body, e, later, locals, out),
    }
}

/// Statements that are done where all conditions hold.
#[tactic(auto, using(crate::proofs::ConditionLemmas::nest_rules, std::proofs::lemmas::Grind::common_steps))]
pub fn guarded(
    alloc: Global,
    conditions: Vec<Condition>,
    these: Vec<Stmt>,
) -> Result<Vec<Stmt>, NoMemory>
    ensures { IfOk result (λ v. v.items ≡ nest (map condition_view conditions.items) these.items) }
{
    let mut left = conditions;
    let mut done = these;
    while let Some(condition) = left.pop() {
        let Condition { first, operand } = condition;
        let mut out = first;
        let operand = Boxed::new(alloc, operand)?;
        out.push(Stmt::If(operand, List::of(done), List::of(Vec::new(alloc))))?;
        done = out;
    }
    Ok(done)
}
