//! Full expressions: their values, and which locals and statements come behind those that there are.

ghost use Rattle.std.specs.Prelude.{◌≡◌, ◌++◌, length, IfOk, OnOk};
ghost use Rattle.cc_lower_accesses.specs.Assigned.{among};
ghost use Rattle.cc_registers.specs.Kept.{AreKept};
ghost use Rattle.cc_lower_accesses.specs.Modes.{as_locals, operand_of, effect_of};
ghost use Rattle.cc_eval.specs.CcSyntax.Sizes.{AreSized};

use crate::operands;
use cc_lower_accesses::Body;
use cc_program::num::{Name, NoMemory};
use cc_program::{CType, Expr, Stmt};

/// What an operand becomes, before operands that assign these registers.
pub fn operand<'p>(
    body: Body<'p>,
    e: &'p Expr,
    later: &[u32],
    locals: &mut Vec<(Name, CType)>,
    out: &mut Vec<Stmt>,
) -> Result<Expr, NoMemory>
    requires sized { AreSized body.program.now.structures body.program.now.target }
    requires kept { AreKept body.func.now body.registers.now }
    ensures value { IfOk result (λ v. v ≡ (operand_of body.entry.program.now body.entry.func.now e.now (among later.now) (length locals.old.items)).value) }
    ensures locals { OnOk result (locals.new.items ≡ locals.old.items ++ as_locals (operand_of body.entry.program.now body.entry.func.now e.now (among later.now) (length locals.old.items)).temps) }
    ensures statements { OnOk result (out.new.items ≡ out.old.items ++ (operand_of body.entry.program.now body.entry.func.now e.now (among later.now) (length locals.old.items)).stmts) }
{
    operands::operand(body, e, later, locals, out)
}

/// What an expression statement becomes, before operands that assign these registers.
pub fn effect<'p>(
    body: Body<'p>,
    e: &'p Expr,
    later: &[u32],
    locals: &mut Vec<(Name, CType)>,
    out: &mut Vec<Stmt>,
) -> Result<(), NoMemory>
    requires sized { AreSized body.program.now.structures body.program.now.target }
    requires kept { AreKept body.func.now body.registers.now }
    ensures locals { OnOk result (locals.new.items ≡ locals.old.items ++ as_locals (effect_of body.entry.program.now body.entry.func.now e.now (among later.now) (length locals.old.items)).temps) }
    ensures statements { OnOk result (out.new.items ≡ out.old.items ++ (effect_of body.entry.program.now body.entry.func.now e.now (among later.now) (length locals.old.items)).stmts) }
{
    operands::effect(body, e, later, locals, out)
}
