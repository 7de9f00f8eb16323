//! Assignments to what an expression designates (C99 6.5.16, 6.5.2.4, 6.5.3.1).

ghost use Rattle.cc_designators.specs.Assignments.{assign_to as assign_to_of, change_of as change_of_of, stepped_before as stepped_before_of, stepped_after as stepped_after_of};
ghost use Rattle.cc_designators.specs.View.{expr_view};
ghost use Rattle.cc_operands.specs.Verdicts.{Judges};
ghost use Rattle.cc_operands.specs.View.{operand_view};

use crate::designated::TypedExpr;
use cc_operands::syntax::Structure;
use cc_operands::{Breach, Operand, Rule, changed, integer, stepped, stored};
use cc_program::num::{BinOp, IntType, Target};
use std::alloc::Global;

/// `a = b` (C99 6.5.16.1).
pub fn assign_to(
    alloc: Global,
    target: &Target,
    a: TypedExpr,
    x: Operand,
) -> Result<Operand, Breach>
    ensures { Judges operand_view result (assign_to_of target.now (expr_view a) (operand_view x)) }
{
    let TypedExpr::Place(place, t) = a else {
        return Err(Breach::Breaks(Rule::NotModifiable));
    };
    let to = t.get().written(alloc)?;
    stored(alloc, target, place, to, x)
}

/// `a op= b` (C99 6.5.16.2).
pub fn change_of(
    alloc: Global,
    target: &Target,
    structures: &[Structure],
    op: BinOp,
    a: TypedExpr,
    x: Operand,
) -> Result<Operand, Breach>
    ensures { Judges operand_view result (change_of_of target.now structures.now op (expr_view a) (operand_view x)) }
{
    let TypedExpr::Place(place, t) = a else {
        return Err(Breach::Breaks(Rule::NotModifiable));
    };
    let to = t.get().written(alloc)?;
    changed(alloc, target, structures, op, place, to, x)
}

/// `++a`, and `--a` where the flag is set (C99 6.5.3.1).
pub fn stepped_before(
    alloc: Global,
    target: &Target,
    structures: &[Structure],
    down: bool,
    a: TypedExpr,
) -> Result<Operand, Breach>
    ensures { Judges operand_view result (stepped_before_of target.now structures.now down (expr_view a)) }
{
    let op = if down { BinOp::Sub } else { BinOp::Add };
    let one = integer(alloc, 1, IntType::Int)?;
    change_of(alloc, target, structures, op, a, one)
}

/// `a++`, and `a--` where the flag is set (C99 6.5.2.4).
pub fn stepped_after(
    alloc: Global,
    structures: &[Structure],
    down: bool,
    a: TypedExpr,
) -> Result<Operand, Breach>
    ensures { Judges operand_view result (stepped_after_of structures.now down (expr_view a)) }
{
    let TypedExpr::Place(place, t) = a else {
        return Err(Breach::Breaks(Rule::NotModifiable));
    };
    let to = t.get().written(alloc)?;
    stepped(alloc, structures, down, place, to)
}
