//! `switch` (C99 6.8.4.2): of an integer, over a block in which a label comes first.

ghost use Rattle.std.specs.Prelude.{◌≡◌, IfOk};
ghost use Rattle.cc_typed_statements.specs.Switch.{switch_type as switch_type_of, cases_of, switch_of};
ghost use Rattle.cc_operands.specs.Operands.{converted_to as converted_to_of};
ghost use Rattle.cc_operands.specs.Verdicts.{Judges};
ghost use Rattle.cc_operands.specs.View.{operand_view, type_view};

use crate::statements::sole_statement;
use crate::switch_cases::SwitchCases;
use cc_operands::syntax::{Case, Stmt};
use cc_operands::typed_crate::same_int;
use cc_operands::{Breach, Operand, OperandType, Rule, cast_to};
use cc_program::num::{IntType, List, NoMemory, Target, promote};
use std::alloc::Global;

/// The type in which the operand of a `switch` is compared with the labels.
pub fn switch_type(target: &Target, t: &OperandType) -> IntType
    ensures { result ≡ switch_type_of target.now (type_view t.now) }
{
    match t {
        OperandType::Integer(t) => promote(*t, target),
        _ => IntType::Int,
    }
}

/// An integer in a type; in its own it stays as it is.
fn converted_to(alloc: Global, target: &Target, t: IntType, x: Operand) -> Result<Operand, NoMemory>
    ensures { IfOk result (λ r. operand_view r ≡ converted_to_of target.now t (operand_view x)) }
{
    let OperandType::Integer(s) = &x.ctype else {
        return Ok(x);
    };
    if same_int(*s, t) {
        Ok(x)
    } else {
        cast_to(alloc, target, t, x)
    }
}

/// The cases of a body, which is a block and has no statement in front of the first label.
fn listed(cases: Option<SwitchCases>) -> Result<List<Case>, Rule>
    ensures { result ≡ cases_of cases }
{
    match cases {
        None => Err(Rule::Switch),
        Some(cases) => {
            let cases = cases.into_cases();
            if cases.statement_first {
                Err(Rule::Switch)
            } else {
                Ok(cases.cases)
            }
        }
    }
}

/// A `switch` of this operand, over a body with these cases; None where the body is no block.
pub fn switch_statement(
    alloc: Global,
    target: &Target,
    x: Operand,
    cases: Option<SwitchCases>,
) -> Result<List<Stmt>, Breach>
    ensures { Judges (λ ss. ss) result (switch_of target.now (operand_view x) cases) }
{
    if x.is_void() {
        return Err(Breach::Breaks(Rule::VoidUsed));
    }
    if !x.ctype.is_integer() {
        return Err(Breach::Breaks(Rule::Switch));
    }
    match listed(cases) {
        Err(rule) => Err(Breach::Breaks(rule)),
        Ok(cases) => {
            let t = switch_type(target, &x.ctype);
            let x = converted_to(alloc, target, t, x)?;
            sole_statement(alloc, Stmt::Switch(x.value, cases))
        }
    }
}
