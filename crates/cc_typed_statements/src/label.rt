//! Labels of a `switch`: each is a constant, converted to the type of the switch, and stands once (C99 6.8.4.2, 3 and 5).

ghost use Rattle.std.specs.Prelude.{◌≡◌};
ghost use Rattle.cc_typed_statements.specs.Labels.{label_in as label_in_of, once as once_of, case_label as case_label_of, default_label as default_label_of, label_done as label_done_of};
ghost use Rattle.cc_operands.specs.Verdicts.{Judges};
ghost use Rattle.cc_operands.specs.View.{constant_view, operand_view};

use crate::switch_cases::SwitchCases;
use cc_operands::{Breach, Constant, Operand, Rule};
use cc_program::num::{IntType, Target, convert};

/// A label that stands in no case yet.
fn once(cases: &SwitchCases, label: Option<i128>) -> Result<Option<i128>, Rule>
    ensures { result ≡ once_of cases.now label }
{
    if cases.has(label) {
        Err(Rule::CaseLabel)
    } else {
        Ok(label)
    }
}

/// The value of a constant as a label of a switch of this type.
fn label_in(target: &Target, t: IntType, constant: Constant) -> Result<Option<i128>, Rule>
    ensures { result ≡ label_in_of target.now t (constant_view constant) }
{
    match constant {
        Constant::NoConstant => Err(Rule::CaseLabel),
        Constant::Value(n) => Ok(Some(convert(n, t, target))),
        Constant::Traps => Err(Rule::ConstantTraps),
    }
}

/// `case x` behind these cases of a switch of this type.
pub fn case_label(
    target: &Target,
    t: IntType,
    x: &Operand,
    cases: &SwitchCases,
) -> Result<Option<i128>, Rule>
    ensures { result ≡ case_label_of target.now t (operand_view x.now) cases.now }
{
    let label = label_in(target, t, x.constancy())?;
    once(cases, label)
}

/// `default` behind these cases.
pub fn default_label(cases: &SwitchCases) -> Result<Option<i128>, Rule>
    ensures { result ≡ default_label_of cases.now }
{
    once(cases, None)
}

/// What stands behind a label, where that is not at fault.
pub fn label_done<T: Drop>(label: &Result<Option<i128>, Rule>, x: T) -> Result<T, Breach>
    ensures { Judges (λ x. x) result (label_done_of label.now x) }
{
    match label {
        Ok(_) => Ok(x),
        Err(rule) => Err(Breach::Breaks(*rule)),
    }
}
