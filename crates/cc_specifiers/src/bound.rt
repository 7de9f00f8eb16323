//! The bound of an array (C99 6.7.5.2, 1).

ghost use Rattle.std.specs.Prelude.{◌≡◌};
ghost use Rattle.cc_operands.specs.Verdicts.{Judges};
ghost use Rattle.cc_operands.specs.View.{operand_view};
ghost use Rattle.cc_specifiers.specs.Bounds.{bound_by as bound_by_of, bound_judged as bound_judged_of};

use cc_operands::{Breach, Constant, Operand, Rule};

fn bound_by(n: i128) -> Result<u32, Breach>
    ensures { Judges (λ n. n) result (bound_by_of n) }
{
    if 1 <= n && n <= 65535 {
        Ok(n as u32)
    } else {
        Err(Breach::Breaks(Rule::ArrayBound))
    }
}

/// The bound of an array: a constant from 1 to 65,535 (C99 6.7.5.2, 1).
pub fn bound_judged(x: &Operand) -> Result<u32, Breach>
    ensures { Judges (λ n. n) result (bound_judged_of (operand_view x.now)) }
{
    match x.constancy() {
        Constant::NoConstant => Err(Breach::Breaks(Rule::ArrayBound)),
        Constant::Value(n) => bound_by(n),
        Constant::Traps => Err(Breach::Breaks(Rule::ConstantTraps)),
    }
}
