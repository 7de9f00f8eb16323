//! Jumps: what `break`, `continue` and `return` may do where a statement stands (C99 6.8.6).

ghost use Rattle.std.specs.Prelude.{◌≡◌, IfOk, option_map};
ghost use Rattle.cc_typed_statements.specs.Jumps.{no_jumps, in_loop, in_switch, break_of, continue_of, returned_by as returned_by_of, returned as returned_of};
ghost use Rattle.cc_operands.specs.Verdicts.{Judges};
ghost use Rattle.cc_operands.specs.View.{operand_view, type_view};
ghost use Rattle.cc_operands.specs.CcSyntax.Values.{scalar_value as scalar_value_of};

use crate::statements::sole_statement;
use cc_operands::syntax::{CType, Stmt};
use cc_operands::typed_crate::{is_void, scalar_value};
use cc_operands::{Breach, Operand, OperandType, Rule, assigned, owned};
use cc_program::num::{List, NoMemory, Target};
use std::alloc::Global;

/// Whether `break` and `continue` may stand at a place.
#[derive(Clone, Copy)]
pub struct Jumps {
    pub breaks: bool,
    pub continues: bool,
}

impl Jumps {
    /// Outside of loops and of `switch`.
    pub fn none() -> Jumps
        ensures { result ≡ no_jumps }
    {
        Jumps {
            breaks: false,
            continues: false,
        }
    }

    /// In the body of a loop.
    pub fn in_loop(self) -> Jumps
        ensures { result ≡ in_loop self }
    {
        Jumps {
            breaks: true,
            continues: true,
        }
    }

    /// In the body of a `switch`.
    pub fn in_switch(self) -> Jumps
        ensures { result ≡ in_switch self }
    {
        Jumps {
            breaks: true,
            continues: self.continues,
        }
    }

    /// `break` (C99 6.8.6.3).
    pub fn to_break(self, alloc: Global) -> Result<List<Stmt>, Breach>
        ensures { Judges (λ ss. ss) result (break_of self) }
    {
        if self.breaks {
            sole_statement(alloc, Stmt::Break)
        } else {
            Err(Breach::Breaks(Rule::Break))
        }
    }

    /// `continue` (C99 6.8.6.2).
    pub fn to_continue(self, alloc: Global) -> Result<List<Stmt>, Breach>
        ensures { Judges (λ ss. ss) result (continue_of self) }
    {
        if self.continues {
            sole_statement(alloc, Stmt::Continue)
        } else {
            Err(Breach::Breaks(Rule::Continue))
        }
    }
}

fn returned_by(
    alloc: Global,
    target: &Target,
    x: Operand,
    to: Option<OperandType>,
) -> Result<List<Stmt>, Breach>
    ensures { Judges (λ ss. ss) result (returned_by_of target.now (operand_view x) (option_map type_view to)) }
{
    let Some(to) = to else {
        return Err(Breach::Breaks(Rule::ReturnValue));
    };
    let y = assigned(alloc, target, &to, x)?;
    sole_statement(alloc, Stmt::Return(Some(y.value)))
}

/// The type of a value that a function of such a result gives; None where it gives none.
fn given_type(alloc: Global, t: &CType) -> Result<Option<OperandType>, NoMemory>
    ensures { IfOk result (λ r. option_map type_view r ≡ scalar_value_of t.now) }
{
    match scalar_value(t) {
        None => Ok(None),
        Some(t) => Ok(Some(owned(alloc, t)?)),
    }
}

/// `return` in a function with such a result (C99 6.8.6.4).
pub fn returned(
    alloc: Global,
    target: &Target,
    t: &CType,
    x: Option<Operand>,
) -> Result<List<Stmt>, Breach>
    ensures { Judges (λ ss. ss) result (returned_of target.now t.now (option_map operand_view x)) }
{
    match x {
        None => {
            if is_void(t) {
                sole_statement(alloc, Stmt::Return(None))
            } else {
                Err(Breach::Breaks(Rule::ReturnValue))
            }
        }
        Some(x) => {
            if is_void(t) {
                Err(Breach::Breaks(Rule::ReturnValue))
            } else {
                let to = given_type(alloc, t)?;
                returned_by(alloc, target, x, to)
            }
        }
    }
}
