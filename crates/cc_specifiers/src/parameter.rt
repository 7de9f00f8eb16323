//! Parameters (C99 6.7.5.3, 7 and 8).

ghost use Rattle.std.specs.Prelude.{◌≡◌, IfOk};
ghost use Rattle.cc_operands.specs.Verdicts.{Judges};
ghost use Rattle.cc_specifiers.specs.Parameters.{adjusted as adjusted_of, parameter_type as parameter_type_of};

use crate::derived::plain;
use cc_operands::{Breach, Rule};
use cc_program::num::{Boxed, NoMemory};
use cc_syntax::{CType, Shape};
use std::alloc::Global;

/// The type of a parameter that is declared with one: an array becomes a pointer to its element, a function one to it.
pub fn adjusted(alloc: Global, t: CType) -> Result<CType, NoMemory>
    ensures { IfOk result (λ r. r ≡ adjusted_of t) }
{
    let CType {
        constant,
        volatile,
        shape,
    } = t;
    match shape {
        Shape::Array(of, _) => Ok(plain(Shape::Pointer(of))),
        Shape::Func(sig) => {
            let to = CType {
                constant,
                volatile,
                shape: Shape::Func(sig),
            };
            Ok(plain(Shape::Pointer(Boxed::new(alloc, to)?)))
        }
        shape => Ok(CType {
            constant,
            volatile,
            shape,
        }),
    }
}

/// The type of a parameter that is declared with one, which is a scalar.
pub fn parameter_type(alloc: Global, t: CType) -> Result<CType, Breach>
    ensures { Judges (λ u. u) result (parameter_type_of t) }
{
    let u = adjusted(alloc, t)?;
    match &u.shape {
        Shape::Struct(_) => Err(Breach::Breaks(Rule::StructureValue)),
        Shape::Void => Err(Breach::Breaks(Rule::NoObjectType)),
        _ => Ok(u),
    }
}
