//! The value of what an expression designates, where the expression stands (C99 6.3.2.1, 2 to 4).

ghost use Rattle.std.specs.Prelude.{◌≡◌};
ghost use Rattle.cc_designators.specs.View.{expr_view};
ghost use Rattle.cc_scopes.specs.CcOperands.Verdicts.{Judges};
ghost use Rattle.cc_scopes.specs.CcOperands.View.{operand_view};
ghost use Rattle.cc_scopes.specs.Outcomes.{Gives};
ghost use Rattle.cc_scopes.specs.State.{State as Known};
ghost use Rattle.cc_typed_terms.specs.Operators.{intrinsic_in as intrinsic_in_of};
ghost use Rattle.cc_typed_terms.specs.Values.{valued as valued_of, designating as designating_of, found_value, null_judged};

use cc_designators::{TypedExpr, null, value_at, valued};
use cc_program::num::Boxed;
use cc_scopes::operands::{Breach, Operand, OperandType, Rule, typed};
use cc_scopes::syntax::{CType, Expr, Intr};
use cc_scopes::{Stop, placed};
use std::alloc::Global;

/// What an integer constant that is cast to a pointer type is elsewhere than behind `*`: a null.
fn null_value(alloc: Global, n: i128, t: CType) -> Result<Operand, Breach>
    ensures { Judges operand_view result (null_judged n t) }
{
    if n == 0 {
        Ok(null(alloc, t)?)
    } else {
        Err(Breach::Breaks(Rule::Cast))
    }
}

fn null_expr(alloc: Global, n: i128, t: CType) -> Result<TypedExpr, Breach>
    ensures { Judges expr_view result (found_value (null_judged n t)) }
{
    let value = null_value(alloc, n, t)?;
    Ok(valued(alloc, value)?)
}

/// The value of what an expression designates that begins at this place.
#[tactic(auto, using(cc_scopes::proofs::Outcomes::of_outcomes))]
pub fn value_of(alloc: Global, at: u32, x: TypedExpr) -> Result<Operand, Stop>
    ensures { (s : Known) → Gives operand_view result s (valued_of at (expr_view x) s) }
{
    match x {
        TypedExpr::Place(place, t) => placed(at, value_at(alloc, place, t.into_inner())),
        TypedExpr::Value(x) => Ok(x.into_inner()),
        TypedExpr::Function(f, sig) => {
            let value = Boxed::new(alloc, Expr::FuncAddr(f))?;
            Ok(typed(value, OperandType::ToFunction(sig)))
        }
        TypedExpr::Intrinsic(_, place) => {
            placed(place, Err(Breach::Breaks(Rule::MainOrIntrinsic)))
        }
        TypedExpr::Address(n, t, place) => placed(place, null_value(alloc, n, t.into_inner())),
    }
}

/// An expression that is taken as what it designates: an intrinsic is only called, and a device is only behind `*`.
#[tactic(auto, using(cc_scopes::proofs::Outcomes::of_outcomes))]
pub fn designating(alloc: Global, x: TypedExpr) -> Result<TypedExpr, Stop>
    ensures { (s : Known) → Gives expr_view result s (designating_of (expr_view x) s) }
{
    match x {
        TypedExpr::Place(place, t) => Ok(TypedExpr::Place(place, t)),
        TypedExpr::Value(x) => Ok(TypedExpr::Value(x)),
        TypedExpr::Function(f, sig) => Ok(TypedExpr::Function(f, sig)),
        TypedExpr::Intrinsic(_, place) => {
            placed(place, Err(Breach::Breaks(Rule::MainOrIntrinsic)))
        }
        TypedExpr::Address(n, t, place) => placed(place, null_expr(alloc, n, t.into_inner())),
    }
}

/// The intrinsic that an expression is.
pub fn intrinsic_in(x: &TypedExpr) -> Option<Intr>
    ensures { result ≡ intrinsic_in_of (expr_view x.now) }
{
    match x {
        TypedExpr::Intrinsic(i, _) => Some(*i),
        TypedExpr::Place(_, _) => None,
        TypedExpr::Value(_) => None,
        TypedExpr::Function(_, _) => None,
        TypedExpr::Address(_, _, _) => None,
    }
}
