//! sizeof (C99 6.5.3.4).

ghost use Rattle.cc_designators.specs.View.{designated_view, expr_view};
ghost use Rattle.cc_scopes.specs.CcOperands.Verdicts.{Judges};
ghost use Rattle.cc_scopes.specs.CcOperands.View.{operand_view};
ghost use Rattle.cc_scopes.specs.View.{state_of};
ghost use Rattle.cc_typed_terms.specs.Sizes.{size_of_type as size_of_type_of, size_of_place as size_of_place_of, sizeof_judged};
ghost use Rattle.cc_typed_terms.specs.Values.{found_value};

use cc_designators::{DesignatedType, TypedExpr, size_value, valued};
use cc_program::num::Target;
use cc_scopes::State;
use cc_scopes::operands::{Breach, Operand, Rule, type_of_value};
use cc_scopes::syntax::CType;
use cc_specifiers::object_size;
use std::alloc::Global;

/// The size of a type: none that an object may not have is one that size_t holds.
#[tactic(auto, using(crate::proofs::Sizing::of_sizes))]
fn type_size(alloc: Global, target: &Target, state: &State, t: &CType) -> Result<Operand, Breach>
    ensures { Judges operand_view result (size_of_type_of target.now (state_of state.now) t.now) }
{
    match object_size(t, state.structures(), state.layouts(), target) {
        None => Err(Breach::Breaks(Rule::SizeOf)),
        Some(size) => size_value(alloc, target, size),
    }
}

fn place_size(
    alloc: Global,
    target: &Target,
    state: &State,
    t: &DesignatedType,
) -> Result<Operand, Breach>
    ensures { Judges operand_view result (size_of_place_of target.now (state_of state.now) (designated_view t.now)) }
{
    match t {
        DesignatedType::Object(_, _, t) => type_size(alloc, target, state, t.get()),
        DesignatedType::Device(_, t) => size_value(alloc, target, u64::from(t.bytes(target))),
        DesignatedType::Function(_) => Err(Breach::Breaks(Rule::SizeOf)),
    }
}

/// The size of what an expression designates.
fn size_of(alloc: Global, target: &Target, state: &State, x: &TypedExpr) -> Result<Operand, Breach>
    ensures { Judges operand_view result (sizeof_judged target.now (state_of state.now) (expr_view x.now)) }
{
    match x {
        TypedExpr::Place(place, t) => {
            if state.is_unfinished(place.get()) {
                Err(Breach::Breaks(Rule::SizeOf))
            } else {
                place_size(alloc, target, state, t.get())
            }
        }
        TypedExpr::Value(x) => {
            let t = type_of_value(alloc, &x.get().ctype)?;
            type_size(alloc, target, state, &t)
        }
        TypedExpr::Function(_, _) => Err(Breach::Breaks(Rule::SizeOf)),
        TypedExpr::Intrinsic(_, _) => Err(Breach::Breaks(Rule::MainOrIntrinsic)),
        TypedExpr::Address(_, t, _) => type_size(alloc, target, state, t.get()),
    }
}

/// `sizeof a`.
pub fn sizeof_expr(
    alloc: Global,
    target: &Target,
    state: &State,
    x: &TypedExpr,
) -> Result<TypedExpr, Breach>
    ensures { Judges expr_view result (found_value (sizeof_judged target.now (state_of state.now) (expr_view x.now))) }
{
    let value = size_of(alloc, target, state, x)?;
    Ok(valued(alloc, value)?)
}

/// `sizeof (t)`.
pub fn sizeof_type_expr(
    alloc: Global,
    target: &Target,
    state: &State,
    t: &CType,
) -> Result<TypedExpr, Breach>
    ensures { Judges expr_view result (found_value (size_of_type_of target.now (state_of state.now) t.now)) }
{
    let value = type_size(alloc, target, state, t)?;
    Ok(valued(alloc, value)?)
}
