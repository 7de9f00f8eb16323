//! The expressions that stand in statements.

ghost use Rattle.std.specs.Prelude.{option_map};
ghost use Rattle.cc_terms.specs.CcOperands.View.{operand_view};
ghost use Rattle.cc_scopes.specs.Outcomes.{Gives};
ghost use Rattle.cc_scopes.specs.Verdicts.{maybe_found};
ghost use Rattle.cc_scopes.specs.View.{state_of};
ghost use Rattle.cc_typed_bodies.specs.Parts.{value_here as value_here_of, effect_found};

use crate::function::Function;
use cc_program::num::Boxed;
use cc_scopes::{State, Stop, placed};
use cc_terms::operands::Operand;
use cc_terms::syntax::Expr;
use cc_terms::value;
use cc_tree::{At, Tree};
use cc_typed_statements::effect;
use std::alloc::Global;

/// The value of an expression.
#[tactic(auto, unfolding(crate::specs::Parts::value_here))]
pub fn value_here(
    e: &Boxed<At<Tree>>,
    alloc: Global,
    f: Function<'_>,
    state: &mut State,
) -> Result<Operand, Stop>
    ensures { Gives operand_view result (state_of state.new) (value_here_of f.entry.target.now f.entry.roles.now e.now (state_of state.old)) }
{
    value(e.get(), alloc, f.target, f.roles, state)
}

/// The value of an expression, where there is one.
pub fn maybe_value(
    e: &Option<Boxed<At<Tree>>>,
    alloc: Global,
    f: Function<'_>,
    state: &mut State,
) -> Result<Option<Operand>, Stop>
    ensures { Gives (option_map operand_view) result (state_of state.new) (maybe_found (value_here_of f.entry.target.now f.entry.roles.now) e.now (state_of state.old)) }
{
    match e {
        None => Ok(None),
        Some(e) => {
            let x = value_here(e, alloc, f, state)?;
            Ok(Some(x))
        }
    }
}

/// An expression for what it does (C99 6.8.3).
#[tactic(auto, using(cc_scopes::proofs::Outcomes::of_outcomes), unfolding(crate::specs::Parts::effect_found))]
pub fn effect_here(
    e: &Boxed<At<Tree>>,
    alloc: Global,
    f: Function<'_>,
    state: &mut State,
) -> Result<Boxed<Expr>, Stop>
    ensures { Gives (λ e. e) result (state_of state.new) (effect_found f.entry.target.now f.entry.roles.now e.now (state_of state.old)) }
{
    let x = value_here(e, alloc, f, state)?;
    placed(e.get().at, effect(x))
}

/// An expression for what it does, where there is one.
pub fn maybe_effect(
    e: &Option<Boxed<At<Tree>>>,
    alloc: Global,
    f: Function<'_>,
    state: &mut State,
) -> Result<Option<Boxed<Expr>>, Stop>
    ensures { Gives (λ e. e) result (state_of state.new) (maybe_found (effect_found f.entry.target.now f.entry.roles.now) e.now (state_of state.old)) }
{
    match e {
        None => Ok(None),
        Some(e) => {
            let e = effect_here(e, alloc, f, state)?;
            Ok(Some(e))
        }
    }
}
