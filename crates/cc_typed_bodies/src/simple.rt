//! Statements that have no other in them (C99 6.8.3, 6.8.6.4).

ghost use Rattle.cc_scopes.specs.Outcomes.{Gives};
ghost use Rattle.cc_scopes.specs.View.{state_of};
ghost use Rattle.cc_typed_bodies.specs.Parts.{expression_found, return_found};

use crate::expressions::{effect_here, maybe_value};
use crate::function::Function;
use cc_program::num::{Boxed, List};
use cc_scopes::{State, Stop, placed};
use cc_terms::syntax::Stmt;
use cc_tree::{At, Tree};
use cc_typed_statements::{one, returned};
use std::alloc::Global;

/// An expression for what it does, or an empty statement (C99 6.8.3).
#[tactic(auto, unfolding(crate::specs::Parts::expression_found))]
pub fn expression_statement(
    e: &Option<Boxed<At<Tree>>>,
    alloc: Global,
    f: Function<'_>,
    state: &mut State,
) -> Result<List<Stmt>, Stop>
    ensures { Gives (λ ss. ss) result (state_of state.new) (expression_found f.entry.target.now f.entry.roles.now e.now (state_of state.old)) }
{
    match e {
        None => Ok(one(alloc, Stmt::Empty)?),
        Some(e) => {
            let e = effect_here(e, alloc, f, state)?;
            Ok(one(alloc, Stmt::Do(e))?)
        }
    }
}

/// `return` (C99 6.8.6.4).
#[tactic(auto, using(cc_scopes::proofs::Outcomes::of_outcomes), unfolding(crate::specs::Parts::return_found))]
pub fn return_statement(
    at: u32,
    e: &Option<Boxed<At<Tree>>>,
    alloc: Global,
    f: Function<'_>,
    state: &mut State,
) -> Result<List<Stmt>, Stop>
    ensures { Gives (λ ss. ss) result (state_of state.new) (return_found f.entry.target.now f.entry.roles.now f.entry.result.now e.now at (state_of state.old)) }
{
    let x = maybe_value(e, alloc, f, state)?;
    placed(at, returned(alloc, f.target, f.result, x))
}
