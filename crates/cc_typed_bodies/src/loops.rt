//! Loops, inside their scope (C99 6.8.5).

ghost use Rattle.cc_scopes.specs.Outcomes.{Gives};
ghost use Rattle.cc_scopes.specs.View.{state_of};
ghost use Rattle.cc_typed_bodies.specs.Lines.{while_found, do_found, for_found, line_here};

use crate::block_declarations::first_here;
use crate::blocks::body;
use crate::expressions::{maybe_effect, maybe_value, value_here};
use crate::function::Function;
use cc_program::num::{Boxed, List};
use cc_scopes::{State, Stop, placed};
use cc_terms::syntax::Stmt;
use cc_tree::{At, First, Line, Tree};
use cc_typed_statements::{Jumps, do_statement, for_statement, while_statement};
use std::alloc::Global;

/// `while` (C99 6.8.5.1).
#[cycle(lines)]
#[tactic(auto, using(cc_scopes::proofs::Outcomes::of_outcomes), unfolding(crate::specs::Lines::while_found))]
pub fn while_inside(
    at: u32,
    a: &At<Line>,
    e: &Boxed<At<Tree>>,
    jumps: Jumps,
    alloc: Global,
    f: Function<'_>,
    state: &mut State,
) -> Result<List<Stmt>, Stop>
    ensures { Gives (λ ss. ss) result (state_of state.new) (while_found f.entry.target.now f.entry.roles.now e.now (line_here f.entry.target.now f.entry.roles.now f.entry.defined.now f.entry.result.now a.now) jumps at (state_of state.old)) }
{
    let x = value_here(e, alloc, f, state)?;
    let body = body(a, jumps.in_loop(), alloc, f, state)?;
    placed(at, while_statement(alloc, x, body))
}

/// `do` (C99 6.8.5.2).
#[cycle(lines)]
#[tactic(auto, using(cc_scopes::proofs::Outcomes::of_outcomes), unfolding(crate::specs::Lines::do_found))]
pub fn do_inside(
    at: u32,
    a: &At<Line>,
    e: &Boxed<At<Tree>>,
    jumps: Jumps,
    alloc: Global,
    f: Function<'_>,
    state: &mut State,
) -> Result<List<Stmt>, Stop>
    ensures { Gives (λ ss. ss) result (state_of state.new) (do_found f.entry.target.now f.entry.roles.now (line_here f.entry.target.now f.entry.roles.now f.entry.defined.now f.entry.result.now a.now) e.now jumps at (state_of state.old)) }
{
    let body = body(a, jumps.in_loop(), alloc, f, state)?;
    let x = value_here(e, alloc, f, state)?;
    placed(at, do_statement(alloc, body, x))
}

/// `for` (C99 6.8.5.3).
#[cycle(lines)]
#[tactic(auto, using(cc_scopes::proofs::Outcomes::of_outcomes), unfolding(crate::specs::Lines::for_found))]
pub fn for_inside(
    at: u32,
    a: &At<Line>,
    first: &Boxed<First>,
    test: &Option<Boxed<At<Tree>>>,
    step: &Option<Boxed<At<Tree>>>,
    jumps: Jumps,
    alloc: Global,
    f: Function<'_>,
    state: &mut State,
) -> Result<List<Stmt>, Stop>
    ensures { Gives (λ ss. ss) result (state_of state.new) (for_found f.entry.target.now f.entry.roles.now f.entry.defined.now first.now test.now step.now (line_here f.entry.target.now f.entry.roles.now f.entry.defined.now f.entry.result.now a.now) jumps at (state_of state.old)) }
{
    let first = first_here(first.get(), alloc, f, state)?;
    let test = maybe_value(test, alloc, f, state)?;
    let step = maybe_effect(step, alloc, f, state)?;
    let body = body(a, jumps.in_loop(), alloc, f, state)?;
    placed(at, for_statement(alloc, first, test, step, body))
}
