//! `switch`, inside its scope (C99 6.8.4.2).

ghost use Rattle.cc_scopes.specs.Outcomes.{Gives};
ghost use Rattle.cc_scopes.specs.View.{state_of};
ghost use Rattle.cc_typed_bodies.specs.Lines.{switch_found, line_here};
ghost use Rattle.cc_typed_bodies.specs.Meanings.{switch_body as switch_body_of};

use crate::expressions::value_here;
use crate::function::Function;
use crate::scopes::{enter, leave};
use crate::switched::switched;
use cc_program::num::{Boxed, IntType, List};
use cc_scopes::{State, Stop, placed};
use cc_terms::syntax::Stmt;
use cc_tree::{At, Line, Tree};
use cc_typed_statements::{Jumps, SwitchCases, switch_statement, switch_type};
use std::alloc::Global;

/// The body of a `switch`, in a scope of its own.
#[cycle(lines)]
#[tactic(auto, using(crate::proofs::Parts::of_scopes))]
fn switch_body(
    a: &At<Line>,
    jumps: Jumps,
    t: IntType,
    alloc: Global,
    f: Function<'_>,
    state: &mut State,
) -> Result<Option<SwitchCases>, Stop>
    ensures { Gives (λ cs. cs) result (state_of state.new) (switch_body_of jumps t (line_here f.entry.target.now f.entry.roles.now f.entry.defined.now f.entry.result.now a.now) (state_of state.old)) }
{
    enter(alloc, state)?;
    let cases = switched(&a.node, a.at, jumps, t, alloc, f, state);
    leave(alloc, state);
    cases
}

/// `switch` (C99 6.8.4.2).
#[cycle(lines)]
#[tactic(auto, using(cc_scopes::proofs::Outcomes::of_outcomes), unfolding(crate::specs::Lines::switch_found))]
pub fn switch_inside(
    at: u32,
    a: &At<Line>,
    e: &Boxed<At<Tree>>,
    jumps: Jumps,
    alloc: Global,
    f: Function<'_>,
    state: &mut State,
) -> Result<List<Stmt>, Stop>
    ensures { Gives (λ ss. ss) result (state_of state.new) (switch_found f.entry.target.now f.entry.roles.now e.now (line_here f.entry.target.now f.entry.roles.now f.entry.defined.now f.entry.result.now a.now) jumps at (state_of state.old)) }
{
    let x = value_here(e, alloc, f, state)?;
    let t = switch_type(f.target, &x.ctype);
    let cases = switch_body(a, jumps.in_switch(), t, alloc, f, state)?;
    placed(at, switch_statement(alloc, f.target, x, cases))
}
