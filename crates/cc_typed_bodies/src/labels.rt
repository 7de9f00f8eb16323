//! Labels of a `switch` (C99 6.8.1).

ghost use Rattle.std.specs.Prelude.{ℤ};
ghost use Rattle.cc_scopes.specs.Outcomes.{Gives};
ghost use Rattle.cc_scopes.specs.View.{state_of};
ghost use Rattle.cc_typed_bodies.specs.Lines.{line_here, misplaced as misplaced_of, misplaced_case as misplaced_case_of, label_found, case_found};

use crate::blocks::line;
use crate::expressions::value_here;
use crate::function::Function;
use crate::switched::item;
use cc_program::num::{Boxed, IntType, List};
use cc_scopes::{State, Stop, placed};
use cc_terms::operands::{Breach, Rule};
use cc_terms::syntax::Stmt;
use cc_tree::{At, Line, Tree};
use cc_typed_statements::{Jumps, SwitchCases, case_label, label_done};
use std::alloc::Global;

/// A label elsewhere than in the body of a `switch` (C99 6.8.1, 2).
#[cycle(lines)]
#[tactic(auto, using(cc_scopes::proofs::Outcomes::of_outcomes), unfolding(crate::specs::Lines::misplaced))]
pub fn misplaced(
    at: u32,
    a: &At<Line>,
    jumps: Jumps,
    alloc: Global,
    f: Function<'_>,
    state: &mut State,
) -> Result<List<Stmt>, Stop>
    ensures { Gives (λ ss. ss) result (state_of state.new) (misplaced_of (line_here f.entry.target.now f.entry.roles.now f.entry.defined.now f.entry.result.now a.now) jumps at (state_of state.old)) }
{
    line(&a.node, a.at, jumps, alloc, f, state)?;
    placed(at, Err(Breach::Breaks(Rule::CaseLabel)))
}

/// `case` elsewhere than in the body of a `switch`.
#[cycle(lines)]
#[tactic(auto, unfolding(crate::specs::Lines::misplaced_case))]
pub fn misplaced_case(
    at: u32,
    a: &At<Line>,
    e: &Boxed<At<Tree>>,
    jumps: Jumps,
    alloc: Global,
    f: Function<'_>,
    state: &mut State,
) -> Result<List<Stmt>, Stop>
    ensures { Gives (λ ss. ss) result (state_of state.new) (misplaced_case_of f.entry.target.now f.entry.roles.now e.now (line_here f.entry.target.now f.entry.roles.now f.entry.defined.now f.entry.result.now a.now) jumps at (state_of state.old)) }
{
    value_here(e, alloc, f, state)?;
    misplaced(at, a, jumps, alloc, f, state)
}

/// What stands behind a label of these cases.
#[cycle(lines)]
#[tactic(auto, using(cc_scopes::proofs::Outcomes::of_outcomes), unfolding(crate::specs::Lines::label_found))]
pub fn labelled(
    label: Result<Option<i128>, Rule>,
    a: &At<Line>,
    at: u32,
    jumps: Jumps,
    t: IntType,
    cases: SwitchCases,
    alloc: Global,
    f: Function<'_>,
    state: &mut State,
) -> Result<SwitchCases, Stop>
    ensures { Gives (λ cs. cs) result (state_of state.new) (label_found label (line_here f.entry.target.now f.entry.roles.now f.entry.defined.now f.entry.result.now a.now) jumps t cases at (state_of state.old)) }
{
    let cases = cases.behind_label(alloc, &label)?;
    let cases = item(&a.node, a.at, jumps, t, cases, alloc, f, state)?;
    placed(at, label_done(&label, cases))
}

/// `case` at the top level of the body of a `switch`.
#[cycle(lines)]
#[tactic(auto, unfolding(crate::specs::Lines::case_found))]
pub fn case_item(
    a: &At<Line>,
    e: &Boxed<At<Tree>>,
    at: u32,
    jumps: Jumps,
    t: IntType,
    cases: SwitchCases,
    alloc: Global,
    f: Function<'_>,
    state: &mut State,
) -> Result<SwitchCases, Stop>
    ensures { Gives (λ cs. cs) result (state_of state.new) (case_found f.entry.target.now f.entry.roles.now e.now (line_here f.entry.target.now f.entry.roles.now f.entry.defined.now f.entry.result.now a.now) jumps t cases at (state_of state.old)) }
{
    let x = value_here(e, alloc, f, state)?;
    let label = case_label(f.target, t, &x, &cases);
    labelled(label, a, at, jumps, t, cases, alloc, f, state)
}
