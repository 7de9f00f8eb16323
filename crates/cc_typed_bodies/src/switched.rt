//! The body of a `switch`, and the lines at its top level (C99 6.8.4.2).

ghost use Rattle.std.specs.Prelude.{◌≡◌, map};
ghost use Rattle.std.specs.List.{list_any};
ghost use Rattle.cc_objects.specs.Categories.{is_given as is_given_of};
ghost use Rattle.cc_scopes.specs.Outcomes.{Gives};
ghost use Rattle.cc_scopes.specs.State.{State as Known};
ghost use Rattle.cc_scopes.specs.View.{state_of};
ghost use Rattle.cc_tree.specs.declared.unit.Line.{out-Line};
ghost use Rattle.cc_typed_bodies.specs.Lines.{line_of, line_here};
ghost use Rattle.cc_typed_bodies.specs.Meanings.{scoped, items_found, cases_inside as cases_inside_of, not_switched, is_empty as is_empty_of, counts as counts_of, empty_item as empty_item_of, unlabelled as unlabelled_of};

use crate::blocks::line;
use crate::function::Function;
use crate::labels::{case_item, labelled};
use crate::scopes::{enter, leave};
use cc_objects::is_given;
use cc_program::num::{IntType, List};
use cc_scopes::{State, Stop};
use cc_terms::syntax::Stmt;
use cc_tree::{At, Init, Line};
use cc_typed_statements::{Jumps, SwitchCases, default_label, one};
use std::alloc::Global;

fn gives_a_value(inits: &[At<Init>]) -> bool
    ensures { result ≡ list_any is_given_of inits.now }
{
    inits.iter().any(|i| is_given(i))
}

/// Whether a line may not stand in front of the first label.
fn counts(l: &Line) -> bool
    ensures { result ≡ counts_of (out-Line l.now) }
{
    match l {
        Line::Decl(d) => gives_a_value(d.inits.all()),
        _ => true,
    }
}

/// Whether a line is an empty statement (C99 6.8.3, 3).
fn is_empty(l: &Line) -> bool
    ensures { result ≡ is_empty_of (out-Line l.now) }
{
    matches!(l, Line::Expr(None))
}

/// An empty statement behind these cases.
fn empty_item(cases: SwitchCases, alloc: Global) -> Result<SwitchCases, Stop>
    ensures { (s : Known) → Gives (λ cs. cs) result s (empty_item_of cases s) }
{
    let empty = one(alloc, Stmt::Empty)?;
    Ok(cases.behind_empty(alloc, empty)?)
}

/// A line as the body of a `switch`: its cases, where it is a block.
#[cycle(lines)]
#[tactic(auto, using(crate::proofs::Equations::of_others), unfolding(crate::specs::Lines::line_of))]
pub fn switched(
    l: &Line,
    at: u32,
    jumps: Jumps,
    t: IntType,
    alloc: Global,
    f: Function<'_>,
    state: &mut State,
) -> Result<Option<SwitchCases>, Stop>
    ensures { Gives (λ cs. cs) result (state_of state.new) ((line_of f.entry.target.now f.entry.roles.now f.entry.defined.now f.entry.result.now l.now).switched jumps t at (state_of state.old)) }
{
    match l {
        Line::Block(ls) => block_cases(ls, jumps, t, alloc, f, state),
        _ => no_block(l, at, jumps, alloc, f, state),
    }
}

/// The body of a `switch` that is no block.
#[cycle(lines)]
#[tactic(auto, unfolding(crate::specs::Meanings::not_switched))]
fn no_block(
    l: &Line,
    at: u32,
    jumps: Jumps,
    alloc: Global,
    f: Function<'_>,
    state: &mut State,
) -> Result<Option<SwitchCases>, Stop>
    ensures { Gives (λ cs. cs) result (state_of state.new) (not_switched (line_of f.entry.target.now f.entry.roles.now f.entry.defined.now f.entry.result.now l.now).line jumps at (state_of state.old)) }
{
    line(l, at, jumps, alloc, f, state)?;
    Ok(None)
}

/// The cases of a block, in its scope.
#[cycle(lines)]
#[tactic(auto, using(crate::proofs::Parts::of_scopes))]
fn block_cases(
    ls: &List<At<Line>>,
    jumps: Jumps,
    t: IntType,
    alloc: Global,
    f: Function<'_>,
    state: &mut State,
) -> Result<Option<SwitchCases>, Stop>
    ensures { Gives (λ cs. cs) result (state_of state.new) (scoped (cases_inside_of jumps t (map (line_here f.entry.target.now f.entry.roles.now f.entry.defined.now f.entry.result.now) ls.now)) (state_of state.old)) }
{
    enter(alloc, state)?;
    let cases = cases_inside(ls, jumps, t, alloc, f, state);
    leave(alloc, state);
    cases
}

/// The cases of a block, inside its scope.
#[cycle(lines)]
#[tactic(auto, unfolding(crate::specs::Meanings::cases_inside))]
fn cases_inside(
    ls: &List<At<Line>>,
    jumps: Jumps,
    t: IntType,
    alloc: Global,
    f: Function<'_>,
    state: &mut State,
) -> Result<Option<SwitchCases>, Stop>
    ensures { Gives (λ cs. cs) result (state_of state.new) (cases_inside_of jumps t (map (line_here f.entry.target.now f.entry.roles.now f.entry.defined.now f.entry.result.now) ls.now) (state_of state.old)) }
{
    let cases = items(ls, jumps, t, alloc, f, state)?;
    Ok(Some(cases))
}

/// The lines at the top level of the body of a `switch`.
#[cycle(lines)]
#[tactic(auto, using(cc_terms::proofs::InTurn::of_turns), unfolding(crate::specs::Meanings::items_found))]
fn items(
    ls: &List<At<Line>>,
    jumps: Jumps,
    t: IntType,
    alloc: Global,
    f: Function<'_>,
    state: &mut State,
) -> Result<SwitchCases, Stop>
    ensures { Gives (λ cs. cs) result (state_of state.new) (items_found jumps t (map (line_here f.entry.target.now f.entry.roles.now f.entry.defined.now f.entry.result.now) ls.now) (state_of state.old)) }
{
    let mut cases = SwitchCases::none(alloc);
    for l in ls.all() {
        cases = item(&l.node, l.at, jumps, t, cases, alloc, f, state)?;
    }
    Ok(cases)
}

/// A line at the top level of the body of a `switch`, behind these cases.
#[cycle(lines)]
#[tactic(auto, using(crate::proofs::Equations::of_others), unfolding(crate::specs::Lines::line_of))]
pub fn item(
    l: &Line,
    at: u32,
    jumps: Jumps,
    t: IntType,
    cases: SwitchCases,
    alloc: Global,
    f: Function<'_>,
    state: &mut State,
) -> Result<SwitchCases, Stop>
    ensures { Gives (λ cs. cs) result (state_of state.new) ((line_of f.entry.target.now f.entry.roles.now f.entry.defined.now f.entry.result.now l.now).item jumps t cases at (state_of state.old)) }
{
    match l {
        Line::Case(e, a) => case_item(a.get(), e, at, jumps, t, cases, alloc, f, state),
        Line::Default(a) => {
            let label = default_label(&cases);
            labelled(label, a.get(), at, jumps, t, cases, alloc, f, state)
        }
        _ => unlabelled(l, at, jumps, cases, alloc, f, state),
    }
}

/// A line without a label behind these cases.
#[cycle(lines)]
#[tactic(auto, unfolding(crate::specs::Meanings::unlabelled))]
fn unlabelled(
    l: &Line,
    at: u32,
    jumps: Jumps,
    cases: SwitchCases,
    alloc: Global,
    f: Function<'_>,
    state: &mut State,
) -> Result<SwitchCases, Stop>
    ensures { Gives (λ cs. cs) result (state_of state.new) (unlabelled_of (is_empty_of (out-Line l.now)) (counts_of (out-Line l.now)) (line_of f.entry.target.now f.entry.roles.now f.entry.defined.now f.entry.result.now l.now).line jumps cases at (state_of state.old)) }
{
    if is_empty(l) {
        return empty_item(cases, alloc);
    }
    let statements = line(l, at, jumps, alloc, f, state)?;
    Ok(cases.behind(counts(l), statements)?)
}
