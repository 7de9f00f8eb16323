//! Statements and declarations, where they stand in a block (C99 6.8.2).

ghost use Rattle.std.specs.Prelude.{◌≡◌, ◌++◌, OnOk, map};
ghost use Rattle.cc_scopes.specs.Outcomes.{Gives};
ghost use Rattle.cc_scopes.specs.View.{state_of};
ghost use Rattle.cc_tree.specs.declared.unit.Line.{out-Line};
ghost use Rattle.cc_typed_bodies.specs.Lines.{line_of, line_here};
ghost use Rattle.cc_typed_bodies.specs.Meanings.{opens_scope as opens_scope_of, lines_found, block_found, body_found, body_inside as body_inside_of};

use crate::block_declarations::declared;
use crate::choices::switch_inside;
use crate::expressions::value_here;
use crate::function::Function;
use crate::labels::{misplaced, misplaced_case};
use crate::loops::{do_inside, for_inside, while_inside};
use crate::scopes::{enter, leave};
use crate::simple::{expression_statement, return_statement};
use cc_program::num::{List, NoMemory};
use cc_scopes::{State, Stop, placed};
use cc_terms::syntax::Stmt;
use cc_tree::{At, Line};
use cc_typed_statements::{Jumps, body_of, if_statement, one};
use std::alloc::Global;

/// Whether a line has a scope of its own (C99 6.8.2; 6.8.4, 3; 6.8.5, 5).
fn opens_scope(l: &Line) -> bool
    ensures { result ≡ opens_scope_of (out-Line l.now) }
{
    matches!(
        l,
        Line::Block(_)
            | Line::If(_, _, _)
            | Line::While(_, _)
            | Line::DoWhile(_, _)
            | Line::For(_, _, _, _)
            | Line::Switch(_, _)
    )
}

/// A statement or a declaration that begins at this place.
#[cycle(lines)]
#[tactic(auto, using(crate::proofs::Equations::of_scoped_lines))]
pub fn line(
    l: &Line,
    at: u32,
    jumps: Jumps,
    alloc: Global,
    f: Function<'_>,
    state: &mut State,
) -> Result<List<Stmt>, Stop>
    ensures { Gives (λ ss. ss) result (state_of state.new) ((line_of f.entry.target.now f.entry.roles.now f.entry.defined.now f.entry.result.now l.now).line jumps at (state_of state.old)) }
{
    if !opens_scope(l) {
        return inside(l, at, jumps, alloc, f, state);
    }
    enter(alloc, state)?;
    let statements = inside(l, at, jumps, alloc, f, state);
    leave(alloc, state);
    statements
}

/// A line inside its scope.
#[cycle(lines)]
#[tactic(auto, using(cc_scopes::proofs::Outcomes::of_outcomes), unfolding(crate::specs::Lines::line_of, crate::specs::Lines::if_found))]
fn inside(
    l: &Line,
    at: u32,
    jumps: Jumps,
    alloc: Global,
    f: Function<'_>,
    state: &mut State,
) -> Result<List<Stmt>, Stop>
    ensures { Gives (λ ss. ss) result (state_of state.new) ((line_of f.entry.target.now f.entry.roles.now f.entry.defined.now f.entry.result.now l.now).inside jumps at (state_of state.old)) }
{
    match l {
        Line::Block(ls) => block_inside(ls, jumps, alloc, f, state),
        Line::Decl(d) => declared(d, alloc, f, state),
        Line::Expr(e) => expression_statement(e, alloc, f, state),
        Line::If(e, a, b) => {
            let x = value_here(e, alloc, f, state)?;
            let these = body(a.get(), jumps, alloc, f, state)?;
            match b {
                None => placed(at, if_statement(alloc, x, these, List::of(Vec::new(alloc)))),
                Some(b) => {
                    let those = body(b.get(), jumps, alloc, f, state)?;
                    placed(at, if_statement(alloc, x, these, those))
                }
            }
        }
        Line::While(e, a) => while_inside(at, a.get(), e, jumps, alloc, f, state),
        Line::DoWhile(a, e) => do_inside(at, a.get(), e, jumps, alloc, f, state),
        Line::For(first, test, step, a) => {
            for_inside(at, a.get(), first, test, step, jumps, alloc, f, state)
        }
        Line::Switch(e, a) => switch_inside(at, a.get(), e, jumps, alloc, f, state),
        Line::Case(e, a) => misplaced_case(at, a.get(), e, jumps, alloc, f, state),
        Line::Default(a) => misplaced(at, a.get(), jumps, alloc, f, state),
        Line::Break => placed(at, jumps.to_break(alloc)),
        Line::Continue => placed(at, jumps.to_continue(alloc)),
        Line::Return(e) => return_statement(at, e, alloc, f, state),
    }
}

/// The lines of a block, as one statement.
#[cycle(lines)]
#[tactic(auto, unfolding(crate::specs::Meanings::block_found))]
fn block_inside(
    ls: &List<At<Line>>,
    jumps: Jumps,
    alloc: Global,
    f: Function<'_>,
    state: &mut State,
) -> Result<List<Stmt>, Stop>
    ensures { Gives (λ ss. ss) result (state_of state.new) (block_found jumps (map (line_here f.entry.target.now f.entry.roles.now f.entry.defined.now f.entry.result.now) ls.now) (state_of state.old)) }
{
    let statements = lines(ls, jumps, alloc, f, state)?;
    Ok(one(alloc, Stmt::Block(statements))?)
}

fn append(more: List<Stmt>, statements: &mut Vec<Stmt>) -> Result<(), NoMemory>
    ensures { OnOk result (statements.new.items ≡ statements.old.items ++ more) }
{
    let mut more = more.into_vec();
    statements.append(&mut more)?;
    Ok(())
}

/// Lines one behind another.
#[cycle(lines)]
#[tactic(auto, using(cc_terms::proofs::InTurn::of_turns, crate::proofs::Parts::of_lines), unfolding(crate::specs::Meanings::lines_found))]
pub fn lines(
    ls: &List<At<Line>>,
    jumps: Jumps,
    alloc: Global,
    f: Function<'_>,
    state: &mut State,
) -> Result<List<Stmt>, Stop>
    ensures { Gives (λ ss. ss) result (state_of state.new) (lines_found jumps (map (line_here f.entry.target.now f.entry.roles.now f.entry.defined.now f.entry.result.now) ls.now) (state_of state.old)) }
{
    let mut statements = Vec::new(alloc);
    for l in ls.all() {
        let more = line(&l.node, l.at, jumps, alloc, f, state)?;
        append(more, &mut statements)?;
    }
    Ok(List::of(statements))
}

/// A statement in another, inside its scope.
#[cycle(lines)]
#[tactic(auto, unfolding(crate::specs::Meanings::body_inside))]
fn body_inside(
    a: &At<Line>,
    jumps: Jumps,
    alloc: Global,
    f: Function<'_>,
    state: &mut State,
) -> Result<List<Stmt>, Stop>
    ensures { Gives (λ ss. ss) result (state_of state.new) (body_inside_of jumps (line_here f.entry.target.now f.entry.roles.now f.entry.defined.now f.entry.result.now a.now) (state_of state.old)) }
{
    let statements = line(&a.node, a.at, jumps, alloc, f, state)?;
    Ok(body_of(statements)?)
}

/// A statement in another, which has a scope of its own.
#[cycle(lines)]
#[tactic(auto, using(crate::proofs::Parts::of_scopes))]
pub fn body(
    a: &At<Line>,
    jumps: Jumps,
    alloc: Global,
    f: Function<'_>,
    state: &mut State,
) -> Result<List<Stmt>, Stop>
    ensures { Gives (λ ss. ss) result (state_of state.new) (body_found jumps (line_here f.entry.target.now f.entry.roles.now f.entry.defined.now f.entry.result.now a.now) (state_of state.old)) }
{
    enter(alloc, state)?;
    let statements = body_inside(a, jumps, alloc, f, state);
    leave(alloc, state);
    statements
}
