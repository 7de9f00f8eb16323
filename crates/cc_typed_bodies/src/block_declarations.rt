//! Declarations in a block, and what stands first in a `for` (C99 6.8.2, 6.8.5.3).

ghost use Rattle.std.specs.Prelude.{◌≡◌, IfOk, map};
ghost use Rattle.cc_program.specs.declared.stmt.Stmt.{Do as DoOf};
ghost use Rattle.cc_scopes.specs.Outcomes.{Gives};
ghost use Rattle.cc_scopes.specs.View.{state_of};
ghost use Rattle.cc_typed_bodies.specs.Parts.{declared_found, first_found};
ghost use Rattle.cc_typed_bodies.specs.Declarations.{declaration as declaration_of};

use crate::declaration;
use crate::expressions::maybe_effect;
use crate::function::Function;
use cc_program::num::{Boxed, List, NoMemory};
use cc_scopes::{State, Stop};
use cc_terms::specifiers_crate::Where;
use cc_terms::syntax::{Expr, Stmt};
use cc_tree::{At, Decl, First, Tree};
use cc_typed_statements::joined;
use std::alloc::Global;

/// The assignments of a declaration that stands at this place.
fn assignments(
    place: Where,
    d: &Decl,
    alloc: Global,
    f: Function<'_>,
    state: &mut State,
) -> Result<List<Expr>, Stop>
    ensures { Gives (λ es. es) result (state_of state.new) (declaration_of f.entry.target.now f.entry.roles.now f.entry.defined.now place d.now (state_of state.old)) }
{
    declaration(place, d, f.defined, alloc, f.target, f.roles, state)
}

/// Each assignment as a statement.
fn done(alloc: Global, assignments: List<Expr>) -> Result<List<Stmt>, NoMemory>
    ensures { IfOk result (λ r. r ≡ map DoOf assignments) }
{
    let mut statements = Vec::new(alloc);
    for e in assignments.into_vec() {
        let e = Boxed::new(alloc, e)?;
        statements.push(Stmt::Do(e))?;
    }
    Ok(List::of(statements))
}

/// A declaration in a block (C99 6.8.2).
#[tactic(auto, unfolding(crate::specs::Parts::declared_found))]
pub fn declared(
    d: &Decl,
    alloc: Global,
    f: Function<'_>,
    state: &mut State,
) -> Result<List<Stmt>, Stop>
    ensures { Gives (λ ss. ss) result (state_of state.new) (declared_found f.entry.target.now f.entry.roles.now f.entry.defined.now d.now (state_of state.old)) }
{
    let assignments = assignments(Where::InBlock, d, alloc, f, state)?;
    Ok(done(alloc, assignments)?)
}

/// What stands first in a `for` (C99 6.8.5.3).
#[tactic(auto, unfolding(crate::specs::Parts::first_found))]
pub fn first_here(
    first: &First,
    alloc: Global,
    f: Function<'_>,
    state: &mut State,
) -> Result<Option<Boxed<Expr>>, Stop>
    ensures { Gives (λ e. e) result (state_of state.new) (first_found f.entry.target.now f.entry.roles.now f.entry.defined.now first.now (state_of state.old)) }
{
    match first {
        First::Decl(d) => {
            let assignments = assignments(Where::InFor, d, alloc, f, state)?;
            Ok(joined(alloc, assignments)?)
        }
        First::Expr(e) => maybe_effect(e, alloc, f, state),
    }
}
