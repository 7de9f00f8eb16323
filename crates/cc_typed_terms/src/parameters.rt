//! Parameters of functions (C99 6.7.5.3).

ghost use Rattle.std.specs.Prelude.{◌≡◌, []};
ghost use Rattle.cc_scopes.specs.Outcomes.{Gives};
ghost use Rattle.cc_scopes.specs.View.{state_of};
ghost use Rattle.cc_scopes.specs.State.{empty};
ghost use Rattle.cc_typed_terms.specs.Parameters.{parameter_bound as parameter_bound_of};

use crate::names::new_name;
use cc_program::num::List;
use cc_scopes::operands::{Breach, Rule};
use cc_scopes::syntax::Roles;
use cc_scopes::{Designated, Scope, State, Stop, placed};
use cc_specifiers::Parameter;
use std::alloc::Global;

/// No parameters, in a scope of their own.
pub fn no_parameters(alloc: Global) -> (List<Parameter>, Scope)
    ensures { result ≡ ([], empty) }
{
    let scope = Scope::new(alloc);
    (List::of(Vec::new(alloc)), scope)
}

/// A parameter is declared where it has a name; in a function definition it has one (C99 6.9.1, 5).
#[tactic(auto, using(cc_scopes::proofs::Outcomes::of_outcomes))]
fn declare(
    alloc: Global,
    roles: &Roles,
    unnamed: bool,
    position: u32,
    p: &Parameter,
    state: &mut State,
) -> Result<(), Stop>
    ensures { Gives (λ done. p.now) result (state_of state.new) (parameter_bound_of roles.now unnamed position p.now (state_of state.old) p.now.name) }
{
    match &p.name {
        None => {
            if unnamed {
                Ok(())
            } else {
                placed(p.at, Err(Breach::Breaks(Rule::DeclaredTwice)))
            }
        }
        Some(x) => {
            placed(p.at, new_name(roles, x.all(), state))?;
            let t = p.ctype.copy(alloc)?;
            state.bind(alloc, x.all(), Designated::Automatic(position, t))?;
            Ok(())
        }
    }
}

/// A parameter is declared where it has a name; in a function definition it has one (C99 6.9.1, 5).
pub fn parameter_bound(
    alloc: Global,
    roles: &Roles,
    unnamed: bool,
    position: u32,
    p: Parameter,
    state: &mut State,
) -> Result<Parameter, Stop>
    ensures { Gives (λ p. p) result (state_of state.new) (parameter_bound_of roles.now unnamed position p (state_of state.old) p.name) }
{
    declare(alloc, roles, unnamed, position, &p, state)?;
    Ok(p)
}
