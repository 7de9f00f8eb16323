//! Declarators (C99 6.7.5).

ghost use Rattle.std.specs.Prelude.{false};
ghost use Rattle.cc_typed_terms.specs.Located.{located as located_of};
ghost use Rattle.cc_typed_terms.specs.CcOperands.Verdicts.{Judges};
ghost use Rattle.cc_typed_terms.specs.CcOperands.View.{operand_view};
ghost use Rattle.cc_typed_terms.specs.Values.{value as value_and};
ghost use Rattle.cc_scopes.specs.Outcomes.{Gives};
ghost use Rattle.cc_scopes.specs.State.{State as Known};
ghost use Rattle.cc_scopes.specs.Verdicts.{and_then, whole};
ghost use Rattle.cc_scopes.specs.View.{state_of};
ghost use Rattle.cc_typed_terms.specs.CcSpecifiers.Derivations.{with_derivation as with_derivation_of, suffix_found as suffix_found_of};
ghost use Rattle.cc_terms.specs.Declarators.{without_bound as without_bound_of, with_bound as with_bound_of};
ghost use Rattle.cc_terms.specs.Terms.{declr_of, here};

use crate::parameters::params;
use crate::trees::boxed_operand;
use cc_program::num::{Boxed, Target};
use cc_scopes::{Scope, State, Stop, placed};
use cc_tree::{At, Declr, Tree};
use cc_typed_terms::operands::{Breach, Operand, Rule};
use cc_typed_terms::specifiers_crate::{Allowed, Derivation, bound_judged, pointer_derivation};
use cc_typed_terms::syntax::Roles;
use cc_typed_terms::{ScopedDeclarator, copied, declarator_of, is_next_to_name, suffix};
use std::alloc::Global;

/// With a derivation more.
fn derived(
    at: u32,
    d: ScopedDeclarator,
    derivation: Derivation<Scope>,
) -> Result<ScopedDeclarator, Breach>
    ensures { Judges (λ d. d) result (Ok (with_derivation_of at derivation d)) }
{
    Ok(d.with_derivation(at, derivation)?)
}

/// An array without a bound, which is missing next to the name alone (C99 6.7.5.2).
fn without_bound(at: u32, allowed: Allowed, d: ScopedDeclarator) -> Result<ScopedDeclarator, Breach>
    ensures { Judges (λ d. d) result (without_bound_of at allowed d) }
{
    if allowed.unbounded && is_next_to_name(&d) {
        derived(at, d, Derivation::Array(None))
    } else {
        Err(Breach::Breaks(Rule::ArrayBound))
    }
}

/// An array with this bound.
fn with_bound(at: u32, d: ScopedDeclarator, x: &Operand) -> Result<ScopedDeclarator, Breach>
    ensures { Judges (λ d. d) result (with_bound_of at d (operand_view x.now)) }
{
    let n = bound_judged(x)?;
    derived(at, d, Derivation::Array(Some(n)))
}

/// An array without a bound, behind other derivations.
#[tactic(auto, using(cc_scopes::proofs::Outcomes::of_outcomes))]
fn unbounded_array(at: u32, allowed: Allowed, d: ScopedDeclarator) -> Result<ScopedDeclarator, Stop>
    ensures { (s : Known) → Gives (λ d. d) result s (and_then (located_of s (suffix_found_of false d.derivations)) (λ done s. whole at s (without_bound_of at allowed d))) }
{
    suffix(false, &d)?;
    placed(at, without_bound(at, allowed, d))
}

/// An array with this bound, behind other derivations.
#[cycle(terms)]
#[tactic(auto, using(cc_scopes::proofs::Outcomes::of_outcomes))]
fn bounded_array(
    bound: &Boxed<At<Tree>>,
    at: u32,
    d: ScopedDeclarator,
    alloc: Global,
    target: &Target,
    roles: &Roles,
    state: &mut State,
) -> Result<ScopedDeclarator, Stop>
    ensures { Gives (λ d. d) result (state_of state.new) (and_then (located_of (state_of state.old) (suffix_found_of false d.derivations)) (λ done s. value_and (here target.now roles.now bound.now) s (λ n s. whole at s (with_bound_of at d n)))) }
{
    suffix(false, &d)?;
    let n = boxed_operand(bound, alloc, target, roles, state)?;
    placed(at, with_bound(at, d, &n))
}

/// A declarator that begins at this place (C99 6.7.5).
#[cycle(terms)]
#[tactic(auto, using(cc_scopes::proofs::Outcomes::of_outcomes, crate::proofs::Derived::of_derived), unfolding(crate::specs::Terms::declr_of, crate::specs::Terms::params_of, crate::specs::Terms::tree_of))]
pub fn declr(
    d: &Declr,
    at: u32,
    allowed: Allowed,
    alloc: Global,
    target: &Target,
    roles: &Roles,
    state: &mut State,
) -> Result<ScopedDeclarator, Stop>
    ensures { Gives (λ d. d) result (state_of state.new) (declr_of target.now roles.now d.now allowed at (state_of state.old)) }
{
    match d {
        Declr::Nothing => Ok(declarator_of(alloc, None)),
        Declr::Named(x) => {
            let x = copied(alloc, x.all())?;
            Ok(declarator_of(alloc, Some(x)))
        }
        Declr::Paren(d) => {
            let d = d.get();
            declr(&d.node, d.at, allowed, alloc, target, roles, state)
        }
        Declr::Pointer(words, d) => {
            let d = d.get();
            let x = declr(&d.node, d.at, allowed, alloc, target, roles, state)?;
            placed(at, derived(at, x, pointer_derivation(words.all())))
        }
        Declr::Array(d, bound) => {
            let d = d.get();
            let x = declr(&d.node, d.at, allowed, alloc, target, roles, state)?;
            match bound {
                None => unbounded_array(at, allowed, x),
                Some(e) => bounded_array(e, at, x, alloc, target, roles, state),
            }
        }
        Declr::Func(d, ps) => {
            let d = d.get();
            let x = declr(&d.node, d.at, allowed, alloc, target, roles, state)?;
            suffix(true, &x)?;
            let unnamed = allowed.unnamed || !is_next_to_name(&x);
            let (ps, scope) = params(ps, unnamed, alloc, target, roles, state)?;
            Ok(x.with_derivation(at, Derivation::Function(ps, scope))?)
        }
    }
}
