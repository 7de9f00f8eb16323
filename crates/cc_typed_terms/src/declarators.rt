//! Declarators (C99 6.7.5).

ghost use Rattle.std.specs.Prelude.{◌≡◌, [], IfOk};
ghost use Rattle.cc_scopes.specs.Outcomes.{Gives};
ghost use Rattle.cc_scopes.specs.State.{State as Known};
ghost use Rattle.cc_scopes.specs.View.{state_of};
ghost use Rattle.cc_scopes.specs.Verdicts.{checked};
ghost use Rattle.cc_specifiers.specs.Derivations.{is_next_to_name as is_next_to_name_of, suffix_found as suffix_found_of};
ghost use Rattle.cc_typed_terms.specs.Declarators.{derived_type as derived_type_of};
ghost use Rattle.cc_typed_terms.specs.Located.{located as located_of};

use crate::places::located;
use cc_program::num::{List, Name, NoMemory, Target};
use cc_scopes::syntax::CType;
use cc_scopes::{Scope, State, Stop};
use cc_specifiers::{Allowed, Declarator, suffix_found, type_found};
use std::alloc::Global;

/// What a declarator declares.
pub type ScopedDeclarator = Declarator<Scope>;

/// A copy of a name.
pub fn copied(alloc: Global, name: &[u8]) -> Result<Name, NoMemory>
    ensures { IfOk result (λ x. x ≡ name.now) }
{
    let mut bytes = Vec::new(alloc);
    bytes.extend_from_slice(name)?;
    Ok(List::of(bytes))
}

/// A name, from which nothing is derived.
pub fn declarator_of(alloc: Global, name: Option<Name>) -> ScopedDeclarator
    ensures { result ≡ record { name = name; derivations = [] } }
{
    Declarator {
        name,
        derivations: List::of(Vec::new(alloc)),
    }
}

/// Whether nothing is derived so far.
pub fn is_next_to_name(d: &ScopedDeclarator) -> bool
    ensures { result ≡ is_next_to_name_of d.now.derivations }
{
    d.derivations.all().is_empty()
}

/// The type that a declarator derives from that of the specifiers.
#[tactic(auto, using(crate::proofs::Placed::of_placed))]
pub fn derived_type(
    alloc: Global,
    target: &Target,
    allowed: Allowed,
    base: CType,
    d: &ScopedDeclarator,
    state: &State,
) -> Result<CType, Stop>
    ensures { Gives (λ t. t) result (state_of state.now) (derived_type_of target.now allowed base d.now (state_of state.now)) }
{
    located(type_found(
        alloc,
        target,
        state.structures(),
        state.layouts(),
        allowed,
        base,
        d.derivations.all(),
    ))
}

/// Whether an array, or a function where the flag is set, may stand behind what is derived so far.
#[tactic(auto, using(crate::proofs::Placed::of_placed))]
pub fn suffix(function: bool, d: &ScopedDeclarator) -> Result<(), Stop>
    ensures { (s : Known) → Gives (λ done. checked) result s (located_of s (suffix_found_of function d.now.derivations)) }
{
    located(suffix_found(function, d.derivations.all()))
}
