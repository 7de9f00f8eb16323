//! Specifiers (C99 6.7.2), by what names and tags designate.

ghost use Rattle.std.specs.Prelude.{◌≡◌};
ghost use Rattle.std.specs.Option.{option_copied};
ghost use Rattle.cc_scopes.specs.CcOperands.Verdicts.{Judges};
ghost use Rattle.cc_scopes.specs.Outcomes.{Gives};
ghost use Rattle.cc_scopes.specs.View.{state_of};
ghost use Rattle.cc_typed_terms.specs.Specifiers.{begin as begin_of, type_named as type_named_of, marked as marked_of, structure_tag, enumeration_tag};

use cc_program::num::Name;
use cc_scopes::operands::{Breach, Rule};
use cc_scopes::{Designated, State, Stop, enumeration_named, placed, structure_named};
use cc_specifiers::{Specifier, attributes_in};
use cc_tree::{At, Attr, Spec};
use std::alloc::Global;

/// Where specifiers begin: at the first of them.
pub fn begin(xs: &[At<Spec>]) -> u32
    ensures { result ≡ begin_of xs.now }
{
    match xs {
        [] => 0,
        [x, ..] => x.at,
    }
}

/// The type that a name stands for.
pub fn type_named(alloc: Global, d: Option<&Designated>) -> Result<Specifier, Breach>
    ensures { Judges (λ x. x) result (type_named_of (option_copied d.entry)) }
{
    match d {
        Some(Designated::TypeNamed(t)) => Ok(Specifier::Type(t.copy(alloc)?)),
        Some(Designated::Linked(_)) => Err(Breach::Breaks(Rule::NoType)),
        Some(Designated::Automatic(_, _)) => Err(Breach::Breaks(Rule::NoType)),
        Some(Designated::Enumerator(_)) => Err(Breach::Breaks(Rule::NoType)),
        None => Err(Breach::Breaks(Rule::NoType)),
    }
}

/// What an attribute says.
pub fn marked(alloc: Global, a: &Attr) -> Result<Specifier, Breach>
    ensures { Judges (λ x. x) result (marked_of a.now) }
{
    let marks = attributes_in(alloc, a.words.all())?;
    Ok(Specifier::Attributes(marks))
}

/// `struct x`, as a specifier (C99 6.7.2.3).
#[tactic(auto, using(cc_scopes::proofs::Outcomes::of_outcomes))]
pub fn structure_tagged(
    alloc: Global,
    tag: &Option<Name>,
    at: u32,
    state: &mut State,
) -> Result<Specifier, Stop>
    ensures { Gives (λ x. x) result (state_of state.new) (structure_tag at tag.now (state_of state.old)) }
{
    match tag {
        Some(x) => {
            let t = structure_named(state, alloc, at, x)?;
            Ok(Specifier::Type(t))
        }
        None => placed(at, Err(Breach::Breaks(Rule::NoType))),
    }
}

/// `enum x`, as a specifier (C99 6.7.2.3).
#[tactic(auto, using(cc_scopes::proofs::Outcomes::of_outcomes))]
pub fn enumeration_tagged(tag: &Option<Name>, at: u32, state: &State) -> Result<Specifier, Stop>
    ensures { Gives (λ x. x) result (state_of state.now) (enumeration_tag at tag.now (state_of state.now)) }
{
    match tag {
        Some(x) => {
            let t = enumeration_named(state, at, x.all())?;
            Ok(Specifier::Type(t))
        }
        None => placed(at, Err(Breach::Breaks(Rule::NoType))),
    }
}
