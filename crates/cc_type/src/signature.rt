//! What a function definition is judged by, and what it leaves known (C99 6.9.1).

ghost use Rattle.std.specs.Prelude.{◌≡◌, IfOk};
ghost use Rattle.std.specs.Option.{option_copied};
ghost use Rattle.cc_typed_bodies.specs.CcOperands.Verdicts.{Judges};
ghost use Rattle.cc_scopes.specs.Outcomes.{Gives};
ghost use Rattle.cc_scopes.specs.State.{State as Known};
ghost use Rattle.cc_scopes.specs.View.{state_of};
ghost use Rattle.cc_type.specs.Functions.{parameters_of as parameters_of_derivation, parameters_in as parameters_in_derivations, locals_of as locals_of_parameters, local_of as local_of_parameter, asked_by as asked_by_storage, signature_of as signature_of_type, definition_judged as definition_judged_of, definition_marks, entry_of as entry_of_declared, entry_at as entry_at_of};

use cc_program::num::{List, Name, NoMemory, at};
use cc_scopes::{Declared, Scope, State, Stop};
use cc_tree::{At, Attr};
use cc_typed_bodies::joined;
use cc_typed_bodies::lex::Word;
use cc_typed_bodies::linkage::DeclaredAs;
use cc_typed_bodies::objects_crate::function_judged;
use cc_typed_bodies::operands::{Breach, Rule};
use cc_typed_bodies::specifiers::{Attribute, Derivation, Entity, Parameter, attributes};
use cc_typed_bodies::syntax::{CType, Entry, Roles, Shape, Sig};
use cc_typed_bodies::unit::UnitKind;
use cc_typed_terms::{is_intrinsic, located};
use std::alloc::Global;

/// The parameters of a function, with their scope.
fn parameters_of(d: Derivation<Scope>) -> Result<(List<Parameter>, Scope), Rule>
    ensures { result ≡ parameters_of_derivation d }
{
    match d {
        Derivation::Function(parameters, scope) => Ok((parameters, scope)),
        Derivation::Pointer(_, _) => Err(Rule::NoObjectType),
        Derivation::Array(_) => Err(Rule::NoObjectType),
    }
}

/// The parameters of a declarator next to its name.
fn parameters_in(ds: List<At<Derivation<Scope>>>) -> Result<(List<Parameter>, Scope), Rule>
    ensures { result ≡ parameters_in_derivations ds }
{
    match ds.into_vec().into_iter().next() {
        None => Err(Rule::NoObjectType),
        Some(d) => parameters_of(d.node),
    }
}

/// The linkage that a definition asks for by its storage class.
pub fn asked_by(storage: Option<Word>) -> DeclaredAs
    ensures { result ≡ asked_by_storage storage }
{
    match storage {
        Some(Word::Static) => DeclaredAs::AsStatic,
        _ => DeclaredAs::AsExtern,
    }
}

/// The signature of a function's type.
pub fn signature_of(alloc: Global, t: &CType) -> Result<Sig, NoMemory>
    ensures { IfOk result (λ sig. sig ≡ signature_of_type t.now) }
{
    match &t.shape {
        Shape::Func(sig) => sig.get().copy(alloc),
        _ => Ok(Sig {
            result: CType {
                constant: false,
                volatile: false,
                shape: Shape::Void,
            },
            params: List::of(Vec::new(alloc)),
        }),
    }
}

/// The parameters of a definition, where it may stand here.
pub fn definition_judged(
    roles: &Roles,
    asked: DeclaredAs,
    name: &Name,
    t: &CType,
    ds: List<At<Derivation<Scope>>>,
    state: &State,
) -> Result<(List<Parameter>, Scope), Breach>
    ensures { Judges (λ ps. ps) result (definition_judged_of roles.now asked name.now t.now ds (state_of state.now)) }
{
    match parameters_in(ds) {
        Err(rule) => Err(Breach::Breaks(rule)),
        Ok(parameters) => {
            if is_intrinsic(roles, name.all()) {
                return Err(Breach::Breaks(Rule::MainOrIntrinsic));
            }
            function_judged(asked, name.all(), t, state)?;
            Ok(parameters)
        }
    }
}

fn local_of(alloc: Global, parameter: Parameter) -> (Name, CType)
    ensures { result ≡ local_of_parameter parameter }
{
    let Parameter { name, ctype, .. } = parameter;
    match name {
        None => (List::of(Vec::new(alloc)), ctype),
        Some(name) => (name, ctype),
    }
}

/// Parameters as the first objects of an activation.
pub fn locals_of(
    alloc: Global,
    parameters: List<Parameter>,
) -> Result<List<(Name, CType)>, NoMemory>
    ensures { IfOk result (λ locals. locals ≡ locals_of_parameters parameters) }
{
    let mut locals = Vec::new(alloc);
    for parameter in parameters.into_vec() {
        locals.push(local_of(alloc, parameter))?;
    }
    Ok(List::of(locals))
}

fn entry_of(d: Option<&Declared>) -> Option<Entry>
    ensures { result ≡ entry_of_declared (option_copied d.entry) }
{
    match d {
        None => None,
        Some(d) => match &d.kind {
            UnitKind::Func(entry, _) => *entry,
            _ => None,
        },
    }
}

/// How a function is a handler, by its attributes so far.
pub fn entry_at(id: u32, state: &State) -> Option<Entry>
    ensures { result ≡ entry_at_of id (state_of state.now) }
{
    entry_of(at(state.names(), id as usize))
}

/// The attributes of a definition: those of the specifiers, and behind them those of the declarator.
#[tactic(auto, using(cc_typed_terms::proofs::Placed::of_placed))]
pub fn marks_of(
    alloc: Global,
    before: &[At<List<Attribute>>],
    attrs: &[At<Attr>],
) -> Result<List<At<List<Attribute>>>, Stop>
    ensures { (s : Known) → Gives (λ ms. ms) result s (definition_marks before.now attrs.now s) }
{
    let marks = located(attributes(alloc, &[Entity::Function], attrs))?;
    Ok(joined(alloc, before, marks)?)
}
