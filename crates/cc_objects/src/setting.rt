//! By what the specifiers of a declaration are judged, which is told in front of them (C99 6.7, 6.7.1).

ghost use Rattle.std.specs.Prelude.{◌≡◌, IfOk, map};
ghost use Rattle.std.specs.List.{list_any};
ghost use Rattle.std.specs.Option.{option_copied};
ghost use Rattle.cc_objects.specs.Categories.{category_of as category_of_declr, entity_of, entities_of, storage_class as storage_class_of, storage_at as storage_at_of, storage_in as storage_in_of, is_function_name as is_function_name_of, names_function as names_function_of, name_function as name_function_of, is_given as is_given_of, setting_of as setting_of_decl};
ghost use Rattle.cc_typed_terms.specs.CcOperands.Qualified.{is_function_type as is_function_type_of};
ghost use Rattle.cc_typed_terms.specs.CcScopes.View.{state_of};
ghost use Rattle.cc_tree.specs.declared.tree.Spec.{out-Spec};

use crate::category::category_of;
use cc_program::num::{List, NoMemory};
use cc_syntax::{CType, Shape};
use cc_tree::{At, Decl, Init, Spec};
use cc_typed_terms::lex::Word;
use cc_typed_terms::scopes::{Designated, State};
use cc_typed_terms::specifiers_crate::{Entity, Setting, Where};
use std::alloc::Global;

fn storage_class(word: Word) -> Option<Word>
    ensures { result ≡ storage_class_of word }
{
    match word {
        Word::Typedef => Some(Word::Typedef),
        Word::Extern => Some(Word::Extern),
        Word::Static => Some(Word::Static),
        Word::Auto => Some(Word::Auto),
        Word::Register => Some(Word::Register),
        _ => None,
    }
}

fn storage_at(spec: &Spec) -> Option<Word>
    ensures { result ≡ storage_at_of (out-Spec spec.now) }
{
    match spec {
        Spec::Word(word) => storage_class(*word),
        _ => None,
    }
}

/// The first storage class of specifiers.
pub fn storage_in(specs: &[At<Spec>]) -> Option<Word>
    ensures { result ≡ storage_in_of specs.now }
{
    for spec in specs {
        if let Some(word) = storage_at(&spec.node) {
            return Some(word);
        }
    }
    None
}

/// Whether a type is a function's.
pub fn is_function_type(t: &CType) -> bool
    ensures { result ≡ is_function_type_of t.now }
{
    match &t.shape {
        Shape::Func(_) => true,
        _ => false,
    }
}

fn is_function_name(d: Option<&Designated>) -> bool
    ensures { result ≡ is_function_name_of (option_copied d.entry) }
{
    match d {
        Some(Designated::TypeNamed(t)) => is_function_type(t),
        _ => false,
    }
}

fn names_function(state: &State, spec: &Spec) -> bool
    ensures { result ≡ names_function_of (state_of state.now) (out-Spec spec.now) }
{
    match spec {
        Spec::Named(x) => is_function_name(state.designated(x.all())),
        _ => false,
    }
}

/// Whether specifiers name a function's type, which a typedef alone does.
pub fn name_function(specs: &[At<Spec>], state: &State) -> bool
    ensures { result ≡ name_function_of specs.now (state_of state.now) }
{
    specs.iter().any(|spec| names_function(state, &spec.node))
}

/// Whether a declarator has an initialiser.
pub fn is_given(i: &At<Init>) -> bool
    ensures { result ≡ is_given_of i.now }
{
    i.node.value.is_some()
}

fn are_given(inits: &[At<Init>]) -> bool
    ensures { result ≡ list_any is_given_of inits.now }
{
    inits.iter().any(|i| is_given(i))
}

/// What attributes in front of declarators are said of.
fn entities(
    alloc: Global,
    place: Where,
    storage: Option<Word>,
    function: bool,
    inits: &[At<Init>],
) -> Result<List<Entity>, NoMemory>
    ensures { IfOk result (λ es. es ≡ entities_of place storage function inits.now) }
{
    let mut entities = Vec::new(alloc);
    if inits.is_empty() {
        entities.push(Entity::Nothing)?;
        return Ok(List::of(entities));
    }
    for i in inits {
        entities.push(category_of(place, storage, function, &i.node.declr.node).entity())?;
    }
    Ok(List::of(entities))
}

/// By what the specifiers of a declaration are judged.
pub fn setting_of(alloc: Global, place: Where, d: &Decl, state: &State) -> Result<Setting, NoMemory>
    ensures { IfOk result (λ s. s ≡ setting_of_decl place d.now (state_of state.now)) }
{
    let specs = d.specs.all();
    let inits = d.inits.all();
    let storage = storage_in(specs);
    let function = name_function(specs, state);
    Ok(Setting {
        place,
        entities: entities(alloc, place, storage, function, inits)?,
        given: are_given(inits),
    })
}
