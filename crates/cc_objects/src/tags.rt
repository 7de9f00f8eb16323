//! Structures that a declaration declares or defines beside its declarators (C99 6.7, 2; 6.7.2.3).

ghost use Rattle.std.specs.Prelude.{◌≡◌, IfOk, OnOk};
ghost use Rattle.std.specs.List.{list_all};
ghost use Rattle.std.specs.Option.{option_copied};
ghost use Rattle.cc_objects.specs.Tags.{is_untagged_at as is_untagged_at_of, defines_untagged as defines_untagged_of, aliased_at as aliased_at_of, first_name as first_name_of, is_typedef_word as is_typedef_word_of, aliased, sole_tag as sole_tag_of, is_extension_at as is_extension_at_of, sole_spec, sole_declared, in_front};
ghost use Rattle.cc_program.specs.declared.types.Shape.{out-Shape};
ghost use Rattle.cc_typed_terms.specs.CcScopes.View.{state_of};
ghost use Rattle.cc_tree.specs.Scopes.{name_of};
ghost use Rattle.cc_tree.specs.declared.tree.Spec.{out-Spec};

use cc_program::copy_list;
use cc_program::num::{Name, NoMemory};
use cc_syntax::{CType, Shape};
use cc_tree::{At, Decl, Declr, Init, Spec};
use cc_typed_terms::lex::Word;
use cc_typed_terms::scopes::{State, declare_tag};
use cc_typed_terms::specifiers_crate::Specified;
use std::alloc::Global;

/// The name that a declarator declares.
pub fn declared_name(d: &Declr) -> Option<&Name>
    ensures { option_copied result ≡ name_of d.now }
{
    match d {
        Declr::Nothing => None,
        Declr::Named(x) => Some(x),
        Declr::Paren(d) => declared_name(&d.get().node),
        Declr::Pointer(_, d) => declared_name(&d.get().node),
        Declr::Array(d, _) => declared_name(&d.get().node),
        Declr::Func(d, _) => declared_name(&d.get().node),
    }
}

fn is_untagged_at(spec: &Spec) -> bool
    ensures { result ≡ is_untagged_at_of (out-Spec spec.now) }
{
    match spec {
        Spec::Struct(tag, members, _, _) => tag.is_none() && members.is_some(),
        _ => false,
    }
}

fn defines_untagged(specs: &[At<Spec>]) -> bool
    ensures { result ≡ defines_untagged_of specs.now }
{
    specs.iter().any(|x| is_untagged_at(&x.node))
}

/// A copy of the first name that declarators declare.
fn first_name(alloc: Global, inits: &[At<Init>]) -> Result<Option<Name>, NoMemory>
    ensures { IfOk result (λ x. x ≡ first_name_of inits.now) }
{
    let [i, ..] = inits else {
        return Ok(None);
    };
    match declared_name(&i.node.declr.node) {
        None => Ok(None),
        Some(x) => Ok(Some(copy_list(alloc, x)?)),
    }
}

fn is_typedef_word(storage: Option<Word>) -> bool
    ensures { result ≡ is_typedef_word_of storage }
{
    let Some(word) = storage else {
        return false;
    };
    matches!(word, Word::Typedef)
}

fn alias_at(x: Option<Name>, t: &CType, state: &mut State)
    ensures { state_of state.new ≡ aliased_at_of x (state_of state.old) (out-Shape t.now.shape) }
{
    if let Shape::Struct(id) = &t.shape {
        state.set_alias(*id, x);
    }
}

/// A structure without a tag takes a name from the typedef that defines it.
pub fn alias(alloc: Global, d: &Decl, base: &Specified, state: &mut State) -> Result<(), NoMemory>
    ensures { OnOk result (state_of state.new ≡ aliased d.now base.now (state_of state.old)) }
{
    if is_typedef_word(base.specs.storage) && defines_untagged(d.specs.all()) {
        let x = first_name(alloc, d.inits.all())?;
        alias_at(x, &base.ctype, state);
    }
    Ok(())
}

fn is_extension_at(spec: &Spec) -> bool
    ensures { result ≡ is_extension_at_of (out-Spec spec.now) }
{
    match spec {
        Spec::Word(word) => matches!(word, Word::Extension),
        _ => false,
    }
}

fn sole_tag(spec: &Spec) -> Option<&Name>
    ensures { option_copied result ≡ sole_tag_of (out-Spec spec.now) }
{
    match spec {
        Spec::Struct(tag, members, _, _) => match members {
            None => tag.as_ref(),
            Some(_) => None,
        },
        _ => None,
    }
}

fn declare_sole(alloc: Global, spec: Option<&Spec>, state: &mut State) -> Result<(), NoMemory>
    ensures { OnOk result (state_of state.new ≡ sole_declared (option_copied spec.entry) (state_of state.old)) }
{
    let Some(spec) = spec else {
        return Ok(());
    };
    match sole_tag(spec) {
        None => Ok(()),
        Some(x) => declare_tag(state, alloc, x),
    }
}

fn are_extensions(specs: &[At<Spec>]) -> bool
    ensures { result ≡ list_all (λ x. is_extension_at_of (out-Spec x.node)) specs.now }
{
    specs.iter().all(|x| is_extension_at(&x.node))
}

/// The one specifier that is no `__extension__`, where there is just one.
fn sole(specs: &[At<Spec>]) -> Option<&Spec>
    ensures { option_copied result ≡ sole_spec specs.now }
{
    let mut rest = specs;
    while let [x, others @ ..] = rest {
        if !is_extension_at(&x.node) {
            return if are_extensions(others) {
                Some(&x.node)
            } else {
                None
            };
        }
        rest = others;
    }
    None
}

/// In front of a declaration: `struct x;` and nothing else but `__extension__` declares x in this scope (C99 6.7.2.3, 7).
pub fn declare_in_front(alloc: Global, d: &Decl, state: &mut State) -> Result<(), NoMemory>
    ensures { OnOk result (state_of state.new ≡ in_front d.now (state_of state.old)) }
{
    if d.inits.all().is_empty() {
        declare_sole(alloc, sole(d.specs.all()), state)
    } else {
        Ok(())
    }
}
