//! What a tree is by its form: whether a declarator has a name, what specifiers have among them.

ghost use Rattle.std.specs.Prelude.{◌≡◌, is_some};
ghost use Rattle.std.specs.Option.{option_copied};
ghost use Rattle.cc_tree.specs.Scopes.{name_of as name_of_declr, is_typedef_word as is_typedef_word_of, declares_types as declares_types_of};
ghost use Rattle.cc_tree.specs.Terms.{have_word as have_word_of, is_nothing as is_nothing_of, is_attr as is_attr_of, ends_structure as ends_structure_of, is_extension as is_extension_of, is_void as is_void_of, is_void_list as is_void_list_of, is_only_void as is_only_void_of};
ghost use Rattle.cc_tree.specs.TurnTypes.{attrs_apart as attrs_apart_of};
ghost use Rattle.cc_tree.specs.declared.tree.Spec.{Word as SpecWord};

use cc_lex::Word;
use cc_tree::{At, Declr, Param, Spec};

/// Whether a declarator has a name.
pub fn has_name(declr: &Declr) -> bool
    ensures { result ≡ is_some (name_of_declr declr.now) }
{
    match declr {
        Declr::Nothing => false,
        Declr::Named(_) => true,
        Declr::Paren(inner) => has_name(&inner.get().node),
        Declr::Pointer(_, inner) => has_name(&inner.get().node),
        Declr::Array(inner, _) => has_name(&inner.get().node),
        Declr::Func(inner, _) => has_name(&inner.get().node),
    }
}

/// The name that a declarator declares.
pub fn declared_name(declr: &Declr) -> Option<&[u8]>
    ensures { option_copied result ≡ name_of_declr declr.now }
{
    match declr {
        Declr::Nothing => None,
        Declr::Named(name) => Some(name.all()),
        Declr::Paren(inner) => declared_name(&inner.get().node),
        Declr::Pointer(_, inner) => declared_name(&inner.get().node),
        Declr::Array(inner, _) => declared_name(&inner.get().node),
        Declr::Func(inner, _) => declared_name(&inner.get().node),
    }
}

fn is_typedef(word: Word) -> bool
    ensures { result ≡ is_typedef_word_of (SpecWord word) }
{
    match word {
        Word::Typedef => true,
        _ => false,
    }
}

fn is_typedef_word(spec: &Spec) -> bool
    ensures { result ≡ is_typedef_word_of spec.now }
{
    match spec {
        Spec::Word(word) => is_typedef(*word),
        _ => false,
    }
}

/// Whether specifiers have `typedef` among them.
pub fn declares_types(specs: &[At<Spec>]) -> bool
    ensures { result ≡ declares_types_of specs.now }
{
    specs.iter().any(|spec| is_typedef_word(&spec.node))
}

pub fn is_nothing(declr: &Declr) -> bool
    ensures { result ≡ is_nothing_of declr.now }
{
    match declr {
        Declr::Nothing => true,
        _ => false,
    }
}

fn is_extension_word(word: Word) -> bool
    ensures { result ≡ is_extension_of (SpecWord word) }
{
    match word {
        Word::Extension => true,
        _ => false,
    }
}

fn is_extension(spec: &Spec) -> bool
    ensures { result ≡ is_extension_of spec.now }
{
    match spec {
        Spec::Word(word) => is_extension_word(*word),
        _ => false,
    }
}

/// Whether specifiers have a word other than `__extension__`.
pub fn have_word(specs: &[At<Spec>]) -> bool
    ensures { result ≡ have_word_of specs.now }
{
    specs.iter().any(|spec| !is_extension(&spec.node))
}

fn is_attr(spec: &Spec) -> bool
    ensures { result ≡ is_attr_of spec.now }
{
    match spec {
        Spec::Attr(_) => true,
        _ => false,
    }
}

fn ends_structure(spec: &Spec) -> bool
    ensures { result ≡ ends_structure_of spec.now }
{
    match spec {
        Spec::Struct(_, members, _, _) => members.is_some(),
        _ => false,
    }
}

/// Whether no attribute stands right behind a structure's brace.
pub fn attrs_apart(behind_brace: bool, specs: &[At<Spec>]) -> bool
    ensures { result ≡ attrs_apart_of behind_brace specs.now }
{
    let mut behind_brace = behind_brace;
    for spec in specs {
        if behind_brace && is_attr(&spec.node) {
            return false;
        }
        behind_brace = ends_structure(&spec.node);
    }
    true
}

fn is_void_word(word: Word) -> bool
    ensures { result ≡ is_void_of (SpecWord word) }
{
    match word {
        Word::Void => true,
        _ => false,
    }
}

fn is_void(spec: &Spec) -> bool
    ensures { result ≡ is_void_of spec.now }
{
    match spec {
        Spec::Word(word) => is_void_word(*word),
        _ => false,
    }
}

fn is_void_list(specs: &[At<Spec>]) -> bool
    ensures { result ≡ is_void_list_of specs.now }
{
    match specs {
        [spec] => is_void(&spec.node),
        _ => false,
    }
}

/// Whether parameters are `void` alone.
pub fn is_only_void(params: &[At<Param>]) -> bool
    ensures { result ≡ is_only_void_of params.now }
{
    match params {
        [param] => is_void_list(param.node.specs.all()) && is_nothing(&param.node.declr.node),
        _ => false,
    }
}
