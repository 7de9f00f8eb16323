//! Names of typedefs, and what a token means by them.

ghost use Rattle.std.specs.Prelude.{◌≡◌};
ghost use Rattle.cc_tree.specs.Terms.{is_spec_word as is_spec_word_of, is_qualifier as is_qualifier_of};
ghost use Rattle.cc_tree.specs.ReadTypes.{is_spec_start as is_spec_start_of, kind_begins_spec as kind_begins_spec_of, begins_spec as begins_spec_of, begins_specs as begins_specs_of, is_extension_word as is_extension_word_of};
ghost use Rattle.cc_lex.specs.declared.token.Kind.TheVariants.{Keyword};

use crate::scope::Scope;
use cc_lex::{Kind, Token, Word};

pub fn is_qualifier(word: Word) -> bool
    ensures { result ≡ is_qualifier_of word }
{
    match word {
        Word::Const | Word::Volatile | Word::Restrict => true,
        _ => false,
    }
}

/// A storage class, a qualifier, a basic type's word, `inline` or `__extension__`.
pub fn is_spec_word(word: Word) -> bool
    ensures { result ≡ is_spec_word_of word }
{
    match word {
        Word::Typedef | Word::Extern | Word::Static | Word::Auto | Word::Register => true,
        Word::Const | Word::Volatile | Word::Restrict => true,
        Word::Void | Word::Char | Word::Short | Word::Int | Word::Long => true,
        Word::Signed | Word::Unsigned | Word::Bool => true,
        Word::Inline | Word::Extension => true,
        _ => false,
    }
}

fn is_spec_start(word: Word) -> bool
    ensures { result ≡ is_spec_start_of word }
{
    match word {
        Word::Struct | Word::Enum | Word::Attribute => true,
        _ => is_spec_word(word),
    }
}

fn kind_begins_spec(scope: &Scope, kind: &Kind) -> bool
    ensures { result ≡ kind_begins_spec_of scope.now kind.now }
{
    match kind {
        Kind::Keyword(word) => is_spec_start(*word),
        Kind::Ident(name) => scope.is_typedef(name.all()),
        _ => false,
    }
}

/// Whether a specifier stands first.
#[tactic(auto, unfolding(cc_tree::specs::ReadTypes::begins_spec))]
pub fn begins_spec(scope: &Scope, tokens: &[Token]) -> bool
    ensures { result ≡ begins_spec_of scope.now tokens.now }
{
    match tokens {
        [first, ..] => kind_begins_spec(scope, &first.kind),
        [] => false,
    }
}

fn is_extension(word: Word) -> bool
    ensures { result ≡ is_extension_word_of (Keyword word) }
{
    match word {
        Word::Extension => true,
        _ => false,
    }
}

fn is_extension_word(kind: &Kind) -> bool
    ensures { result ≡ is_extension_word_of kind.now }
{
    match kind {
        Kind::Keyword(word) => is_extension(*word),
        _ => false,
    }
}

/// Whether specifiers stand first, behind as many `__extension__` as there are.
pub fn begins_specs(scope: &Scope, tokens: &[Token]) -> bool
    ensures { result ≡ begins_specs_of scope.now tokens.now }
{
    let mut tokens = tokens;
    while let [first, rest @ ..] = tokens {
        if !is_extension_word(&first.kind) {
            return kind_begins_spec(scope, &first.kind);
        }
        tokens = rest;
    }
    false
}
