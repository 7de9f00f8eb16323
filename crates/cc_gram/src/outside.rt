//! Words of C and GNU C that are outside the subset.

ghost use Rattle.std.specs.Prelude.{◌≡◌};
ghost use Rattle.cc_tree.specs.Outside.{begins_literal as begins_literal_of, outside_word as outside_word_of, first_outside as first_outside_of, word_and_offset};
ghost use Rattle.std.specs.Option.{option_copied};
ghost use Rattle.cc_lex.specs.declared.token.Kind.TheVariants.{Ident, Punct};

use cc_lex::{Kind, Mark, Token};
use cc_words::is_outside;

fn begins_literal(tokens: &[Token]) -> bool
    ensures { result ≡ begins_literal_of tokens.now }
{
    match tokens {
        [first, ..] => match &first.kind {
            Kind::Character(_) | Kind::Text(_) => true,
            _ => false,
        },
        [] => false,
    }
}

/// The outside word that a name is, given the tokens behind it.
fn outside_name<'t>(name: &'t [u8], rest: &[Token]) -> Option<&'t [u8]>
    ensures { option_copied result ≡ outside_word_of (Ident name.now) rest.now }
{
    if is_outside(name) || name == b"L".as_slice() && begins_literal(rest) {
        Some(name)
    } else {
        None
    }
}

fn outside_mark<'t>(mark: Mark, rest: &[Token]) -> Option<&'t [u8]>
    ensures { option_copied result ≡ outside_word_of (Punct mark) rest.now }
{
    match mark {
        Mark::Dots => Some(b"..."),
        _ => None,
    }
}

/// The outside word that a token is, given the tokens behind it.
fn outside_word<'t>(kind: &'t Kind, rest: &[Token]) -> Option<&'t [u8]>
    ensures { option_copied result ≡ outside_word_of kind.now rest.now }
{
    match kind {
        Kind::Ident(name) => outside_name(name.all(), rest),
        Kind::Punct(mark) => outside_mark(*mark, rest),
        _ => None,
    }
}

/// The first outside word, and its offset.
pub fn first_outside(tokens: &[Token]) -> Option<(&[u8], u32)>
    ensures { word_and_offset result ≡ first_outside_of tokens.now }
{
    let mut tokens = tokens;
    while let [first, rest @ ..] = tokens {
        if let Some(word) = outside_word(&first.kind, rest) {
            return Some((word, first.at));
        }
        tokens = rest;
    }
    None
}
