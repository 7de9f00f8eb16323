//! The first tokens of a list of tokens.

ghost use Rattle.std.specs.Prelude.{◌≡◌, Ok as OkOf};
ghost use Rattle.cc_tree.specs.Tokens.{offset as offset_of};
ghost use Rattle.cc_tree.specs.ReadTypes.{behind as behind_of};
ghost use Rattle.cc_tree.specs.Reading.{Gives, same_mark as same_mark_of, mark_of as mark_of_kind, after as after_of, eat as eat_of, begins_with as begins_with_of, first_mark as first_mark_of, name as name_of, name_read, rest_of, mark_and_rest};

use cc_lex::{Kind, Mark, Token};
use cc_num::{List, Name};
use cc_tree::stop::Stop;
use std::alloc::Global;

#[tactic(auto, unfolding(cc_tree::specs::Reading::same_mark))]
pub fn same_mark(a: Mark, b: Mark) -> bool
    ensures { result ≡ same_mark_of a b }
{
    a as u8 == b as u8
}

pub fn mark_of(kind: &Kind) -> Option<Mark>
    ensures { result ≡ mark_of_kind kind.now }
{
    match kind {
        Kind::Punct(mark) => Some(*mark),
        _ => None,
    }
}

/// The tokens behind a mark, where it stands first.
#[tactic(auto, unfolding(cc_tree::specs::Reading::after))]
pub fn after(mark: Mark, tokens: &[Token]) -> Option<&[Token]>
    ensures { rest_of result ≡ after_of mark tokens.now }
{
    match tokens {
        [first, rest @ ..] => match mark_of(&first.kind) {
            Some(found) => {
                if same_mark(found, mark) {
                    Some(rest)
                } else {
                    None
                }
            }
            None => None,
        },
        [] => None,
    }
}

/// The tokens behind a mark that must stand first.
pub fn eat(mark: Mark, tokens: &[Token]) -> Result<&[Token], Stop>
    ensures { Gives (λ r. r.now) result (eat_of mark tokens.now) }
{
    match after(mark, tokens) {
        Some(rest) => Ok(rest),
        None => Err(Stop::Wrong(tokens.len())),
    }
}

/// Whether a mark stands first.
pub fn begins_with(mark: Mark, tokens: &[Token]) -> bool
    ensures { result ≡ begins_with_of mark tokens.now }
{
    after(mark, tokens).is_some()
}

/// The mark that stands first, and the tokens behind it.
#[tactic(auto, unfolding(cc_tree::specs::Reading::first_mark))]
pub fn first_mark(tokens: &[Token]) -> Option<(Mark, &[Token])>
    ensures { mark_and_rest result ≡ first_mark_of tokens.now }
{
    match tokens {
        [first, rest @ ..] => match mark_of(&first.kind) {
            Some(found) => Some((found, rest)),
            None => None,
        },
        [] => None,
    }
}

/// The name that stands first.
#[tactic(auto, unfolding(cc_tree::specs::Reading::name))]
pub fn name(tokens: &[Token]) -> Result<(&[u8], &[Token]), Stop>
    ensures { Gives name_read result (name_of tokens.now) }
{
    match tokens {
        [first, rest @ ..] => match &first.kind {
            Kind::Ident(x) => Ok((x.all(), rest)),
            _ => Err(Stop::Wrong(tokens.len())),
        },
        [] => Err(Stop::Wrong(0)),
    }
}

/// The offset of the first token.
pub fn offset(tokens: &[Token]) -> u32
    ensures { result ≡ offset_of tokens.now }
{
    match tokens {
        [first, ..] => first.at,
        [] => 0,
    }
}

/// The tokens behind the first.
pub fn behind(tokens: &[Token]) -> &[Token]
    ensures { result.now ≡ behind_of tokens.now }
{
    match tokens {
        [_, rest @ ..] => rest,
        [] => tokens,
    }
}

/// A copy of a name.
pub fn owned(alloc: Global, name: &[u8]) -> Result<Name, Stop>
    ensures { Gives (λ x. x) result (OkOf name.now) }
{
    Ok(List::of(Vec::from_slice(alloc, name)?))
}
