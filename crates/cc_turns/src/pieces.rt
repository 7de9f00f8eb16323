//! Pieces of a construct that are lists of tokens of one kind, or one that may be left out.

ghost use Rattle.std.specs.Prelude.{◌≡◌, Ok};
ghost use Rattle.cc_tree.specs.Reading.{Gives, flat_of};
ghost use Rattle.cc_tree.specs.ReadTypes.{texts as texts_of, qualifiers as qualifiers_of, tag as tag_of};

use crate::cursor::owned;
use crate::names::is_qualifier;
use cc_lex::{Kind, Token, Word};
use cc_num::{List, Name};
use cc_tree::stop::Reading;
use std::alloc::Global;

/// The bytes of the neighbouring literals that stand first, and the tokens behind them.
#[tactic(auto, using(cc_tree::proofs::LoopSteps::of_joined))]
pub fn texts<'t>(alloc: Global, tokens: &'t [Token]) -> Reading<'t, List<u8>>
    ensures { Gives flat_of result (Ok (texts_of tokens.now)) }
{
    let mut bytes = Vec::new(alloc);
    let mut tokens = tokens;
    while let [first, rest @ ..] = tokens {
        match &first.kind {
            Kind::Text(text) => bytes.extend_from_slice(text.all())?,
            _ => return Ok((List::of(bytes), tokens)),
        }
        tokens = rest;
    }
    Ok((List::of(bytes), tokens))
}

/// The qualifiers that stand first, and the tokens behind them.
#[tactic(auto, using(cc_tree::proofs::LoopSteps::of_joined))]
pub fn qualifiers<'t>(alloc: Global, tokens: &'t [Token]) -> Reading<'t, List<Word>>
    ensures { Gives flat_of result (Ok (qualifiers_of tokens.now)) }
{
    let mut list = Vec::new(alloc);
    let mut tokens = tokens;
    while let [first, rest @ ..] = tokens {
        match &first.kind {
            Kind::Keyword(word) => {
                if !is_qualifier(*word) {
                    return Ok((List::of(list), tokens));
                }
                list.push(*word)?;
            }
            _ => return Ok((List::of(list), tokens)),
        }
        tokens = rest;
    }
    Ok((List::of(list), tokens))
}

/// The name that stands first, if one does, and the tokens behind it.
#[tactic(auto, unfolding(cc_tree::specs::ReadTypes::tag))]
pub fn tag<'t>(alloc: Global, tokens: &'t [Token]) -> Reading<'t, Option<Name>>
    ensures { Gives flat_of result (Ok (tag_of tokens.now)) }
{
    match tokens {
        [first, rest @ ..] => match &first.kind {
            Kind::Ident(name) => Ok((Some(owned(alloc, name.all())?), rest)),
            _ => Ok((None, tokens)),
        },
        [] => Ok((None, tokens)),
    }
}
