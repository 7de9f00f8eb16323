//! Attributes (of GNU C).

ghost use Rattle.std.specs.Prelude.{◌≡◌};
ghost use Rattle.cc_tree.specs.Reading.{Gives, flat_of, after as after_of, begins_with as begins_with_of};
ghost use Rattle.cc_lex.specs.declared.token.Mark.TheVariants.{LParen, RParen};
ghost use Rattle.cc_lex.specs.declared.token.Kind.TheVariants.{Keyword};
ghost use Rattle.cc_tree.specs.ReadTypes.{attr_argument as attr_argument_of, attr_word as attr_word_of, attr_words as attr_words_of, attr_list as attr_list_of, attr as attr_of, attrs as attrs_of, begins_attr as begins_attr_of, is_keyword_attribute as is_keyword_attribute_of};

use crate::cursor::{after, begins_with, behind, eat, name, offset, owned};
use crate::turns::{closed, named};
use cc_lex::{Kind, Mark, Token, Word};
use cc_num::{List, Name};
use cc_tree::stop::{Reading, Stop};
use cc_tree::{At, Attr};
use std::alloc::Global;

type AttrWord = (Name, Option<Name>);

fn attr_argument<'t>(alloc: Global, word: Name, tokens: &'t [Token]) -> Reading<'t, AttrWord>
    ensures { Gives flat_of result (attr_argument_of word tokens.now (after_of LParen tokens.now)) }
{
    match after(Mark::LParen, tokens) {
        None => Ok(((word, None), tokens)),
        Some(rest) => {
            let (read, rest) = named(alloc, word, rest)?;
            let ((word, argument), rest) = closed(read, Mark::RParen, rest)?;
            Ok(((word, Some(argument)), rest))
        }
    }
}

#[tactic(auto, unfolding(cc_tree::specs::ReadTypes::attr_word))]
fn attr_word<'t>(alloc: Global, tokens: &'t [Token]) -> Reading<'t, AttrWord>
    ensures { Gives flat_of result (attr_word_of tokens.now) }
{
    let (word, rest) = name(tokens)?;
    attr_argument(alloc, owned(alloc, word)?, rest)
}

#[tactic(auto, unfolding(cc_tree::specs::ReadTypes::attr_words), using(cc_tree::proofs::LoopSteps::of_separated))]
fn attr_words<'t>(alloc: Global, tokens: &'t [Token]) -> Reading<'t, List<AttrWord>>
    ensures { Gives flat_of result (attr_words_of tokens.now) }
{
    let mut list = Vec::new(alloc);
    let mut tokens = tokens;
    let mut turns = tokens.len() + 1;
    while turns > 0 {
        turns -= 1;
        let (word, rest) = attr_word(alloc, tokens)?;
        list.push(word)?;
        match after(Mark::Comma, rest) {
            None => return Ok((List::of(list), rest)),
            Some(next) => tokens = next,
        }
    }
    Err(Stop::Wrong(tokens.len()))
}

fn attr_list<'t>(alloc: Global, tokens: &'t [Token]) -> Reading<'t, List<AttrWord>>
    ensures { Gives flat_of result (attr_list_of tokens.now (begins_with_of RParen tokens.now)) }
{
    if begins_with(Mark::RParen, tokens) {
        return Ok((List::of(Vec::new(alloc)), tokens));
    }
    attr_words(alloc, tokens)
}

fn is_attribute(word: Word) -> bool
    ensures { result ≡ is_keyword_attribute_of (Keyword word) }
{
    match word {
        Word::Attribute => true,
        _ => false,
    }
}

/// Whether an attribute stands first.
#[tactic(auto, unfolding(cc_tree::specs::ReadTypes::begins_attr))]
pub fn begins_attr(tokens: &[Token]) -> bool
    ensures { result ≡ begins_attr_of tokens.now }
{
    match tokens {
        [first, ..] => match &first.kind {
            Kind::Keyword(word) => is_attribute(*word),
            _ => false,
        },
        [] => false,
    }
}

/// An attribute, where its word stands first.
#[tactic(auto, unfolding(cc_tree::specs::ReadTypes::attr))]
pub fn attr<'t>(alloc: Global, tokens: &'t [Token]) -> Reading<'t, At<Attr>>
    ensures { Gives flat_of result (attr_of tokens.now) }
{
    let rest = eat(Mark::LParen, behind(tokens))?;
    let rest = eat(Mark::LParen, rest)?;
    let (words, rest) = attr_list(alloc, rest)?;
    let (words, rest) = closed(words, Mark::RParen, rest)?;
    let (words, rest) = closed(words, Mark::RParen, rest)?;
    let at = offset(tokens);
    let node = Attr { words };
    Ok((At { at, node }, rest))
}

/// Attributes, as many as stand first.
#[tactic(auto, unfolding(cc_tree::specs::ReadTypes::attrs), using(cc_tree::proofs::LoopSteps::of_repeated))]
pub fn attrs<'t>(alloc: Global, tokens: &'t [Token]) -> Reading<'t, List<At<Attr>>>
    ensures { Gives flat_of result (attrs_of tokens.now) }
{
    let mut list = Vec::new(alloc);
    let mut tokens = tokens;
    let mut turns = tokens.len() + 1;
    while turns > 0 {
        turns -= 1;
        if !begins_attr(tokens) {
            return Ok((List::of(list), tokens));
        }
        let (one, rest) = attr(alloc, tokens)?;
        list.push(one)?;
        tokens = rest;
    }
    Err(Stop::Wrong(tokens.len()))
}
