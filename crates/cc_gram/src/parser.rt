//! The tree of a list of tokens.

ghost use Rattle.std.specs.Prelude.{◌≡◌, ◌≢◌, ◌≤◌, ◌+◌, length, IfOk, IfErr, None as NoneOf};
ghost use Rattle.cc_tree.specs.declared.fault.GramFault.TheVariants as fault;
ghost use Rattle.cc_tree.specs.declared.unit.Unit.{Unit as UnitTree};
ghost use Rattle.cc_tree.specs.Faults.{IsRead, HasFault, place as place_of, end_of};
ghost use Rattle.cc_tree.specs.Height.{greatest_height};
ghost use Rattle.cc_gram.specs.Parse.{DeepAt, ReadsUnit, RefusesAt, ExceedsAt, IfSyntax, IfTooDeep, IsInside};

use crate::outside::first_outside;
use cc_lex::Token;
use cc_machine::run::run;
use cc_num::{List, at};
use cc_tree::stop::Stop;
use cc_tree::{GramFault, Unit};
use std::alloc::Global;

/// The offset behind the last token, or the greatest one.
fn end(tokens: &[Token]) -> u32
    ensures { result ≡ end_of tokens.now }
{
    match at(tokens, tokens.len().saturating_sub(1)) {
        Some(last) => last.at.saturating_add(last.len),
        None => 0,
    }
}

/// The offset of the token from which so many stand to the end, or the end.
fn place(tokens: &[Token], ahead: usize) -> u32
    ensures { result ≡ place_of tokens.now ahead }
{
    match at(tokens, tokens.len().saturating_sub(ahead)) {
        Some(token) => token.at,
        None => end(tokens),
    }
}

/// The offset of the token from which so many stand to the end, or of the last one.
fn deep_place(tokens: &[Token], ahead: usize) -> u32
    requires { 65 + ahead ≤ length tokens.now }
    ensures { DeepAt tokens.now ahead result }
{
    let before = tokens.len() - ahead.max(1);
    tokens[before].at
}

/// The tree of tokens among which no outside word is.
#[tactic(auto, using(crate::proofs::ParseLaws::of_deep))]
fn inside(alloc: Global, tokens: &[Token]) -> Result<Unit, GramFault>
    ensures inside { IfErr result IsInside }
    ensures read { IfOk result (ReadsUnit greatest_height tokens.now) }
    ensures syntax { IfErr result (IfSyntax (RefusesAt greatest_height tokens.now)) }
    ensures too_deep { IfErr result (IfTooDeep (ExceedsAt greatest_height tokens.now)) }
{
    match run(alloc, tokens) {
        Ok(unit) => Ok(unit.node),
        Err(Stop::Wrong(ahead)) => Err(GramFault::Syntax(place(tokens, ahead))),
        Err(Stop::Deep(ahead)) => Err(GramFault::TooDeep(deep_place(tokens, ahead))),
        Err(Stop::NoMemory) => Err(GramFault::NoMemory),
    }
}

/// The tree of tokens, or the fault that they have.
#[tactic(auto, using(crate::proofs::ParseLaws::of_parse))]
fn answer(alloc: Global, tokens: &[Token]) -> Result<Unit, GramFault>
    ensures read { IfOk result (λ u. IsRead tokens.now u) }
    ensures refused { IfErr result (λ e. e ≢ fault.NoMemory → HasFault tokens.now e) }
{
    match first_outside(tokens) {
        Some((word, offset)) => {
            let word = List::of(Vec::from_slice(alloc, word)?);
            Err(GramFault::Outside(word, offset))
        }
        None => inside(alloc, tokens),
    }
}

/// The tree of a sentence (C99 6.5 to 6.9) of height at most 128.
///
/// The answer is Outside exactly where a token is an outside word, with the first one. Where none is, it is Ok
/// exactly where the tokens are a sentence of height at most 128. Syntax comes only where they are no sentence,
/// with the first token that is refused where it stands, or the end; and TooDeep only where they are none of that
/// height, with the token behind which more nodes are open before any is refused. A sentence of height at most 128
/// is answered with its tree, or with want of memory.
pub fn parse(alloc: Global, tokens: &[Token]) -> Result<Unit, GramFault>
    ensures read { IfOk result (λ u. IsRead tokens.now u) }
    ensures refused { IfErr result (λ e. e ≢ fault.NoMemory → HasFault tokens.now e) }
    ensures complete { (u : UnitTree) → IsRead tokens.now u → IfOk result (λ v. v ≡ u) × IfErr result (λ e. e ≡ fault.NoMemory) }
{
    answer(alloc, tokens)
}
